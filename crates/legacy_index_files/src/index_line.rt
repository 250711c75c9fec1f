//! The parser of a line of an index file.
ghost use Rattle.std.specs.Prelude.{◌≡◌, ◌<◌, ◌≤◌, ◌+◌, ◌∷◌, Some, None, MatchOption, length, ◌==◌, position};
ghost use Rattle.std.specs.Option.{option_copied};
ghost use Rattle.legacy_index_files.specs.IndexLine.{lines, is_blank, past_blanks, says_nothing, value_digits, number_at, entry_at, line_kind};

/// The kind of a line of an index file.
#[derive(Drop)]
pub(crate) enum LineKind {
    /// Only blanks, a comment, or the ranges' line of the supplementary planes.
    Skipped,
    /// A pointer and its value.
    Entry(u32, u32),
    /// Any other line.
    Malformed,
}

/// The greatest number of digits of a pointer or a value.
const MOST_DIGITS: usize = 6;

/// Splits a non-empty text into its first line, without its 0A, and the bytes after it.
pub(crate) fn split_line(text: &[u8]) -> (&[u8], &[u8])
    requires { 0 < length text.now }
    ensures first { lines text.now ≡ result.0.now ∷ lines result.1.now }
    ensures shorter { length result.1.now < length text.now }
{
    match line_end(text) {
        Some(end) => (&text[..end], &text[end + 1..]),
        None => (text, &[]),
    }
}

/// Returns the position of the first 0A.
fn line_end(text: &[u8]) -> Option<usize>
    ensures { result ≡ position (λ byte. byte == 0x0A) text.now }
{
    text.iter().position(|byte| *byte == b'\n')
}

/// Returns the kind of a line, which is given without its 0A.
pub(crate) fn parse_line(line: &[u8]) -> LineKind
    ensures { result ≡ line_kind line.now }
{
    let body = skip_blanks(line);
    if is_skipped(body) {
        return LineKind::Skipped;
    }
    match parse_entry(body) {
        Some((pointer, value)) => LineKind::Entry(pointer, value),
        None => LineKind::Malformed,
    }
}

/// Checks whether a line is skipped, by its bytes after the blanks.
///
/// It is skipped if they are empty, a single 0D, or a comment.
fn is_skipped(body: &[u8]) -> bool
    ensures { result ≡ says_nothing body.now }
{
    matches!(body, [] | [b'\r'] | [b'#', ..])
}

/// Returns the pointer and the value of an entry at the beginning of `body`.
fn parse_entry(body: &[u8]) -> Option<(u32, u32)>
    ensures { result ≡ entry_at body.now }
{
    let (pointer, after) = parse_number(body, 10)?;
    let digits = skip_to_value(after)?;
    let (value, _) = parse_number(digits, 16)?;
    Some((pointer, value))
}

/// Returns the bytes after at least one blank and `0x`, or `None` if the bytes begin otherwise.
fn skip_to_value(after: &[u8]) -> Option<&[u8]>
    ensures { option_copied result ≡ value_digits after.now }
{
    let (first, rest) = after.split_first()?;
    if !is_blank_byte(*first) {
        return None;
    }
    match skip_blanks(rest) {
        [b'0', b'x', digits @ ..] => Some(digits),
        _ => None,
    }
}

/// Returns the number of the digits at the beginning of `bytes`, and the bytes after them.
///
/// Returns `None` if there are not 1 to 6 digits.
fn parse_number(bytes: &[u8], radix: u32) -> Option<(u32, &[u8])>
    requires low { 2 ≤ radix }
    requires high { radix ≤ 16 }
    ensures { MatchOption result (number_at radix bytes.now ≡ None)
        (λ n. number_at radix bytes.now ≡ Some (n.0, n.1.now)) }
{
    let mut rest = bytes;
    let mut value = 0;
    let mut count = 0;
    while let Some((first, after)) = rest.split_first() {
        let Some(digit) = (*first as char).to_digit(radix) else {
            break;
        };
        if count == MOST_DIGITS {
            return None;
        }
        value = value * radix + digit;
        count += 1;
        rest = after;
    }
    if count == 0 {
        None
    } else {
        Some((value, rest))
    }
}

/// Returns the bytes after the blanks at the beginning of `bytes`.
fn skip_blanks(bytes: &[u8]) -> &[u8]
    ensures { result.now ≡ past_blanks bytes.now }
{
    let mut rest = bytes;
    while let Some((first, after)) = rest.split_first() {
        if !is_blank_byte(*first) {
            break;
        }
        rest = after;
    }
    rest
}

fn is_blank_byte(byte: u8) -> bool
    ensures { result ≡ is_blank byte }
{
    byte == b' ' || byte == b'\t'
}
