//! The words of the command line: optionally `--text`, CODEC, and any number of INDEX and FILE.
ghost use Rattle.std.specs.Prelude.{◌≡◌};
ghost use Rattle.legacy_command.specs.Words.{texts_of, wants_text, output_kind, words_after_option, codec_named};
ghost use Rattle.legacy_command.specs.Words.{index_named, first_index_named, stands_among, are_indexes, codec_of_words};

use legacy_index_files::{Codec, FileIndex};

/// The kind of output.
#[derive(Clone, Copy, Debug, PartialEq, Eq)]
pub enum OutputKind {
    /// A line for each event.
    Lines,
    /// The text in UTF-8, with U+FFFD for each malformed sequence.
    Text,
}

/// Returns whether the first word is `--text`.
fn is_text_wanted(words: &[&str]) -> bool
    ensures { result ≡ wants_text (texts_of words.now) }
{
    match words {
        [word, ..] => *word == "--text",
        [] => false,
    }
}

/// Returns the kind of output: the text if the first word is `--text`, and lines otherwise.
pub fn output_asked(words: &[&str]) -> OutputKind
    ensures { result ≡ output_kind (texts_of words.now) }
{
    if is_text_wanted(words) {
        OutputKind::Text
    } else {
        OutputKind::Lines
    }
}

/// Returns the words without a leading `--text`.
pub fn request<'a, 'b>(words: &'a [&'b str]) -> &'a [&'b str]
    ensures { texts_of result.now ≡ words_after_option (texts_of words.now) }
{
    if is_text_wanted(words) {
        return &words[1..];
    }
    words
}

/// Returns the codec that a word names, or `None`.
fn codec_of(word: &str) -> Option<Codec>
    ensures { result ≡ codec_named word.now }
{
    match word {
        "x-user-defined" => Some(Codec::UserDefined),
        "replacement" => Some(Codec::Replacement),
        "single-byte" => Some(Codec::SingleByte),
        "utf-16le" => Some(Codec::Utf16Le),
        "utf-16be" => Some(Codec::Utf16Be),
        "big5" => Some(Codec::Big5),
        "euc-kr" => Some(Codec::EucKr),
        "shift_jis" => Some(Codec::ShiftJis),
        "euc-jp" => Some(Codec::EucJp),
        "gb18030" => Some(Codec::Gb18030),
        "gbk" => Some(Codec::Gbk),
        "iso-2022-jp" => Some(Codec::Iso2022Jp),
        _ => None,
    }
}

/// Returns the index that a word names, or `None`.
fn index_of(word: &str) -> Option<FileIndex>
    ensures { result ≡ index_named word.now }
{
    match word {
        "big5" => Some(FileIndex::Big5),
        "euc-kr" => Some(FileIndex::EucKr),
        "jis0208" => Some(FileIndex::Jis0208),
        "jis0212" => Some(FileIndex::Jis0212),
        "gb18030" => Some(FileIndex::Gb18030),
        "ranges" => Some(FileIndex::Ranges),
        "single-byte" => Some(FileIndex::SingleByte),
        _ => None,
    }
}

/// Returns the index that the first word names, or `None`.
pub fn first_index(words: &[&str]) -> Option<FileIndex>
    ensures { result ≡ first_index_named (texts_of words.now) }
{
    match words {
        [index, ..] => index_of(index),
        [] => None,
    }
}

/// Returns whether the word is one of the words at the places 0, 2, 4 and so on.
fn is_index_again(word: &str, words: &[&str]) -> bool
    ensures { result ≡ stands_among word.now (texts_of words.now) }
{
    match words {
        [index, _file, rest @ ..] => *index == word || is_index_again(word, rest),
        _ => false,
    }
}

/// Returns whether the words are INDEX and FILE any number of times, with no INDEX twice.
fn is_indexes(words: &[&str]) -> bool
    ensures { result ≡ are_indexes (texts_of words.now) }
{
    match words {
        [] => true,
        [_] => false,
        [index, _file, rest @ ..] => {
            index_of(index).is_some() && !is_index_again(index, rest) && is_indexes(rest)
        }
    }
}

/// Returns the codec that the words name, without the program's name and without `--text`.
///
/// Returns `None` unless the words are a codec, and then INDEX and FILE any number of times with no
/// INDEX twice.
pub fn codec_in(words: &[&str]) -> Option<Codec>
    ensures { result ≡ codec_of_words (texts_of words.now) }
{
    let [codec, indexes @ ..] = words else {
        return None;
    };
    if is_indexes(indexes) {
        return codec_of(codec);
    }
    None
}
