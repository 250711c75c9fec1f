//! What the decoder reads ahead: ASCII text in ASCII mode, pairs of index jis0208 in two-byte mode, single bytes in
//! the other modes, and the escapes between them.
// Functions that run for each sequence or block are always inlined, and so are their callers. A call would pass vectors
// through memory, and keep the destination's place there.
ghost use Rattle.std.specs.Prelude.{◌≡◌, ◌≢◌, ◌≤◌, All, IfSome, Some, length, take, true};
ghost use Rattle.{legacy_base.specs.{Grammar.iso_2022_jp, declared.modes.DecoderMode.TheVariants.{Ascii, TwoByte}, States.new_state}, legacy_decoder_engine.specs.ReadAhead.{ReadsAhead, ReadsInto}};
ghost use Rattle.{legacy_base.specs.Iso2022Jp.esc, legacy_japanese.specs.Iso2022JpMachine.single};
ghost use Rattle.legacy_japanese.specs.Iso2022JpAhead.{BeginsEscape, HasEscape, IsAsciiText, ReadsModes};

use super::bytes::{DOLLAR, ESCAPE, Escape, PAREN, Start, completed, single_scalar};
use super::places::{LEADS, TRAILS};
use legacy_base::{DecoderMode, Destination, IndexName, Tables, Utf8Destination};
use legacy_decoder_engine::common_forms::{CommonForm, FrontForms, read_forms};
use legacy_decoder_engine::places::pair_pointer;
use legacy_decoder_engine::read_ahead::SLACK;
use legacy_tables::{DecoderTables, FlatTables};
use legacy_text::FillsBuffer;
use legacy_text::past_ascii::{ascii_front, past_ascii};
use std::simd::prelude::*;

/// Text that begins with pairs of two-byte mode.
// A loop keeps the parts of a copy of the tables in registers.
#[derive(Drop)]
struct PairsAhead<'a, 'b> {
    tables: FlatTables<'b>,
    src: &'a [u8],
}

impl FrontForms for PairsAhead<'_, '_> {
    ghost grammar = { λ ahead. iso_2022_jp ahead.tables.flat.jis0208 TwoByte };

    #[inline(always)]
    fn form(&self, first: u8, second: u8) -> CommonForm {
        let pointer = pair_pointer(&LEADS, &TRAILS, first, second);
        CommonForm::of_pair(self.tables.idx(IndexName::Jis0208, pointer))
    }
}

impl FillsBuffer for PairsAhead<'_, '_> {
    ghost fills = { λ ahead. ReadsInto (iso_2022_jp ahead.tables.flat.jis0208 TwoByte) ahead.src.now };

    /// Reads pairs from the front of the text, and returns the numbers of bytes read and written.
    // It is a function of its own, so that its loop has the registers of a call for itself.
    #[inline(never)]
    fn fill(&self, buffer: &mut [u8]) -> (usize, usize) {
        let mut dst = Utf8Destination::new(buffer);
        let read = read_forms(self, self.src, self.src.len(), &mut dst);
        (read, dst.written())
    }
}

/// Reads pairs from the front of the text, and returns the number of bytes read, which may be 0.
#[inline(always)]
fn read_pairs<T: Destination>(ahead: &PairsAhead<'_, '_>, dst: &mut T) -> usize
    ensures { ReadsAhead T.Destination (new_state (iso_2022_jp ahead.now.tables.flat.jis0208 TwoByte)) ahead.now.src.now result
        dst.old dst.new }
{
    match dst.lend(ahead) {
        Some(read) => read,
        None => read_forms(ahead, ahead.src, ahead.src.len(), dst),
    }
}

/// Reads pairs from the front over flat tables, and returns the number of bytes read, which may be 0.
#[inline(always)]
fn read_flat_pairs<T: Destination>(tables: &FlatTables, src: &[u8], dst: &mut T) -> usize
    ensures { ReadsAhead T.Destination (new_state (iso_2022_jp tables.now.flat.jis0208 TwoByte)) src.now result dst.old dst.new }
{
    let tables = tables.copied();
    read_pairs(&PairsAhead { tables, src }, dst)
}

/// Reads pairs from the front, if the first byte may be a lead and the tables are flat.
///
/// Returns the number of bytes read, which may be 0.
#[inline(always)]
fn read_any_pairs<T: Destination>(tables: &Tables, src: &[u8], dst: &mut T) -> usize
    ensures { ReadsModes T.Destination tables.now.flat.jis0208 TwoByte TwoByte src.now result dst.old dst.new }
{
    if src.is_empty() || src[0] < 0x21 {
        return 0;
    }
    match tables.flat() {
        Some(tables) => read_flat_pairs(tables, src, dst),
        None => 0,
    }
}

/// Checks whether the byte is of ASCII text: its own scalar in ASCII mode, and not the escape byte.
#[inline]
fn is_ascii_text(byte: u8) -> bool
    ensures { result ≡ true → IsAsciiText byte }
{
    byte < 0x80 && byte != 0x0E && byte != 0x0F && byte != 0x1B
}

/// Returns a number of bytes of ASCII text at the front of a block, up to the first byte past ASCII or control from 0E to 1F.
// The other bytes of ASCII are among these. The rest of these are uncommon.
#[inline(always)]
fn ascii_text_count(block: u8x64) -> usize
    ensures most { result ≤ 64 }
    ensures text { All IsAsciiText (take result block) }
{
    let offsets = block - u8x64::splat(0x0E);
    let controls = offsets.simd_lt(u8x64::splat(0x12)).to_bitmask();
    ascii_front(past_ascii(block)).min(controls.trailing_zeros() as usize)
}

/// Reads bytes of ASCII text from the front in ASCII mode by blocks of 64, up to a block with other bytes.
///
/// Returns the number of bytes read, which may be 0. If it reads any, three code units stay free.
#[inline(always)]
fn read_ascii_text_blocks<T: Destination>(tables: &Tables, src: &[u8], dst: &mut T) -> usize
    ensures { ReadsModes T.Destination tables.now.flat.jis0208 Ascii Ascii src.now result dst.old dst.new }
{
    let _ = tables;
    let mut at = 0;
    while src.len() - at >= 64 && dst.free() >= 64 + SLACK {
        let rest = &src[at..];
        let count = ascii_text_count(u8x64::from_slice(rest));
        dst.put_block(rest, count);
        at += count;
        if count < 64 {
            return at;
        }
    }
    at
}

/// Reads at most `most` bytes of ASCII text one by one from the front in ASCII mode.
///
/// Returns the number of bytes read, which may be 0. If it reads any, three code units stay free.
#[inline(always)]
fn read_ascii_text_bytes<T: Destination>(
    tables: &Tables,
    src: &[u8],
    most: usize,
    dst: &mut T,
) -> usize
    requires { most ≤ length src.now }
    ensures { ReadsModes T.Destination tables.now.flat.jis0208 Ascii Ascii src.now result dst.old dst.new }
{
    let _ = tables;
    let mut at = 0;
    while at < most && is_ascii_text(src[at]) && dst.free() >= 1 + SLACK {
        dst.put(char::from(src[at]));
        at += 1;
    }
    at
}

/// Reads bytes of ASCII text from the front in ASCII mode. Returns the number of bytes read, which may be 0.
#[inline(always)]
fn read_ascii_text<T: Destination>(tables: &Tables, src: &[u8], dst: &mut T) -> usize
    ensures { ReadsModes T.Destination tables.now.flat.jis0208 Ascii Ascii src.now result dst.old dst.new }
{
    // A single byte before a malformed one is read without a block.
    if src.len() > 1 && src[1] >= 0x80 {
        return read_ascii_text_bytes(tables, src, 1, dst);
    }
    let blocks = read_ascii_text_blocks(tables, src, dst);
    let rest = &src[blocks..];
    blocks + read_ascii_text_bytes(tables, rest, rest.len(), dst)
}

/// Returns the scalar of a byte outside two-byte mode, or `None` if it has none or is the escape byte.
#[inline(always)]
fn text_scalar(mode: DecoderMode, byte: u8) -> Option<char>
    ensures { IfSome result (λ c. (byte ≢ esc) × (single mode byte ≡ Some c)) }
{
    if byte == ESCAPE {
        return None;
    }
    single_scalar(mode, byte)
}

/// Reads bytes one by one from the front outside two-byte mode, up to an escape byte or one without a scalar.
///
/// Returns the number of bytes read, which may be 0. If it reads any, three code units stay free.
#[inline(always)]
fn read_single_bytes<T: Destination>(
    tables: &Tables,
    mode: DecoderMode,
    src: &[u8],
    dst: &mut T,
) -> usize
    ensures { ReadsModes T.Destination tables.now.flat.jis0208 mode mode src.now result dst.old dst.new }
{
    let _ = tables;
    let mut at = 0;
    while at < src.len() && dst.free() >= 3 + SLACK {
        match text_scalar(mode, src[at]) {
            Some(scalar) => dst.put(scalar),
            None => return at,
        }
        at += 1;
    }
    at
}

/// Checks whether the first byte is of ASCII text.
#[inline(always)]
fn begins_ascii_text(src: &[u8]) -> bool {
    !src.is_empty() && is_ascii_text(src[0])
}

/// Reads text of the mode from the front, if the first byte says that any may begin there.
///
/// Returns the number of bytes read, which may be 0. Over packed tables it reads no pairs.
#[inline(always)]
fn read_begun<T: Destination>(tables: &Tables, mode: DecoderMode, src: &[u8], dst: &mut T) -> usize
    ensures { ReadsModes T.Destination tables.now.flat.jis0208 mode mode src.now result dst.old dst.new }
{
    match mode {
        DecoderMode::Ascii if begins_ascii_text(src) => read_ascii_text(tables, src, dst),
        DecoderMode::Ascii => 0,
        DecoderMode::TwoByte => read_any_pairs(tables, src, dst),
        DecoderMode::Roman | DecoderMode::Katakana => read_single_bytes(tables, mode, src, dst),
    }
}

/// Returns the valid escape at the front.
#[inline(always)]
pub fn front_escape(src: &[u8]) -> Option<Escape>
    ensures { IfSome result (λ escape. BeginsEscape escape src.now) }
{
    if src.len() < 3 || src[0] != ESCAPE {
        return None;
    }
    match src[1] {
        DOLLAR => completed(Start::Dollar, src[2]),
        PAREN => completed(Start::Paren, src[2]),
        _ => None,
    }
}

/// Returns the valid escape at the front, if a byte follows that is not the escape byte.
#[inline(always)]
fn escape_alone(src: &[u8]) -> Option<Escape>
    ensures { IfSome result (λ escape. HasEscape escape src.now) }
{
    if src.len() < 4 || src[3] == ESCAPE {
        return None;
    }
    front_escape(src)
}

/// Reads text of the mode from the front, and then each escape that has text of its mode after it.
///
/// Returns the mode at the end, and the number of bytes read.
#[inline(always)]
pub fn read_modes<T: Destination>(
    tables: &Tables,
    first: DecoderMode,
    src: &[u8],
    dst: &mut T,
) -> (DecoderMode, usize)
    ensures { ReadsModes T.Destination tables.now.flat.jis0208 first result.0 src.now result.1 dst.old dst.new }
{
    let mut mode = first;
    let mut at = read_begun(tables, mode, src, dst);
    while let Some(escape) = escape_alone(&src[at..]) {
        let next = escape.mode();
        let read = read_begun(tables, next, &src[at + 3..], dst);
        if read == 0 {
            break;
        }
        mode = next;
        at += 3 + read;
    }
    (mode, at)
}
