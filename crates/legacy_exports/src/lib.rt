//! Eight functions that a program in another language can call, to time the codecs.
//!
//! They decode to UTF-8 and UTF-16, and encode from both, by the number of a codec. Four make raw
//! calls, and four make calls with replacement. `bench/legacy_codecs.h` declares them.
//!
//! Each converts the whole source `times` times, in pieces of `piece` code units (0: in one piece).
//! It returns the number of code units written to the output the last time. One decoder or encoder
//! makes all conversions: it continues from one time to the next. A malformed sequence becomes
//! U+FFFD. An unmappable scalar becomes a question mark, or a reference in calls with replacement.
//! The conversion stops if the output is full. Encoders of pairs list them in memory that the
//! caller lends, if it is long enough.
//!
//! If no codec has the number or the indexes are refused, nothing is written and `usize::MAX` is
//! returned.
#![tactic(auto)]

ghost use Rattle.std.specs.Prelude.{◌≡◌, ⊤, length, take, IsUtf8};
ghost use Rattle.std.specs.Str.{chars};
ghost use Rattle.legacy_text.specs.EncodingForm.{Utf8, Utf16};
ghost use Rattle.legacy_text.specs.Texts.{unit_scalars};
ghost use Rattle.legacy_exports.specs.AcceptedIndexes.{IsRefused, IsRefusedToEncode, IsTakenToEncode};
ghost use Rattle.legacy_exports.specs.Decoding.{ReturnsText, raw_calls, replacing_calls};
ghost use Rattle.legacy_exports.specs.Encoding.{ReturnsBytes, numeric_reference, question_mark};

mod calls;
mod codec;
mod decode;
mod encode;
mod indexes;
mod pieces;
mod source_texts;
mod unit;

use crate::calls::{Raw, Replacing};
use crate::decode::decode_or_refuse;
use crate::encode::{encode_bytes_or_refuse, encode_or_refuse};
use crate::indexes::IndexSlices;
use crate::pieces::Reading;

/// Decodes the source to UTF-8 by the codec of this number.
#[unsafe(no_mangle)]
pub extern "C" fn legacy_decode_to_utf8(
    codec: u32,
    indexes: &IndexSlices,
    source: &[u8],
    output: &mut [u8],
    piece: usize,
    times: usize,
) -> usize
    ensures text { ReturnsText raw_calls codec indexes.now Utf8 source.now times (length output.old)
        (take result output.new) result }
    ensures unchanged { IsRefused codec indexes.now → output.new ≡ output.old }
{
    let reading = Reading::new(Raw, source, piece, times);
    decode_or_refuse(codec, indexes, reading, output)
}

/// Decodes the source to UTF-16 by the codec of this number.
#[unsafe(no_mangle)]
pub extern "C" fn legacy_decode_to_utf16(
    codec: u32,
    indexes: &IndexSlices,
    source: &[u8],
    output: &mut [u16],
    piece: usize,
    times: usize,
) -> usize
    ensures text { ReturnsText raw_calls codec indexes.now Utf16 source.now times (length output.old)
        (take result output.new) result }
    ensures unchanged { IsRefused codec indexes.now → output.new ≡ output.old }
{
    let reading = Reading::new(Raw, source, piece, times);
    decode_or_refuse(codec, indexes, reading, output)
}

/// Encodes the source, a text in UTF-8, by the codec of this number.
///
/// If the source is not UTF-8, nothing is written and `usize::MAX` is returned.
#[unsafe(no_mangle)]
pub extern "C" fn legacy_encode_from_utf8(
    codec: u32,
    indexes: &IndexSlices,
    source: &[u8],
    output: &mut [u8],
    piece: usize,
    times: usize,
    room: &mut [u16],
) -> usize
    ensures bytes { ReturnsBytes (IsUtf8 source.now) codec indexes.now question_mark
        (chars source.now) times (length output.old) (take result output.new) result }
    ensures unchanged { (IsTakenToEncode codec indexes.now × IsUtf8 source.now → ⊥) →
        output.new ≡ output.old }
{
    let reading = Reading::new(Raw, source, piece, times);
    encode_bytes_or_refuse(codec, indexes, reading, output, room)
}

/// Encodes the source, a text in UTF-16, by the codec of this number.
///
/// An unpaired surrogate counts as U+FFFD.
#[unsafe(no_mangle)]
pub extern "C" fn legacy_encode_from_utf16(
    codec: u32,
    indexes: &IndexSlices,
    source: &[u16],
    output: &mut [u8],
    piece: usize,
    times: usize,
    room: &mut [u16],
) -> usize
    ensures bytes { ReturnsBytes ⊤ codec indexes.now question_mark (unit_scalars source.now)
        times (length output.old) (take result output.new) result }
    ensures unchanged { IsRefusedToEncode codec indexes.now → output.new ≡ output.old }
{
    let reading = Reading::new(Raw, source, piece, times);
    encode_or_refuse(codec, indexes, reading, output, room)
}

/// Decodes the source to UTF-8 by the codec of this number, by calls with replacement.
#[unsafe(no_mangle)]
pub extern "C" fn legacy_decode_replacing_to_utf8(
    codec: u32,
    indexes: &IndexSlices,
    source: &[u8],
    output: &mut [u8],
    piece: usize,
    times: usize,
) -> usize
    ensures text { ReturnsText replacing_calls codec indexes.now Utf8 source.now times (length output.old)
        (take result output.new) result }
    ensures unchanged { IsRefused codec indexes.now → output.new ≡ output.old }
{
    let reading = Reading::new(Replacing, source, piece, times);
    decode_or_refuse(codec, indexes, reading, output)
}

/// Decodes the source to UTF-16 by the codec of this number, by calls with replacement.
#[unsafe(no_mangle)]
pub extern "C" fn legacy_decode_replacing_to_utf16(
    codec: u32,
    indexes: &IndexSlices,
    source: &[u8],
    output: &mut [u16],
    piece: usize,
    times: usize,
) -> usize
    ensures text { ReturnsText replacing_calls codec indexes.now Utf16 source.now times (length output.old)
        (take result output.new) result }
    ensures unchanged { IsRefused codec indexes.now → output.new ≡ output.old }
{
    let reading = Reading::new(Replacing, source, piece, times);
    decode_or_refuse(codec, indexes, reading, output)
}

/// Encodes the source, a text in UTF-8, by the codec of this number, by calls with replacement.
///
/// If the source is not UTF-8, nothing is written and `usize::MAX` is returned.
#[unsafe(no_mangle)]
pub extern "C" fn legacy_encode_replacing_from_utf8(
    codec: u32,
    indexes: &IndexSlices,
    source: &[u8],
    output: &mut [u8],
    piece: usize,
    times: usize,
    room: &mut [u16],
) -> usize
    ensures bytes { ReturnsBytes (IsUtf8 source.now) codec indexes.now numeric_reference
        (chars source.now) times (length output.old) (take result output.new) result }
    ensures unchanged { (IsTakenToEncode codec indexes.now × IsUtf8 source.now → ⊥) →
        output.new ≡ output.old }
{
    let reading = Reading::new(Replacing, source, piece, times);
    encode_bytes_or_refuse(codec, indexes, reading, output, room)
}

/// Encodes the source, a text in UTF-16, by the codec of this number, by calls with replacement.
///
/// An unpaired surrogate counts as U+FFFD.
#[unsafe(no_mangle)]
pub extern "C" fn legacy_encode_replacing_from_utf16(
    codec: u32,
    indexes: &IndexSlices,
    source: &[u16],
    output: &mut [u8],
    piece: usize,
    times: usize,
    room: &mut [u16],
) -> usize
    ensures bytes { ReturnsBytes ⊤ codec indexes.now numeric_reference
        (unit_scalars source.now) times (length output.old) (take result output.new) result }
    ensures unchanged { IsRefusedToEncode codec indexes.now → output.new ≡ output.old }
{
    let reading = Reading::new(Replacing, source, piece, times);
    encode_or_refuse(codec, indexes, reading, output, room)
}
