//! The encoder of a codec.
ghost use Rattle.std.specs.Prelude.{◌≡◌, ◌≤◌, ◌↔◌, ⊤, IsUtf8, length, map, true, take, option_map, IfNone, IfSome, IsSome};
ghost use Rattle.std.specs.Str.{chars};
ghost use Rattle.legacy_index_files.specs.Encodings.{has_encoder};
ghost use Rattle.legacy_exports.specs.AcceptedIndexes.{range_pair, AreTakenLists, IsRefusedToEncode, IsTakenToEncode};
ghost use Rattle.legacy_coders.specs.Coders.{encoder_of};
ghost use Rattle.legacy_exports.specs.NewCoders.{HoldsOfNew, HoldsOverTables, HoldsByNumber};
ghost use Rattle.legacy_exports.specs.Encoding.{ConvertsText, ReturnsBytes};
ghost use Rattle.legacy_exports.specs.Repeated.{Repeats, RepeatsFrom};

use crate::calls::{CallEnd, EncoderCalls};
use crate::codec::codec_of_number;
use crate::indexes::{IndexSlices, RANGE_LIMIT, range_pairs, single_byte_table, tables_with};
use crate::pieces::Reading;
use crate::source_texts::Text;
use legacy_base::{RawEncoder, SingleByteTable, Tables};
use legacy_coders::{AnyEncoder, EncoderTask, ListedEncoder};
use legacy_index_files::Codec;

/// Encodes the text once, and returns the number of bytes written.
///
/// It stops if the output is full.
#[inline(always)]
fn encode_once<C: EncoderCalls<T>, T: Text, E: RawEncoder>(
    encoder: &mut E,
    reading: &Reading<C, T>,
    output: &mut [u8],
) -> usize
    ensures bytes { ConvertsText C.kind (T.scalars reading.now.source) (length output.old)
        (E.state encoder.old) (E.state encoder.new) (take result output.new) }
    ensures within { result ≤ length output.new }
{
    let mut written = 0;
    let (mut unread, mut later, mut last) = reading.source.cut(reading.piece);
    'pieces: loop {
        let (answer, left, bytes) = reading
            .calls
            .encode(encoder, unread, &mut output[written..], last);
        unread = left;
        written += bytes;
        match answer {
            CallEnd::Read => {
                if last {
                    return written;
                }
                (unread, later, last) = later.cut(reading.piece);
            }
            CallEnd::Full => return written,
            CallEnd::Replaced => {}
        }
    }
}

impl<C: EncoderCalls<T>, T: Text> EncoderTask for Reading<C, T> {
    ghost gives = { λ reading before after old new written. (written ≤ length new)
        × Repeats (ConvertsText C.kind (T.scalars reading.source) (length old)) before reading.times
        after (take written new) };

    // `encode_once` is inlined here, so an encoder's loop is compiled together with its own.
    #[inline(always)]
    fn run<E: RawEncoder>(&self, encoder: &mut E, output: &mut [u8]) -> usize {
        let mut written = 0;
        for _time in 0..self.times {
            written = encode_once(encoder, self, output);
        }
        written
    }
}

/// Encodes by the encoder, and returns the bytes of the last time.
///
/// An encoder of pairs lists them in the room if it is long enough.
#[inline(always)]
fn encode_by<C: EncoderCalls<T>, T: Text>(
    encoder: &mut AnyEncoder,
    reading: &Reading<C, T>,
    output: &mut [u8],
    room: &mut [u16],
) -> usize
    ensures units { result ≤ length output.new }
    ensures bytes { RepeatsFrom (ConvertsText C.kind (T.scalars reading.now.source) (length output.old))
        reading.now.times (take result output.new) (⟦<AnyEncoder<'static> as RawEncoder>⟧.state encoder.old) }
{
    if let Some(mut listed) = ListedEncoder::new(encoder, room) {
        return listed.lend(reading, output);
    }
    encoder.lend(reading, output)
}

/// Encodes by the codec's encoder over these tables, and returns the bytes of the last time.
///
/// Returns `None` if the codec has no encoder, or is single-byte and `single_byte` is `None`.
fn encode_over<'a, C: EncoderCalls<T>, T: Text>(
    codec: Codec,
    tables: &'a Tables<'a>,
    single_byte: Option<&'a SingleByteTable>,
    reading: &Reading<C, T>,
    output: &mut [u8],
    room: &mut [u16],
) -> Option<usize>
    ensures units { IfSome result (λ written. written ≤ length output.new) }
    ensures bytes { IfSome result (λ written. HoldsOfNew encoder_of codec tables.now.flat
        (option_map (λ table. table.now.entries) single_byte.entry)
        (RepeatsFrom (ConvertsText C.kind (T.scalars reading.now.source) (length output.old))
        reading.now.times (take written output.new))) }
    ensures unchanged { IfNone result (output.new ≡ output.old) }
    ensures taken { IsSome result ↔ ((has_encoder codec ≡ true)
        × (codec ≡ Codec.SingleByte → IsSome single_byte.entry)) }
{
    let mut encoder = AnyEncoder::new(codec, tables, single_byte)?;
    Some(encode_by(&mut encoder, reading, output, room))
}

/// Encodes by the codec's encoder over tables of the indexes, whose ranges are these pairs, and returns
/// the bytes of the last time.
///
/// Returns `None` if the codec has no encoder or the indexes are refused.
fn encode_over_indexes<C: EncoderCalls<T>, T: Text>(
    codec: Codec,
    indexes: &IndexSlices,
    ranges: &[(u16, u16)],
    reading: &Reading<C, T>,
    output: &mut [u8],
    room: &mut [u16],
) -> Option<usize>
    requires { ranges.now ≡ map range_pair indexes.now.ranges.now }
    ensures units { IfSome result (λ written. written ≤ length output.new) }
    ensures bytes { IfSome result (λ written. HoldsOverTables encoder_of codec indexes.now
        (RepeatsFrom (ConvertsText C.kind (T.scalars reading.now.source) (length output.old))
        reading.now.times (take written output.new))) }
    ensures unchanged { IfNone result (output.new ≡ output.old) }
    ensures taken { IsSome result ↔ ((has_encoder codec ≡ true) × AreTakenLists codec indexes.now) }
{
    let tables = tables_with(indexes, ranges)?;
    let table = single_byte_table(indexes.single_byte);
    encode_over(codec, &tables, table.as_ref(), reading, output, room)
}

/// Encodes by the codec of this number, and returns the number of bytes written the last time.
///
/// Returns `None` if no codec with an encoder has the number or the indexes are refused. An encoder
/// of pairs lists them in `room` if it is long enough.
fn encode_by_number<C: EncoderCalls<T>, T: Text>(
    number: u32,
    indexes: &IndexSlices,
    reading: Reading<C, T>,
    output: &mut [u8],
    room: &mut [u16],
) -> Option<usize>
    ensures units { IfSome result (λ written. written ≤ length output.new) }
    ensures bytes { IfSome result (λ written. HoldsByNumber encoder_of number indexes.now
        (RepeatsFrom (ConvertsText C.kind (T.scalars reading.source) (length output.old))
        reading.times (take written output.new))) }
    ensures unchanged { IfNone result (output.new ≡ output.old) }
    ensures taken { IsSome result ↔ IsTakenToEncode number indexes.now }
{
    let codec = codec_of_number(number)?;
    let range_count = indexes.ranges.len();
    if range_count > RANGE_LIMIT {
        return None;
    }
    let pairs = range_pairs(indexes.ranges);
    encode_over_indexes(
        codec,
        indexes,
        &pairs[..range_count],
        &reading,
        output,
        room,
    )
}

/// Encodes by the codec of this number, and returns the number of bytes written the last time.
///
/// Returns `usize::MAX` if no codec with an encoder has the number or the indexes are refused.
pub fn encode_or_refuse<C: EncoderCalls<T>, T: Text>(
    number: u32,
    indexes: &IndexSlices,
    reading: Reading<C, T>,
    output: &mut [u8],
    room: &mut [u16],
) -> usize
    ensures bytes { ReturnsBytes ⊤ number indexes.now C.kind (T.scalars reading.source)
        reading.times (length output.old) (take result output.new) result }
    ensures unchanged { IsRefusedToEncode number indexes.now → output.new ≡ output.old }
{
    encode_by_number(number, indexes, reading, output, room).unwrap_or(usize::MAX)
}

/// Encodes a source in UTF-8 as `encode_or_refuse` does, or returns `usize::MAX` if it is malformed.
pub fn encode_bytes_or_refuse<'a, C: EncoderCalls<&'a str>>(
    number: u32,
    indexes: &IndexSlices,
    reading: Reading<C, &'a [u8]>,
    output: &mut [u8],
    room: &mut [u16],
) -> usize
    ensures bytes { ReturnsBytes (IsUtf8 reading.entry.source.now) number indexes.now C.kind
        (chars reading.entry.source.now) reading.entry.times (length output.old)
        (take result output.new) result }
    ensures unchanged { (IsTakenToEncode number indexes.now × IsUtf8 reading.entry.source.now → ⊥) →
        output.new ≡ output.old }
{
    let Ok(text) = std::str::from_utf8(reading.source) else {
        return usize::MAX;
    };
    let reading = Reading::new(reading.calls, text, reading.piece, reading.times);
    encode_or_refuse(number, indexes, reading, output, room)
}
