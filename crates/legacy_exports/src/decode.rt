//! The decoder of a codec.
ghost use Rattle.std.specs.Prelude.{◌≡◌, ◌≤◌, ◌↔◌, length, map, take, option_map, IfNone, IfSome, IsSome};
ghost use Rattle.legacy_exports.specs.AcceptedIndexes.{range_pair, AreTakenLists, IsRefused, IsTaken};
ghost use Rattle.legacy_coders.specs.Coders.{decoder_of};
ghost use Rattle.legacy_exports.specs.NewCoders.{HoldsOfNew, HoldsOverTables, HoldsByNumber};
ghost use Rattle.legacy_exports.specs.Decoding.{DecodesSource, ReturnsText};
ghost use Rattle.legacy_exports.specs.Repeated.{Repeats, RepeatsFrom};

use crate::calls::DecoderCalls;
use crate::codec::codec_of_number;
use crate::indexes::{IndexSlices, RANGE_LIMIT, range_pairs, single_byte_table, tables_with};
use crate::pieces::{Reading, decode_once};
use crate::unit::CodeUnit;
use legacy_base::{RawDecoder, SingleByteTable, Tables};
use legacy_coders::{AnyDecoder, DecoderTask};
use legacy_index_files::Codec;

impl<C: DecoderCalls<U>, U: CodeUnit> DecoderTask<U> for Reading<C, &[u8]> {
    ghost gives = { λ reading before after old new written. (written ≤ length new)
        × Repeats (DecodesSource C.kind U.form reading.source.now (length old)) before reading.times after
        (U.units (take written new)) };

    // `decode_once` is inlined here, so a decoder's loop is compiled together with its own.
    #[inline(always)]
    fn run<D: RawDecoder>(&self, decoder: &mut D, output: &mut [U]) -> usize {
        let mut written = 0;
        for _time in 0..self.times {
            written = decode_once(decoder, self, output);
        }
        written
    }
}

/// Decodes by the codec's decoder over these tables, and returns the units of the last time.
///
/// Returns `None` if the codec is single-byte and `single_byte` is `None`.
fn decode_over<'a, C: DecoderCalls<U>, U: CodeUnit>(
    codec: Codec,
    tables: &'a Tables<'a>,
    single_byte: Option<&'a SingleByteTable>,
    reading: &Reading<C, &[u8]>,
    output: &mut [U],
) -> Option<usize>
    ensures units { IfSome result (λ written. written ≤ length output.new) }
    ensures text { IfSome result (λ written. HoldsOfNew decoder_of codec tables.now.flat
        (option_map (λ table. table.now.entries) single_byte.entry)
        (RepeatsFrom (DecodesSource C.kind U.form reading.now.source.now (length output.old))
        reading.now.times (U.units (take written output.new)))) }
    ensures unchanged { IfNone result (output.new ≡ output.old) }
    ensures taken { IsSome result ↔ (codec ≡ Codec.SingleByte → IsSome single_byte.entry) }
{
    let decoder = AnyDecoder::new(codec, tables, single_byte)?;
    Some(decoder.lend(reading, output))
}

/// Decodes by the codec's decoder over tables of the indexes, whose ranges are these pairs, and returns
/// the units of the last time.
///
/// Returns `None` if the indexes are refused.
fn decode_over_indexes<C: DecoderCalls<U>, U: CodeUnit>(
    codec: Codec,
    indexes: &IndexSlices,
    ranges: &[(u16, u16)],
    reading: &Reading<C, &[u8]>,
    output: &mut [U],
) -> Option<usize>
    requires { ranges.now ≡ map range_pair indexes.now.ranges.now }
    ensures text { IfSome result (λ written. HoldsOverTables decoder_of codec indexes.now
        (RepeatsFrom (DecodesSource C.kind U.form reading.now.source.now (length output.old))
        reading.now.times (U.units (take written output.new)))) }
    ensures units { IfSome result (λ written. written ≤ length output.new) }
    ensures unchanged { IfNone result (output.new ≡ output.old) }
    ensures taken { IsSome result ↔ AreTakenLists codec indexes.now }
{
    let tables = tables_with(indexes, ranges)?;
    let table = single_byte_table(indexes.single_byte);
    decode_over(codec, &tables, table.as_ref(), reading, output)
}

/// Decodes by the codec of this number, and returns the number of code units written the last time.
///
/// Returns `None` if no codec has the number or the indexes are refused.
fn decode_by_number<C: DecoderCalls<U>, U: CodeUnit>(
    number: u32,
    indexes: &IndexSlices,
    reading: Reading<C, &[u8]>,
    output: &mut [U],
) -> Option<usize>
    ensures units { IfSome result (λ written. written ≤ length output.new) }
    ensures text { IfSome result (λ written. HoldsByNumber decoder_of number indexes.now
        (RepeatsFrom (DecodesSource C.kind U.form reading.entry.source.now (length output.old))
        reading.entry.times (U.units (take written output.new)))) }
    ensures unchanged { IfNone result (output.new ≡ output.old) }
    ensures taken { IsSome result ↔ IsTaken number indexes.now }
{
    let codec = codec_of_number(number)?;
    let range_count = indexes.ranges.len();
    if range_count > RANGE_LIMIT {
        return None;
    }
    let pairs = range_pairs(indexes.ranges);
    decode_over_indexes(codec, indexes, &pairs[..range_count], &reading, output)
}

/// Decodes by the codec of this number, and returns the number of code units written the last time.
///
/// Returns `usize::MAX` if no codec has the number or the indexes are refused.
pub fn decode_or_refuse<C: DecoderCalls<U>, U: CodeUnit>(
    number: u32,
    indexes: &IndexSlices,
    reading: Reading<C, &[u8]>,
    output: &mut [U],
) -> usize
    ensures text { ReturnsText C.kind number indexes.now U.form reading.entry.source.now
        reading.entry.times (length output.old) (U.units (take result output.new)) result }
    ensures unchanged { IsRefused number indexes.now → output.new ≡ output.old }
{
    decode_by_number(number, indexes, reading, output).unwrap_or(usize::MAX)
}
