//! Encoders of an encoding that is chosen when the program runs, with a list of its pairs.
ghost use Rattle.std.specs.Prelude.{◌≡◌, ◌<◌, ◌≤◌, ◌⊎◌, length, false, true, MatchOption};
ghost use Rattle.std.specs.Prelude.{◌+◌, take};
ghost use Rattle.legacy_text.specs.EncodingForm.{total_unit_count};
ghost use Rattle.legacy_base.specs.Encoders.{new_encoder, encoder_answer};
ghost use Rattle.legacy_base.specs.EncoderCalls.{EncoderCall};
ghost use Rattle.legacy_coders.specs.Lists.{has_pairs};
ghost use Rattle.legacy_coders.specs.Queries.{encoding_form};

use crate::coders::AnyEncoder;
use crate::queries::{TextForm, answer_of};
use crate::tasks::EncoderTask;
use legacy_base::{EncoderResult, RawEncoder, Source, Tables};
use legacy_chinese::{Big5Encoder, Gb18030Encoder};
use legacy_encoder_engine::cached::{CachedEncoder, PAIR_ROOM};
use legacy_encoder_engine::pair_encoder::{FillsPairs, PairEncoder};
use legacy_japanese::{CachedIso2022JpEncoder, EucJpEncoder, ShiftJisEncoder};
use legacy_korean::EucKrEncoder;

/// An encoder of any encoding of pairs, with a list of its pairs in memory that the caller lends.
#[derive(Drop)]
pub enum ListedEncoder<'a, 'b> {
    /// Of GBK and gb18030.
    Gb18030(CachedEncoder<'b, Gb18030Encoder<'a>>),
    /// Of Big5.
    Big5(CachedEncoder<'b, Big5Encoder<'a>>),
    /// Of EUC-JP.
    EucJp(CachedEncoder<'b, EucJpEncoder<'a>>),
    /// Of ISO-2022-JP.
    Iso2022Jp(CachedIso2022JpEncoder<'a, 'b>),
    /// Of Shift_JIS.
    ShiftJis(CachedEncoder<'b, ShiftJisEncoder<'a>>),
    /// Of EUC-KR.
    EucKr(CachedEncoder<'b, EucKrEncoder<'a>>),
}

/// Evaluates an expression with the encoder that a `ListedEncoder` has, and another with an encoder of ASCII and pairs.
macro_rules! match_listed {
    ($any:expr, $coder:ident => $value:expr, $by_pairs:expr) => {
        match $any {
            ListedEncoder::Gb18030($coder) => $value,
            ListedEncoder::Big5($coder) => $by_pairs,
            ListedEncoder::EucJp($coder) => $by_pairs,
            ListedEncoder::Iso2022Jp($coder) => $value,
            ListedEncoder::ShiftJis($coder) => $by_pairs,
            ListedEncoder::EucKr($coder) => $by_pairs,
        }
    };
}

/// An encoder of ASCII and pairs, with a list of its pairs.
type ListedPairEncoder<'a, 'b, C> = CachedEncoder<'b, PairEncoder<'a, C>>;

// The functions over `ListedPairEncoder` are generic over the codec, so that what these types meet
// is proved once, and not for each of the four codecs.

/// Calls an encoder of ASCII and pairs.
#[inline(always)]
fn step_pairs<C: FillsPairs, S: Source>(
    coder: &mut ListedPairEncoder<'_, '_, C>,
    src: &mut S,
    dst: &mut [u8],
    last: bool,
) -> (EncoderResult, usize)
    ensures call { EncoderCall (new_encoder (C.codec coder.old.encoder.now.tables.now.flat))
        (S.left src.old) last (length dst.old)
        (new_encoder (C.codec coder.new.encoder.now.tables.now.flat)) result.0 (S.left src.new)
        (take result.1 dst.new) }
    ensures written { result.1 ≤ length dst.new }
    ensures passed { S.passed src.new + total_unit_count S.form (S.left src.new)
        ≡ S.passed src.old + total_unit_count S.form (S.left src.old) }
{
    coder.step(src, dst, last)
}

/// Does a task with an encoder of ASCII and pairs.
#[inline(always)]
fn lend_pairs<C: FillsPairs, T: EncoderTask>(
    coder: &mut ListedPairEncoder<'_, '_, C>,
    task: &T,
    output: &mut [u8],
) -> usize
    ensures { T.gives task.now (new_encoder (C.codec coder.old.encoder.now.tables.now.flat))
        (new_encoder (C.codec coder.new.encoder.now.tables.now.flat)) output.old output.new result }
{
    task.run(coder, output)
}

/// Returns the answer of an encoder of ASCII and pairs to a length query.
#[inline(always)]
fn pairs_answer<C: FillsPairs>(
    coder: &ListedPairEncoder<'_, '_, C>,
    form: TextForm,
    units: usize,
) -> Option<usize>
    ensures { result ≡ encoder_answer (encoding_form form)
        (new_encoder (C.codec coder.now.encoder.now.tables.now.flat)) units }
{
    answer_of(coder, form, units)
}

/// Returns an encoder of ASCII and pairs with a list of its pairs in the room.
fn list_pairs<'a, 'b, C: FillsPairs>(
    encoder: &'b PairEncoder<'a, C>,
    room: &'b mut [u16],
) -> ListedPairEncoder<'a, 'b, C>
    requires { 65536 ≤ length room.old }
    ensures { new_encoder (C.codec result.encoder.now.tables.now.flat)
        ≡ new_encoder (C.codec encoder.now.tables.now.flat) }
{
    CachedEncoder::new(encoder, room).unwrap()
}

impl<'a, 'b> RawEncoder for ListedEncoder<'a, 'b> {
    ghost use Rattle.legacy_coders.specs.declared.listed.ListedEncoder.TheVariants.{Gb18030, Big5, EucJp, Iso2022Jp, ShiftJis, EucKr};

    ghost state = { elim [
      | Gb18030 coder ↦ ⟦<CachedEncoder<'static, Gb18030Encoder<'static>> as RawEncoder>⟧.state coder
      | Big5 coder ↦ ⟦<CachedEncoder<'static, Big5Encoder<'static>> as RawEncoder>⟧.state coder
      | EucJp coder ↦ ⟦<CachedEncoder<'static, EucJpEncoder<'static>> as RawEncoder>⟧.state coder
      | Iso2022Jp coder ↦ ⟦<CachedIso2022JpEncoder<'static, 'static> as RawEncoder>⟧.state coder
      | ShiftJis coder ↦ ⟦<CachedEncoder<'static, ShiftJisEncoder<'static>> as RawEncoder>⟧.state coder
      | EucKr coder ↦ ⟦<CachedEncoder<'static, EucKrEncoder<'static>> as RawEncoder>⟧.state coder
    ] };

    fn step<S: Source>(
        &mut self,
        src: &mut S,
        dst: &mut [u8],
        last: bool,
    ) -> (EncoderResult, usize) {
        match_listed!(self, coder => coder.step(src, dst, last), step_pairs(coder, src, dst, last))
    }

    fn max_buffer_length_from_utf16_without_replacement(&self, u16_length: usize) -> Option<usize> {
        self.answer(TextForm::Utf16, u16_length)
    }

    fn max_buffer_length_from_utf8_without_replacement(&self, byte_length: usize) -> Option<usize> {
        self.answer(TextForm::Utf8, byte_length)
    }
}

impl<'a, 'b> ListedEncoder<'a, 'b> {
    /// Returns an encoder that continues from `encoder` and writes what it would write.
    ///
    /// The result is `None` exactly if `room` is shorter than `PAIR_ROOM` entries or the encoding
    /// has no pairs: it is single-byte or x-user-defined. The entries of `room` may have any values
    /// before, and are overwritten.
    pub fn new(encoder: &'b AnyEncoder<'a>, room: &'b mut [u16]) -> Option<ListedEncoder<'a, 'b>>
        ensures { MatchOption result ((length room.old < 65536) ⊎ (has_pairs encoder.now ≡ false))
            (λ listed. (65536 ≤ length room.old) × (has_pairs encoder.now ≡ true)
            × (⟦<ListedEncoder<'static, 'static> as RawEncoder>⟧.state listed
            ≡ ⟦<AnyEncoder<'static> as RawEncoder>⟧.state encoder.now)) }
    {
        if room.len() < PAIR_ROOM {
            return None;
        }
        let listed = match encoder {
            AnyEncoder::Gb18030(coder) => ListedEncoder::Gb18030(list_gb18030(coder, room)),
            AnyEncoder::Big5(coder) => ListedEncoder::Big5(list_pairs(coder, room)),
            AnyEncoder::EucJp(coder) => ListedEncoder::EucJp(list_pairs(coder, room)),
            AnyEncoder::Iso2022Jp(coder) => {
                ListedEncoder::Iso2022Jp(CachedIso2022JpEncoder::new(coder, room)?)
            }
            AnyEncoder::ShiftJis(coder) => ListedEncoder::ShiftJis(list_pairs(coder, room)),
            AnyEncoder::EucKr(coder) => ListedEncoder::EucKr(list_pairs(coder, room)),
            AnyEncoder::SingleByte(_) | AnyEncoder::UserDefined(_) => return None,
        };
        Some(listed)
    }

    /// Does a task with the encoder of the encoding, for whose type the task's code is compiled.
    ///
    /// Returns what the task returns: the number of bytes that it wrote to `output`.
    #[inline(always)]
    pub fn lend<T: EncoderTask>(&mut self, task: &T, output: &mut [u8]) -> usize
        ensures { T.gives task.now (⟦<ListedEncoder<'static, 'static> as RawEncoder>⟧.state self.old)
            (⟦<ListedEncoder<'static, 'static> as RawEncoder>⟧.state self.new) output.old output.new result }
    {
        match_listed!(self, coder => task.run(coder, output), lend_pairs(coder, task, output))
    }

    /// Returns the answer to a length query.
    fn answer(&self, form: TextForm, units: usize) -> Option<usize>
        ensures { result ≡ encoder_answer (encoding_form form)
            (⟦<ListedEncoder<'static, 'static> as RawEncoder>⟧.state self.now) units }
    {
        match_listed!(self, coder => answer_of(coder, form, units), pairs_answer(coder, form, units))
    }
}

/// Returns an encoder of GBK and gb18030 with a list of its pairs in the room.
fn list_gb18030<'a, 'b>(
    encoder: &'b Gb18030Encoder<'a>,
    room: &'b mut [u16],
) -> CachedEncoder<'b, Gb18030Encoder<'a>>
    requires { 65536 ≤ length room.old }
    ensures { ⟦<CachedEncoder<'static, Gb18030Encoder<'static>> as RawEncoder>⟧.state result
        ≡ ⟦<Gb18030Encoder<'static> as RawEncoder>⟧.state encoder.now }
{
    CachedEncoder::new(encoder, room).unwrap()
}

/// Checks whether an encoder is of an encoding of pairs, so that `ListedEncoder` takes it.
pub fn has_pairs(encoder: &AnyEncoder) -> bool
    ensures { result ≡ has_pairs encoder.now }
{
    !matches!(
        encoder,
        AnyEncoder::UserDefined(_) | AnyEncoder::SingleByte(_)
    )
}
