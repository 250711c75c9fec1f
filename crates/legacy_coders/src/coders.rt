//! Coders of an encoding that is chosen when the program runs.
ghost use Rattle.std.specs.Prelude.{◌≡◌};
ghost use Rattle.std.specs.Option.{option_map};
ghost use Rattle.legacy_base.specs.States.{DecoderState};
ghost use Rattle.legacy_base.specs.Encoders.{new_encoder};
ghost use Rattle.legacy_coders.specs.Coders.{decoder_of, encoder_of};

use crate::tasks::{DecoderTask, EncoderTask};
use legacy_base::{
    DecoderResult, Destination, EncoderResult, RawDecoder, RawEncoder, SingleByteTable, Source,
    Tables,
};
use legacy_chinese::{Big5Decoder, Big5Encoder, Gb18030Decoder, Gb18030Encoder};
use legacy_encoder_engine::pair_encoder::{PairCodec, PairEncoder};
use legacy_index_files::Codec;
use legacy_japanese::{
    EucJpDecoder, EucJpEncoder, Iso2022JpDecoder, Iso2022JpEncoder, ShiftJisDecoder,
    ShiftJisEncoder,
};
use legacy_korean::{EucKrDecoder, EucKrEncoder};
use legacy_miscellaneous::{
    ReplacementDecoder, UserDefinedDecoder, UserDefinedEncoder, Utf16Decoder,
};
use legacy_single_byte::{SingleByteDecoder, SingleByteEncoder};

/// A decoder of any encoding.
///
/// It implements `Drop`, so outside this crate no `match` can move its coder out: match on a
/// reference to it. `Gb18030Decoder` has a `Cell`, so an `AnyDecoder` is not `Sync`.
pub enum AnyDecoder<'a> {
    /// Of a single-byte encoding.
    SingleByte(SingleByteDecoder<'a>),
    /// Of GBK and gb18030.
    Gb18030(Gb18030Decoder<'a>),
    /// Of Big5.
    Big5(Big5Decoder<'a>),
    /// Of EUC-JP.
    EucJp(EucJpDecoder<'a>),
    /// Of ISO-2022-JP.
    Iso2022Jp(Iso2022JpDecoder<'a>),
    /// Of Shift_JIS.
    ShiftJis(ShiftJisDecoder<'a>),
    /// Of EUC-KR.
    EucKr(EucKrDecoder<'a>),
    /// Of replacement.
    Replacement(ReplacementDecoder),
    /// Of UTF-16BE and UTF-16LE.
    Utf16(Utf16Decoder),
    /// Of x-user-defined.
    UserDefined(UserDefinedDecoder),
}

/// Evaluates an expression with the decoder that an `AnyDecoder` has.
macro_rules! match_decoder {
    ($any:expr, $coder:ident => $value:expr) => {
        match $any {
            AnyDecoder::SingleByte($coder) => $value,
            AnyDecoder::Gb18030($coder) => $value,
            AnyDecoder::Big5($coder) => $value,
            AnyDecoder::EucJp($coder) => $value,
            AnyDecoder::Iso2022Jp($coder) => $value,
            AnyDecoder::ShiftJis($coder) => $value,
            AnyDecoder::EucKr($coder) => $value,
            AnyDecoder::Replacement($coder) => $value,
            AnyDecoder::Utf16($coder) => $value,
            AnyDecoder::UserDefined($coder) => $value,
        }
    };
}

// Written out: the prover lets no method move a decoder out of this enum if it derives `Drop`.
impl Drop for AnyDecoder<'_> {
    fn drop(self) {
        match_decoder!(self, coder => drop(coder))
    }
}

impl<'a> RawDecoder for AnyDecoder<'a> {
    ghost use Rattle.legacy_coders.specs.declared.coders.AnyDecoder.TheVariants.{SingleByte, Gb18030, Big5, EucJp, Iso2022Jp, ShiftJis, EucKr, Replacement, Utf16, UserDefined};

    ghost state = { elim [
      | SingleByte coder ↦ ⟦<SingleByteDecoder<'static> as RawDecoder>⟧.state coder
      | Gb18030 coder ↦ ⟦<Gb18030Decoder<'static> as RawDecoder>⟧.state coder
      | Big5 coder ↦ ⟦<Big5Decoder<'static> as RawDecoder>⟧.state coder
      | EucJp coder ↦ ⟦<EucJpDecoder<'static> as RawDecoder>⟧.state coder
      | Iso2022Jp coder ↦ ⟦<Iso2022JpDecoder<'static> as RawDecoder>⟧.state coder
      | ShiftJis coder ↦ ⟦<ShiftJisDecoder<'static> as RawDecoder>⟧.state coder
      | EucKr coder ↦ ⟦<EucKrDecoder<'static> as RawDecoder>⟧.state coder
      | Replacement coder ↦ ⟦<ReplacementDecoder as RawDecoder>⟧.state coder
      | Utf16 coder ↦ ⟦<Utf16Decoder as RawDecoder>⟧.state coder
      | UserDefined coder ↦ ⟦<UserDefinedDecoder as RawDecoder>⟧.state coder
    ] };

    fn step<T: Destination>(
        &mut self,
        src: &[u8],
        dst: &mut T,
        last: bool,
    ) -> (DecoderResult, usize) {
        match_decoder!(self, coder => coder.step(src, dst, last))
    }

    fn malformed_bytes(&self, src: &[u8]) -> usize {
        match self {
            AnyDecoder::Gb18030(coder) => coder.malformed_bytes(src),
            AnyDecoder::Big5(coder) => coder.malformed_bytes(src),
            AnyDecoder::EucJp(coder) => coder.malformed_bytes(src),
            AnyDecoder::ShiftJis(coder) => coder.malformed_bytes(src),
            AnyDecoder::EucKr(coder) => coder.malformed_bytes(src),
            // These do not count them.
            _ => 0,
        }
    }

    fn max_utf16_buffer_length(&self, byte_length: usize) -> Option<usize> {
        match_decoder!(self, coder => coder.max_utf16_buffer_length(byte_length))
    }

    fn max_utf8_buffer_length_without_replacement(&self, byte_length: usize) -> Option<usize> {
        match_decoder!(self, coder => coder.max_utf8_buffer_length_without_replacement(byte_length))
    }

    fn max_utf8_buffer_length(&self, byte_length: usize) -> Option<usize> {
        match_decoder!(self, coder => coder.max_utf8_buffer_length(byte_length))
    }
}

/// An encoder of any encoding that has one.
#[derive(Drop)]
pub enum AnyEncoder<'a> {
    /// Of a single-byte encoding.
    SingleByte(SingleByteEncoder<'a>),
    /// Of GBK and gb18030.
    Gb18030(Gb18030Encoder<'a>),
    /// Of Big5.
    Big5(Big5Encoder<'a>),
    /// Of EUC-JP.
    EucJp(EucJpEncoder<'a>),
    /// Of ISO-2022-JP.
    Iso2022Jp(Iso2022JpEncoder<'a>),
    /// Of Shift_JIS.
    ShiftJis(ShiftJisEncoder<'a>),
    /// Of EUC-KR.
    EucKr(EucKrEncoder<'a>),
    /// Of x-user-defined.
    UserDefined(UserDefinedEncoder),
}

/// Evaluates an expression with the encoder that an `AnyEncoder` has.
macro_rules! match_encoder {
    ($any:expr, $coder:ident => $value:expr) => {
        match $any {
            AnyEncoder::SingleByte($coder) => $value,
            AnyEncoder::Gb18030($coder) => $value,
            AnyEncoder::Big5($coder) => $value,
            AnyEncoder::EucJp($coder) => $value,
            AnyEncoder::Iso2022Jp($coder) => $value,
            AnyEncoder::ShiftJis($coder) => $value,
            AnyEncoder::EucKr($coder) => $value,
            AnyEncoder::UserDefined($coder) => $value,
        }
    };
}

impl<'a> RawEncoder for AnyEncoder<'a> {
    ghost use Rattle.legacy_coders.specs.declared.coders.AnyEncoder.TheVariants.{SingleByte, Gb18030, Big5, EucJp, Iso2022Jp, ShiftJis, EucKr, UserDefined};

    ghost state = { elim [
      | SingleByte coder ↦ ⟦<SingleByteEncoder<'static> as RawEncoder>⟧.state coder
      | Gb18030 coder ↦ ⟦<Gb18030Encoder<'static> as RawEncoder>⟧.state coder
      | Big5 coder ↦ ⟦<Big5Encoder<'static> as RawEncoder>⟧.state coder
      | EucJp coder ↦ ⟦<EucJpEncoder<'static> as RawEncoder>⟧.state coder
      | Iso2022Jp coder ↦ ⟦<Iso2022JpEncoder<'static> as RawEncoder>⟧.state coder
      | ShiftJis coder ↦ ⟦<ShiftJisEncoder<'static> as RawEncoder>⟧.state coder
      | EucKr coder ↦ ⟦<EucKrEncoder<'static> as RawEncoder>⟧.state coder
      | UserDefined coder ↦ ⟦<UserDefinedEncoder as RawEncoder>⟧.state coder
    ] };

    fn step<S: Source>(
        &mut self,
        src: &mut S,
        dst: &mut [u8],
        last: bool,
    ) -> (EncoderResult, usize) {
        match_encoder!(self, coder => coder.step(src, dst, last))
    }

    fn max_buffer_length_from_utf16_without_replacement(&self, u16_length: usize) -> Option<usize> {
        match_encoder!(self, coder => coder.max_buffer_length_from_utf16_without_replacement(u16_length))
    }

    fn max_buffer_length_from_utf8_without_replacement(&self, byte_length: usize) -> Option<usize> {
        match_encoder!(self, coder => coder.max_buffer_length_from_utf8_without_replacement(byte_length))
    }
}

impl<'a> AnyDecoder<'a> {
    ghost use Rattle.std.specs.Prelude.{length};
    ghost use Rattle.legacy_base.specs.States.{is_neutral};

    /// Returns a decoder of the codec before its first byte.
    ///
    /// The result is `None` exactly if the codec is single-byte and `single_byte` is `None`. Other
    /// codecs do not use it.
    pub fn new(
        codec: Codec,
        tables: &'a Tables<'a>,
        single_byte: Option<&'a SingleByteTable>,
    ) -> Option<AnyDecoder<'a>>
        ensures { option_map (λ decoder. ⟦<AnyDecoder<'static> as RawDecoder>⟧.state decoder) result
            ≡ decoder_of codec tables.now.flat (option_map (λ table. table.now.entries) single_byte.entry) }
    {
        let decoder = match codec {
            Codec::SingleByte => {
                let Some(table) = single_byte else {
                    return None;
                };
                AnyDecoder::SingleByte(SingleByteDecoder::new(table))
            }
            Codec::Gbk | Codec::Gb18030 => AnyDecoder::Gb18030(Gb18030Decoder::new(tables)),
            Codec::Big5 => AnyDecoder::Big5(Big5Decoder::new(tables)),
            Codec::EucJp => AnyDecoder::EucJp(EucJpDecoder::new(tables)),
            Codec::Iso2022Jp => AnyDecoder::Iso2022Jp(Iso2022JpDecoder::new(tables)),
            Codec::ShiftJis => AnyDecoder::ShiftJis(ShiftJisDecoder::new(tables)),
            Codec::EucKr => AnyDecoder::EucKr(EucKrDecoder::new(tables)),
            Codec::Replacement => AnyDecoder::Replacement(ReplacementDecoder::new()),
            Codec::Utf16Be => AnyDecoder::Utf16(Utf16Decoder::new(true)),
            Codec::Utf16Le => AnyDecoder::Utf16(Utf16Decoder::new(false)),
            Codec::UserDefined => AnyDecoder::UserDefined(UserDefinedDecoder::new()),
        };
        Some(decoder)
    }

    /// Checks whether the decoder is neutral: it holds nothing back, and in ISO-2022-JP it is in ASCII mode.
    pub fn in_neutral_state(&self) -> bool
        ensures { result ≡ is_neutral (⟦<AnyDecoder<'static> as RawDecoder>⟧.state self.now) }
    {
        match self {
            AnyDecoder::Gb18030(coder) => coder.in_neutral_state(),
            AnyDecoder::Big5(coder) => coder.in_neutral_state(),
            AnyDecoder::EucJp(coder) => coder.in_neutral_state(),
            AnyDecoder::Iso2022Jp(coder) => coder.in_neutral_state(),
            AnyDecoder::ShiftJis(coder) => coder.in_neutral_state(),
            AnyDecoder::EucKr(coder) => coder.in_neutral_state(),
            AnyDecoder::Utf16(coder) => coder.in_neutral_state(),
            // These hold nothing back.
            AnyDecoder::SingleByte(_) | AnyDecoder::Replacement(_) | AnyDecoder::UserDefined(_) =>
                true,
        }
    }

    /// Returns the number of held-back bytes: those that were read and whose meaning is still open.
    pub fn held_count(&self) -> usize
        ensures { result ≡ length (⟦<AnyDecoder<'static> as RawDecoder>⟧.state self.now).held }
    {
        match self {
            AnyDecoder::Gb18030(coder) => coder.held_count(),
            AnyDecoder::Big5(coder) => coder.held_count(),
            AnyDecoder::EucJp(coder) => coder.held_count(),
            AnyDecoder::Iso2022Jp(coder) => coder.held_count(),
            AnyDecoder::ShiftJis(coder) => coder.held_count(),
            AnyDecoder::EucKr(coder) => coder.held_count(),
            AnyDecoder::Utf16(coder) => coder.held_count(),
            // These hold nothing back.
            AnyDecoder::SingleByte(_) | AnyDecoder::Replacement(_) | AnyDecoder::UserDefined(_) =>
                0,
        }
    }

    /// Does a task with the decoder of the encoding, for whose type the task's code is compiled.
    ///
    /// The decoder is used up: outside the enum it can be in registers during the task. Returns
    /// what the task returns: the number of code units that it wrote to `output`.
    #[inline(always)]
    pub fn lend<U, T: DecoderTask<U>>(self, task: &T, output: &mut [U]) -> usize
        ensures { (after : DecoderState)
            × T.gives task.now (⟦<AnyDecoder<'static> as RawDecoder>⟧.state self.entry) after
            output.old output.new result }
    {
        match_decoder!(self, coder => run_with(coder, task, output))
    }
}

/// Does a task with a decoder, which is used up.
#[inline(always)]
fn run_with<U, D: RawDecoder + Drop, T: DecoderTask<U>>(
    mut decoder: D,
    task: &T,
    output: &mut [U],
) -> usize
    ensures { (after : DecoderState) × T.gives task.now (D.state decoder) after output.old
        output.new result }
{
    task.run(&mut decoder, output)
}

/// Returns an encoder of ASCII and pairs before its first scalar.
fn pair_encoder<'a, C: PairCodec>(tables: &'a Tables<'a>) -> PairEncoder<'a, C>
    ensures { new_encoder (C.codec result.tables.now.flat) ≡ new_encoder (C.codec tables.now.flat) }
{
    PairEncoder::new(tables)
}

impl<'a> AnyEncoder<'a> {
    ghost use Rattle.legacy_base.specs.Encoders.{is_pending};

    /// Returns an encoder of the codec before its first scalar.
    ///
    /// The result is `None` exactly if the codec is replacement or UTF-16, which have no encoder,
    /// or is single-byte and `single_byte` is `None`.
    pub fn new(
        codec: Codec,
        tables: &'a Tables<'a>,
        single_byte: Option<&'a SingleByteTable>,
    ) -> Option<AnyEncoder<'a>>
        ensures { option_map (λ encoder. ⟦<AnyEncoder<'static> as RawEncoder>⟧.state encoder) result
            ≡ encoder_of codec tables.now.flat (option_map (λ table. table.now.entries) single_byte.entry) }
    {
        let encoder = match codec {
            Codec::SingleByte => {
                let Some(table) = single_byte else {
                    return None;
                };
                AnyEncoder::SingleByte(SingleByteEncoder::with_longest_run(table))
            }
            Codec::Gbk => AnyEncoder::Gb18030(Gb18030Encoder::new(tables, false)),
            Codec::Gb18030 => AnyEncoder::Gb18030(Gb18030Encoder::new(tables, true)),
            Codec::Big5 => AnyEncoder::Big5(pair_encoder(tables)),
            Codec::EucJp => AnyEncoder::EucJp(pair_encoder(tables)),
            Codec::Iso2022Jp => AnyEncoder::Iso2022Jp(Iso2022JpEncoder::new(tables)),
            Codec::ShiftJis => AnyEncoder::ShiftJis(pair_encoder(tables)),
            Codec::EucKr => AnyEncoder::EucKr(pair_encoder(tables)),
            Codec::UserDefined => AnyEncoder::UserDefined(UserDefinedEncoder::new()),
            Codec::Replacement | Codec::Utf16Be | Codec::Utf16Le => return None,
        };
        Some(encoder)
    }

    /// Checks whether the end of the text writes bytes: the escape back to ASCII of ISO-2022-JP.
    pub fn has_pending_state(&self) -> bool
        ensures { result ≡ is_pending (⟦<AnyEncoder<'static> as RawEncoder>⟧.state self.now) }
    {
        match self {
            AnyEncoder::Iso2022Jp(coder) => coder.has_pending_state(),
            // The others have no modes.
            _ => false,
        }
    }

    /// Does a task with the encoder of the encoding, for whose type the task's code is compiled.
    ///
    /// Returns what the task returns: the number of bytes that it wrote to `output`.
    #[inline(always)]
    pub fn lend<T: EncoderTask>(&mut self, task: &T, output: &mut [u8]) -> usize
        ensures { T.gives task.now (⟦<AnyEncoder<'static> as RawEncoder>⟧.state self.old)
            (⟦<AnyEncoder<'static> as RawEncoder>⟧.state self.new) output.old output.new result }
    {
        match_encoder!(self, coder => task.run(coder, output))
    }
}
