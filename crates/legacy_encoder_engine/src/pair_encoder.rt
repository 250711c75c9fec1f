//! The encoder of the codecs of ASCII and pairs, whose codes have at most two bytes.
ghost use Rattle.std.specs.Prelude.{◌≡◌, ◌≤◌, [], ◌∷◌, Some, IfSome, length};
ghost use Rattle.legacy_encoder_engine.specs.CachedPairs.{AreAllPairsOf, IsNoPair};
ghost use Rattle.legacy_tables.specs.Indexes.{FlatIndexes};
ghost use Rattle.legacy_base.specs.Encoders.{Codec, encoder_profile, new_encoder};
ghost use Rattle.legacy_encoder_engine.specs.Moves.{IsCode};
ghost use Rattle.legacy_encoder_engine.specs.PairCodecs.{IsPairCodec, pair_encoder_state, pair_plain};

use crate::drive::drive_encoder;
use crate::moves::EncoderMove;
use crate::plain_codes::PlainCodes;
use legacy_base::{EncoderStep, RawEncoder, Source, Tables};
use std::alloc::AllocError;
use std::marker::PhantomData;

/// A codec of ASCII and pairs: the parts in which these codecs differ.
pub trait PairCodec {
    /// The codec, by the flat indexes.
    ghost codec: { FlatIndexes → Codec };

    /// It is such a codec for all indexes.
    ghost pairs: { (flat : FlatIndexes) → IsPairCodec (codec flat) };

    /// Returns the lead and the trail of a scalar past ASCII.
    ///
    /// The result may be `None` for any scalar: `code_of` has all codes.
    fn pair_of(tables: &Tables<'_>, c: char) -> Option<(u8, u8)>
        requires { 0x80 ≤ c }
        ensures { IfSome result (λ pair. (encoder_profile (codec tables.now.flat)).code c
            ≡ Some (pair.0 ∷ pair.1 ∷ [])) };

    /// Whether the fast loop makes the codes of scalars past ASCII without a pair here.
    ///
    /// It does if they are common. It is a hint: any value is right.
    const GOES_PAST_PAIRS: bool = false;

    /// Returns the bytes of a scalar, or the scalar itself as unmappable.
    fn code_of(tables: &Tables<'_>, c: char) -> EncoderMove
        ensures { IsCode ((encoder_profile (codec tables.now.flat)).code c) c result };

    /// Returns the bytes of a scalar past ASCII that has no lead and trail, or the scalar itself as unmappable.
    ///
    /// They are the same in all indexes in which it has none.
    fn code_past_pairs(c: char) -> EncoderMove
        requires { 0x80 ≤ c }
        ensures { (flat : FlatIndexes) → IsNoPair (codec flat) c →
            IsCode ((encoder_profile (codec flat)).code c) c result };
}

/// A codec of ASCII and pairs that can list the codes of all scalars below U+10000.
// `ask_pairs` is generic over the codec, and a method of `PairCodec` cannot call it: hence this
// trait.
pub trait FillsPairs: PairCodec + Sized {
    /// Fills a list of 65,536 entries, as `EncodesPairs::fill_pairs` does.
    fn fill(encoder: &PairEncoder<'_, Self>, entries: &mut [u16])
        requires { length entries.old ≡ 65536 }
        ensures { AreAllPairsOf (Self.codec encoder.now.tables.now.flat) entries.new };
}

/// The encoder of a codec of ASCII and pairs, over tables.
#[derive(Drop)]
pub struct PairEncoder<'a, C: PairCodec> {
    /// The tables in which scalars are looked up.
    pub tables: &'a Tables<'a>,
    codec: PhantomData<C>,
}

impl<'a, C: PairCodec> PairEncoder<'a, C> {
    /// Returns an encoder before its first scalar, which writes by the codec's index of the tables.
    #[inline]
    pub fn new(tables: &'a Tables<'a>) -> PairEncoder<'a, C>
        ensures tables { result.tables.now ≡ tables.now }
        ensures state { pair_encoder_state C.codec result.tables.now ≡ new_encoder
            (C.codec tables.now.flat) }
    {
        PairEncoder {
            tables,
            codec: PhantomData,
        }
    }
}

impl<'a, C: PairCodec> Copy for PairEncoder<'a, C> {}

impl<'a, C: PairCodec> Clone for PairEncoder<'a, C> {
    ghost use Rattle.std.specs.Prelude.{⊤};

    ghost is_clone = { λ x y. y ≡ x };

    ghost is_infallible = { λ _. ⊤ };

    fn clone(&self) -> Result<PairEncoder<'a, C>, AllocError> {
        Ok(*self)
    }
}

impl<'a, C: PairCodec> PlainCodes for PairEncoder<'a, C> {
    ghost codec = { λ e. C.codec e.tables.now.flat };

    ghost past = { 2 };

    ghost plain = { λ e. pair_plain (C.codec e.tables.now.flat)
        (C.pairs e.tables.now.flat) };

    #[inline]
    fn past_need(&self) -> usize {
        2
    }

    #[inline(always)]
    fn code_of(&self, c: char) -> EncoderMove {
        C::code_of(self.tables, c)
    }

    const GOES_PAST_PAIRS: bool = C::GOES_PAST_PAIRS;

    #[inline(always)]
    fn pair_of(&self, c: char) -> Option<(u8, u8)> {
        C::pair_of(self.tables, c)
    }
}

impl<'a, C: PairCodec> RawEncoder for PairEncoder<'a, C> {
    ghost state = { λ e. pair_encoder_state C.codec e.tables.now };

    fn step<S: Source>(&mut self, src: &mut S, dst: &mut [u8], last: bool) -> EncoderStep {
        drive_encoder(self, src, dst, last)
    }

    #[tactic(auto, using(crate::proofs::PairAnswers::from_utf16))]
    fn max_buffer_length_from_utf16_without_replacement(&self, u16_length: usize) -> Option<usize> {
        u16_length.checked_mul(2)
    }

    #[tactic(auto, using(crate::proofs::PairAnswers::from_utf8))]
    fn max_buffer_length_from_utf8_without_replacement(&self, byte_length: usize) -> Option<usize> {
        byte_length.checked_add(1)
    }
}
