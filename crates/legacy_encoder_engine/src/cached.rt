//! Encoders that read pairs from a list of all scalars below U+10000, in memory that the caller
//! lends.
ghost use Rattle.std.specs.Prelude.{◌≡◌, ◌<◌, ◌≤◌, [], ◌∷◌, length, Some, IfSome, MatchOption};
ghost use Rattle.legacy_base.specs.Encoders.{encoder_profile, new_encoder};
ghost use Rattle.legacy_encoder_engine.specs.CachedPairs.{AreAllPairsOf, IsNoPair};
ghost use Rattle.legacy_encoder_engine.specs.{Guesses.IsGuess, Moves.IsCode};

use crate::drive::drive_encoder;
use crate::moves::EncoderMove;
use crate::pair_encoder::{FillsPairs, PairEncoder};
use crate::plain_codes::PlainCodes;
use legacy_base::{EncoderStep, RawEncoder, Source};
use legacy_tables::RangePart;
use std::alloc::AllocError;

/// The length of the list of a codec's pairs in 16-bit entries: one for each scalar below U+10000.
pub const PAIR_ROOM: usize = 0x1_0000;

/// An encoder whose codes past ASCII are mostly pairs, so that a list of them is worth its memory.
pub trait EncodesPairs: PlainCodes + RawEncoder + Sized {
    /// Returns the four bytes of a scalar that has no lead and trail.
    ///
    /// The result may be `None` for any scalar: `code_of` has all codes. `guess` may change.
    #[inline(always)]
    fn four_past_pairs(&self, guess: &mut RangePart, c: char) -> Option<(u8, u8, u8, u8)>
        requires past { 0x80 ≤ c }
        requires none { IsNoPair (Self.codec self.now) c }
        requires guess { IsGuess (Self.codec self.now) guess.old }
        ensures code { IfSome result (λ four. (encoder_profile (Self.codec self.now)).code c
            ≡ Some (four.0 ∷ four.1 ∷ four.2 ∷ four.3 ∷ [])) }
        ensures guess { IsGuess (Self.codec self.now) guess.new }
    {
        let _ = *guess;
        let _ = c;
        None
    }

    /// Returns the bytes of a scalar past ASCII that has no lead and trail, or the scalar itself as unmappable.
    ///
    /// No index of pairs is searched.
    fn code_past_pairs(&self, c: char) -> EncoderMove
        requires past { 0x80 ≤ c }
        requires none { IsNoPair (Self.codec self.now) c }
        ensures { IsCode ((encoder_profile (Self.codec self.now)).code c) c result };

    /// Whether codes that are not in the list, but for those of four bytes, are common.
    ///
    /// It is a hint: any value is right.
    const HAS_UNLISTED: bool;

    /// Fills a list of `PAIR_ROOM` entries, one for each scalar below U+10000: its pair with the lead low, and 0 past ASCII
    /// if it has none.
    fn fill_pairs(&self, pairs: &mut [u16])
        requires { length pairs.old ≡ 65536 }
        ensures { AreAllPairsOf (Self.codec self.now) pairs.new };

    /// The encoder's state is that of a new encoder of its codec.
    ghost same: { (encoder : Self) → Self.state encoder ≡ new_encoder (Self.codec encoder) };
}

impl<'a, C: FillsPairs> EncodesPairs for PairEncoder<'a, C> {
    ghost use Rattle.std.proofs.Common.{refl};

    ghost same = { λ e. refl };

    #[inline(always)]
    fn code_past_pairs(&self, c: char) -> EncoderMove {
        C::code_past_pairs(c)
    }

    const HAS_UNLISTED: bool = C::GOES_PAST_PAIRS;

    #[inline]
    fn fill_pairs(&self, pairs: &mut [u16]) {
        C::fill(self, pairs)
    }
}

/// An encoder that writes what another encoder writes, and reads each pair from a list.
///
/// The list has the pairs of all scalars below U+10000, in memory that the caller lends. `new` makes
/// it in one walk over the codec's index, flat or packed. Each pair is then one load, whatever
/// tables the other encoder has. The encoder has no modes: it can encode any number of texts, one
/// after another.
#[derive(Drop)]
pub struct CachedEncoder<'a, E: EncodesPairs> {
    encoder: &'a E,
    pairs: &'a [u16],
    ghost right: { AreAllPairsOf (E.codec encoder.now) pairs.now },
}

impl<'a, E: EncodesPairs> CachedEncoder<'a, E> {
    /// Returns an encoder that writes what `encoder` writes.
    ///
    /// The result is `None` exactly if `room` is shorter than `PAIR_ROOM` entries. The entries of
    /// `room` may have any values before, and are overwritten.
    pub fn new(encoder: &'a E, room: &'a mut [u16]) -> Option<CachedEncoder<'a, E>>
        ensures { MatchOption result (length room.old < 65536)
            (λ cached. (65536 ≤ length room.old)
            × (new_encoder (E.codec cached.encoder.now) ≡ E.state encoder.now)) }
    {
        if room.len() < PAIR_ROOM {
            return None;
        }
        let pairs = &mut room[..PAIR_ROOM];
        encoder.fill_pairs(pairs);
        Some(CachedEncoder { encoder, pairs })
    }
}

impl<'a, E: EncodesPairs> Copy for CachedEncoder<'a, E> {}

impl<'a, E: EncodesPairs> Clone for CachedEncoder<'a, E> {
    ghost use Rattle.std.specs.Prelude.{⊤};

    ghost is_clone = { λ x y. y ≡ x };

    ghost is_infallible = { λ _. ⊤ };

    fn clone(&self) -> Result<CachedEncoder<'a, E>, AllocError> {
        Ok(*self)
    }
}

impl<'a, E: EncodesPairs> PlainCodes for CachedEncoder<'a, E> {
    ghost codec = { λ e. E.codec e.encoder.now };

    ghost past = { E.past };

    ghost plain = { λ e. E.plain e.encoder.now };

    #[inline(always)]
    fn past_need(&self) -> usize {
        self.encoder.past_need()
    }

    #[inline(always)]
    fn code_of(&self, c: char) -> EncoderMove {
        let scalar = c as usize;
        if scalar < 0x80 || scalar >= PAIR_ROOM {
            return self.encoder.code_of(c);
        }
        let entry = self.pairs[scalar];
        if entry == 0 {
            return self.encoder.code_past_pairs(c);
        }
        EncoderMove::Two((entry % 256) as u8, (entry / 256) as u8)
    }

    #[inline(always)]
    fn pair_of(&self, c: char) -> Option<(u8, u8)> {
        let scalar = c as usize;
        if scalar >= PAIR_ROOM {
            return None;
        }
        let entry = self.pairs[scalar];
        if entry == 0 {
            return None;
        }
        Some(((entry % 256) as u8, (entry / 256) as u8))
    }

    #[inline(always)]
    fn four_of(&self, guess: &mut RangePart, c: char) -> Option<(u8, u8, u8, u8)> {
        let scalar = c as usize;
        if scalar >= PAIR_ROOM || self.pairs[scalar] != 0 {
            return None;
        }
        self.encoder.four_past_pairs(guess, c)
    }

    const GOES_PAST_PAIRS: bool = E::HAS_UNLISTED;

    const GOES_BY_TENS: bool = true;

    #[inline(always)]
    fn unit_code(&self, unit: u16) -> (u16, bool) {
        let entry = self.pairs[usize::from(unit)];
        (entry, entry != 0)
    }
}

impl<'a, E: EncodesPairs> RawEncoder for CachedEncoder<'a, E> {
    ghost state = { λ e. new_encoder (E.codec e.encoder.now) };

    fn step<S: Source>(&mut self, src: &mut S, dst: &mut [u8], last: bool) -> EncoderStep {
        drive_encoder(self, src, dst, last)
    }

    fn max_buffer_length_from_utf16_without_replacement(&self, u16_length: usize) -> Option<usize> {
        self.encoder
            .max_buffer_length_from_utf16_without_replacement(u16_length)
    }

    fn max_buffer_length_from_utf8_without_replacement(&self, byte_length: usize) -> Option<usize> {
        self.encoder
            .max_buffer_length_from_utf8_without_replacement(byte_length)
    }
}
