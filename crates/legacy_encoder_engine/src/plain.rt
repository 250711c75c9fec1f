//! The encoder of the codecs without modes: each `PlainCodes` makes the moves of its codes.
ghost use Rattle.std.specs.Prelude.{◌≤◌, length};
ghost use Rattle.legacy_base.specs.Encoders.{new_encoder};

use crate::ahead_codes::AheadCodes;
use crate::drive::{put_four, put_move, put_two};
use crate::moves::{EncoderMove, EncoderMoves};
use crate::plain_codes::PlainCodes;
use crate::read_ahead::read_common;
use crate::unit_codes::Units;
use legacy_base::Source;
use legacy_tables::RangePart;
use legacy_text::TextCursor;

impl<C: PlainCodes> EncoderMoves for C {
    ghost state = { λ encoder. new_encoder (C.codec encoder) };

    #[inline]
    #[tactic(auto, using(crate::proofs::PlainServes::plain_steps))]
    fn need(&self, c: char) -> usize {
        if (c as u32) < 0x80 {
            1
        } else {
            self.past_need()
        }
    }

    #[inline]
    fn next(&mut self, c: char) -> EncoderMove {
        self.code_of(c)
    }

    #[inline]
    #[tactic(auto, using(crate::proofs::PlainServes::plain_steps))]
    fn is_pending(&self) -> bool {
        false
    }

    fn finish(&mut self) {}

    // By a copy: through a reference the compiler would load its parts again after each byte that is stored.
    #[inline]
    fn read_ahead<S: Source>(&self, src: &mut S, dst: &mut [u8], at: usize) -> usize {
        let own = *self;
        read_common(&own, src, dst, at)
    }
}

impl<C: PlainCodes> AheadCodes for C {
    ghost state = { λ codes. new_encoder (C.codec codes) };

    ghost need = { C.past };

    #[inline(always)]
    #[tactic(auto, using(crate::proofs::PlainServes::plain_steps))]
    fn widest(&self) -> usize {
        self.past_need()
    }

    #[inline(always)]
    #[tactic(auto, using(crate::proofs::PlainServes::put_steps))]
    fn put_code(&self, guess: &mut RangePart, dst: &mut [u8], at: usize, c: char) -> Option<usize> {
        if (c as u32) < 0x80 {
            return Some(put_move(dst, at, EncoderMove::One(c as u8)));
        }
        self.put_past_ascii(guess, dst, at, c)
    }

    // It writes pairs and four bytes by itself. So it has no call, and its values stay in registers.
    // It makes no move of them, which the compiler would pack into one number and unpack.
    #[inline(always)]
    #[tactic(auto, using(crate::proofs::PlainServes::put_steps))]
    fn put_past_ascii(
        &self,
        guess: &mut RangePart,
        dst: &mut [u8],
        at: usize,
        c: char,
    ) -> Option<usize> {
        if let Some((lead, trail)) = self.pair_of(c) {
            put_two(dst, at, lead, trail);
            return Some(at + 2);
        }
        if let Some(four) = self.four_of(guess, c) {
            put_four(dst, at, four);
            return Some(at + 4);
        }
        if !C::GOES_PAST_PAIRS {
            return None;
        }
        let step = self.code_of(c);
        if !step.has_bytes() {
            return None;
        }
        Some(put_move(dst, at, step))
    }

    // Code units with one byte include ASCII: no pattern would predict a choice between the two.
    #[inline(always)]
    #[tactic(auto, using(crate::proofs::ReadingAhead::encodes_none))]
    fn read_blocks<S: TextCursor>(&self, src: &mut S, dst: &mut [u8], at: usize) -> usize {
        if C::GOES_BY_UNITS && src.has_blocks() {
            return Units { encoder: self }.put_bytes(src, dst, at);
        }
        if !src.is_in_ascii() {
            return at;
        }
        at + src.copy_ascii(dst, at)
    }

    const HAS_BLOCKS: bool = true;

    // The scalar is tested first: its caller makes the same test, and a pair then needs no other.
    #[inline(always)]
    fn may_go_by_blocks<S: TextCursor>(&self, src: &S, c: char) -> bool {
        (C::GOES_BY_UNITS && src.has_blocks()) || ((c as u32) < 0x80 && src.is_in_ascii())
    }

    #[inline(always)]
    #[tactic(auto, using(crate::proofs::ReadingAhead::encodes_none))]
    fn read_turns<S: TextCursor>(&self, src: &mut S, dst: &mut [u8], at: usize) -> usize {
        if C::GOES_BY_UNITS && src.has_turns() {
            return Units { encoder: self }.put_bytes(src, dst, at);
        }
        at
    }

    const HAS_TENS: bool = C::GOES_BY_TENS;

    #[inline(always)]
    #[tactic(auto, using(crate::proofs::PlainServes::unit_steps))]
    fn unit_bytes(&self, unit: u16) -> (u16, usize, bool) {
        let (both, has_code) = self.unit_code(unit);
        (both, if unit < 0x80 { 1 } else { 2 }, has_code)
    }
}
