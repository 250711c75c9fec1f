//! The codes that an encoder reads ahead of its moves.
ghost use Rattle.std.specs.Prelude.{◌≡◌, ℕ, ◌+◌, ◌≤◌, true, length, take, MatchOption};
ghost use Rattle.legacy_base.specs.Encoders.{EncoderState, encoder_profile, scalar_need};
ghost use Rattle.legacy_encoder_engine.specs.Guesses.{IsGuess};
ghost use Rattle.legacy_encoder_engine.specs.ProfileSuffices.{Serves};
ghost use Rattle.legacy_encoder_engine.specs.UnfinishedCall.{EncodesBy, PutsCode};
ghost use Rattle.legacy_encoder_engine.specs.WrittenUnits.{ReadsUnit};

use legacy_tables::RangePart;
use legacy_text::TextCursor;

/// The codes of common scalars in one state of an encoder, which they leave unchanged.
///
/// `read_common` reads scalars by them, and leaves all others to the moves.
pub trait AheadCodes {
    /// The codec with its lists, and the mode of the encoder.
    ghost state: { Self → EncoderState };

    /// The number of free bytes that is enough for each scalar.
    ghost need: { ℕ };

    /// Returns the number of free bytes that is enough for each scalar.
    fn widest(&self) -> usize
        ensures is { result ≡ need }
        ensures fits { (c : ℕ) → scalar_need (state self.now) c ≤ need }
        ensures serves { Serves (encoder_profile (state self.now).codec) };

    /// Writes the bytes of the next scalar, and returns the place after them.
    ///
    /// The result is `None` if the scalar is left to the moves. `guess` may change.
    fn put_code(&self, guess: &mut RangePart, dst: &mut [u8], at: usize, c: char) -> Option<usize>
        requires room { at + need ≤ length dst.old }
        requires guess { IsGuess (state self.now).codec guess.old }
        ensures puts { MatchOption result (take at dst.new ≡ take at dst.old)
            (λ end. PutsCode (state self.now) c (take at dst.old) at (take end dst.new) end) }
        ensures guess { IsGuess (state self.now).codec guess.new };

    /// Does what `put_code` does, for a scalar past ASCII.
    #[inline(always)]
    fn put_past_ascii(
        &self,
        guess: &mut RangePart,
        dst: &mut [u8],
        at: usize,
        c: char,
    ) -> Option<usize>
        requires room { at + need ≤ length dst.old }
        requires past { 0x80 ≤ c }
        requires guess { IsGuess (state self.now).codec guess.old }
        ensures puts { MatchOption result (take at dst.new ≡ take at dst.old)
            (λ end. PutsCode (state self.now) c (take at dst.old) at (take end dst.new) end) }
        ensures guess { IsGuess (state self.now).codec guess.new }
    {
        self.put_code(guess, dst, at, c)
    }

    /// Reads blocks of scalars with one byte each, and returns the place after their bytes.
    #[inline(always)]
    #[tactic(auto, using(crate::proofs::ReadingAhead::encodes_none))]
    fn read_blocks<S: TextCursor>(&self, src: &mut S, dst: &mut [u8], at: usize) -> usize
        requires { at ≤ length dst.old }
        ensures { EncodesBy S.TextCursor (state self.now) src.old dst.old at src.new dst.new result }
    {
        let _ = (src.is_in_ascii(), dst.len());
        at
    }

    /// Whether blocks may come after single scalars. It is a hint: any value is right.
    const HAS_BLOCKS: bool = false;

    /// Checks whether the text from this scalar on can perhaps be read by blocks.
    ///
    /// It is a hint: any result is right.
    #[inline(always)]
    fn may_go_by_blocks<S: TextCursor>(&self, src: &S, c: char) -> bool {
        let _ = (src.is_in_ascii(), c);
        false
    }

    /// Reads turns of scalars with one byte each, and returns the place after their bytes.
    #[inline(always)]
    #[tactic(auto, using(crate::proofs::ReadingAhead::encodes_none))]
    fn read_turns<S: TextCursor>(&self, src: &mut S, dst: &mut [u8], at: usize) -> usize
        requires { at ≤ length dst.old }
        ensures { EncodesBy S.TextCursor (state self.now) src.old dst.old at src.new dst.new result }
    {
        let _ = (src.is_in_ascii(), dst.len());
        at
    }

    /// Whether turns of ten scalars are tried first. It is a hint: any value is right.
    const BEGINS_BY_TENS: bool = false;

    /// Whether they are tried after a single scalar. It is a hint: any value is right.
    const HAS_TENS: bool = false;

    /// Returns the bytes of a code unit as one number, how many they are, and whether it has them.
    ///
    /// The first byte is the low one. Any code unit may have none, and is then read as a scalar.
    #[inline(always)]
    fn unit_bytes(&self, unit: u16) -> (u16, usize, bool)
        ensures count { (1 ≤ result.1) × (result.1 ≤ 2) }
        ensures code { result.2 ≡ true → ReadsUnit (state self.now) unit result.0 result.1 }
    {
        let _ = unit;
        (0, 1, false)
    }
}
