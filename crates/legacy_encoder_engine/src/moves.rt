//! The small moves of each encoder, and the text that it reads ahead of them.
ghost use Rattle.std.specs.Prelude.{◌≡◌, ◌≤◌, [], ◌∷◌, length, true, false, option_map};
ghost use Rattle.legacy_base.specs.Encoders.{EncoderState, encoder_profile, is_pending, scalar_need};
ghost use Rattle.legacy_base.specs.Iso2022Jp.{escape_to};
ghost use Rattle.legacy_encoder_engine.specs.Moves.{Moves, Finishes, IsCode, is_escape, move_bytes, move_report};
ghost use Rattle.legacy_encoder_engine.specs.ProfileSuffices.{Serves};
ghost use Rattle.legacy_encoder_engine.specs.UnfinishedCall.{EncodesFrom};

use legacy_base::{EncoderMode, Source};

/// The move of an encoder at the next scalar.
#[derive(Clone, Copy)]
pub enum EncoderMove {
    /// It reads the scalar and writes this byte.
    One(u8),
    /// It reads the scalar and writes these two bytes.
    Two(u8, u8),
    /// It reads the scalar and writes these four bytes.
    Four(u8, u8, u8, u8),
    /// It writes an escape of 1B and these two bytes. The scalar is not read.
    Escape(u8, u8),
    /// It reads the scalar, which has no bytes, and reports this one.
    Unmappable(char),
}

impl EncoderMove {
    /// The escape to ASCII mode.
    pub const TO_ASCII: EncoderMove = EncoderMove::Escape(0x28, 0x42);

    /// Returns the escape to a mode.
    #[inline]
    pub fn escape_to(mode: EncoderMode) -> EncoderMove
        ensures escapes { is_escape result ≡ true }
        ensures bytes { move_bytes result ≡ escape_to mode }
    {
        match mode {
            EncoderMode::Ascii => EncoderMove::TO_ASCII,
            EncoderMode::Roman => EncoderMove::Escape(0x28, 0x4A),
            EncoderMode::TwoByte => EncoderMove::Escape(0x24, 0x42),
        }
    }

    /// Checks whether the move reads the scalar and writes bytes for it.
    #[inline(always)]
    pub fn has_bytes(self) -> bool
        ensures { result ≡ true → (is_escape self ≡ false) × (move_report self ≡ []) }
    {
        match self {
            EncoderMove::One(_) | EncoderMove::Two(_, _) | EncoderMove::Four(_, _, _, _) => true,
            EncoderMove::Escape(_, _) | EncoderMove::Unmappable(_) => false,
        }
    }

    /// Returns the move at a scalar with this lead and trail, or at one that is unmappable.
    #[inline(always)]
    pub fn of_pair(pair: Option<(u8, u8)>, c: char) -> EncoderMove
        ensures { IsCode (option_map (λ pair. pair.0 ∷ pair.1 ∷ []) pair) c result }
    {
        match pair {
            Some((lead, trail)) => EncoderMove::Two(lead, trail),
            None => EncoderMove::Unmappable(c),
        }
    }
}

/// The moves of an encoder, of which `drive_encoder` makes its calls.
///
/// They come with what each needs free.
pub trait EncoderMoves {
    /// The codec with its lists, and the mode of the encoder.
    ghost state: { Self → EncoderState };

    /// Returns the number of free bytes that the next move needs if this scalar is next.
    ///
    /// It is enough whatever the move is. Nothing changes.
    fn need(&self, c: char) -> usize
        ensures bytes { result ≡ scalar_need (state self.now) c }
        ensures serves { Serves (encoder_profile (state self.now).codec) };

    /// Makes and returns the next move if this scalar is next.
    fn next(&mut self, c: char) -> EncoderMove
        ensures { Moves (state self.old) c (state self.new) result };

    /// Returns whether the end of the text writes an escape. Nothing changes.
    fn is_pending(&self) -> bool
        ensures is { result ≡ is_pending (state self.now) }
        ensures serves { Serves (encoder_profile (state self.now).codec) };

    /// Returns to ASCII at the end of the text if an escape is to be written.
    fn finish(&mut self)
        ensures { is_pending (state self.old) ≡ true → Finishes (state self.old) (state self.new) };

    /// Reads scalars from the front of the source and writes their bytes from the place `at` on.
    ///
    /// Returns the place after the bytes in `dst`. It may read any number of scalars. The encoder is
    /// unchanged.
    #[inline]
    fn read_ahead<S: Source>(&self, src: &mut S, dst: &mut [u8], at: usize) -> usize
        requires { at ≤ length dst.old }
        ensures { EncodesFrom S.Source (state self.now) src.old dst.old at src.new dst.new result }
    {
        let _ = (src.peek(), dst.len());
        at
    }
}
