//! UTF-16 code units as a codec without modes writes them.
ghost use Rattle.std.specs.Prelude.{◌≤◌, length};
ghost use Rattle.legacy_base.specs.Encoders.{new_encoder};
ghost use Rattle.legacy_encoder_engine.specs.PlainCodecs.{HasByte};
ghost use Rattle.legacy_encoder_engine.specs.UnfinishedCall.{EncodesBy};

use crate::plain_codes::PlainCodes;
use legacy_text::{TextCursor, UnitCodes};

/// The code units that have one byte each in a codec.
#[derive(Drop)]
pub(crate) struct Units<'a, C> {
    pub encoder: &'a C,
}

impl<C: PlainCodes> UnitCodes for Units<'_, C> {
    ghost gives = { λ units. HasByte (C.codec units.encoder.now) C.past };

    #[inline(always)]
    fn byte_of(&self, unit: u16) -> (u8, bool) {
        self.encoder.byte_of(unit)
    }
}

impl<C: PlainCodes> Units<'_, C> {
    /// Writes the bytes of code units at the front of the source from the place `at` on.
    ///
    /// It may read any number of them. Returns the place after the bytes.
    #[inline(always)]
    pub fn put_bytes<S: TextCursor>(&self, src: &mut S, dst: &mut [u8], at: usize) -> usize
        requires { at ≤ length dst.old }
        ensures { EncodesBy S.TextCursor (new_encoder (C.codec self.now.encoder.now)) src.old
            dst.old at src.new dst.new result }
    {
        at + src.copy_codes(self, dst, at)
    }
}
