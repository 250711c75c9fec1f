//! The cursors by which the loops of encoders read several scalars at a time.
ghost use Rattle.std.specs.Prelude.{◌≡◌, ℕ, ◌+◌, ◌≤◌, ◌<◌, List, ◌++◌, length, take, drop, slice_index, IsAscii, MatchOption};
ghost use Rattle.legacy_text.specs.EncodingForm.{EncodingForm, unit_count, total_unit_count};
ghost use Rattle.legacy_text.specs.{NextScalars.IsNext, UnitCodes.WritesCodes, UnitTurns.TakesUnits};

use crate::unit_codes::UnitCodes;

/// The next scalar of a text, by the number of its code units.
#[derive(Clone, Copy)]
pub enum Next {
    /// The end of the text.
    End,
    /// A scalar of one code unit.
    One(char),
    /// A scalar of two code units.
    Two(char),
    /// A scalar of three code units.
    Three(char),
    /// A scalar of four code units.
    Four(char),
}

/// A cursor over a text in UTF-8 or UTF-16, by which a loop can skip several scalars at a time.
///
/// Each type has one of the two forms. A `Source` with such a cursor lends it to the encoders'
/// loops (`Source::read_by`), which makes them fast.
pub trait TextCursor: Copy {
    /// The encoding form of the type.
    ghost form: { EncodingForm };

    /// The scalars that are left.
    ghost left: { Self → List ℕ };

    /// The number of code units that were passed.
    ghost passed: { Self → ℕ };

    /// Returns the next scalar, by the number of its code units. The cursor does not move.
    // The number moves the cursor past the scalar before the scalar itself is known.
    fn front(&self) -> Next
        ensures { IsNext form (left self.now) result };

    /// Moves past the next scalar, which has `count` code units, as `front` shows.
    fn pass(&mut self, count: usize)
        requires some { 0 < length (left self.old) }
        requires count { count ≡ unit_count form (slice_index (left self.old) 0) }
        ensures left { left self.new ≡ drop 1 (left self.old) }
        ensures passed { passed self.new ≡ passed self.old + count };

    /// Checks whether ASCII comes next, for some code units. It is a hint: any result is right.
    fn is_in_ascii(&self) -> bool;

    /// Moves past any number of ASCII scalars, and returns the number.
    ///
    /// Writes them as bytes to `dst` from the place `at` on. The bytes of `dst` after them may
    /// change.
    fn copy_ascii(&mut self, dst: &mut [u8], at: usize) -> usize
        requires { at ≤ length dst.old }
        ensures read { result ≤ length (left self.old) }
        ensures left { left self.new ≡ drop result (left self.old) }
        ensures passed { passed self.new ≡ passed self.old + result }
        ensures ascii { IsAscii (take result (left self.old)) }
        ensures fits { at + result ≤ length dst.old }
        ensures bytes { take (at + result) dst.new
            ≡ take at dst.old ++ take result (left self.old) };

    /// Checks whether `copy_codes` can read blocks. It is a hint: any result is right.
    #[inline(always)]
    fn has_blocks(&self) -> bool {
        false
    }

    /// Checks whether `take_ten` can read on after this scalar. It is a hint: any result is right.
    fn has_tens(&self, before: char) -> bool;

    /// Moves past the next ten code units of UTF-16, or ten scalars of UTF-8, and returns them.
    ///
    /// Each is a scalar if none is a surrogate. In UTF-8 a surrogate replaces each scalar of two or
    /// four bytes. With a surrogate among them, only the cursor's place in UTF-16 is still right. The
    /// result may always be `None`, and the cursor then does not move.
    fn take_ten(&mut self) -> Option<[u16; 10]>
        ensures { MatchOption result (self.new ≡ self.old) (λ units. TakesUnits form (left self.old)
            (passed self.old) units (left self.new) (passed self.new)) };

    /// Checks whether a scalar past ASCII comes next and `copy_codes` can read turns of scalars.
    ///
    /// It is a hint: any result is right.
    #[inline(always)]
    fn has_turns(&self) -> bool {
        false
    }

    /// Moves past any number of scalars that have one byte each, and returns the number.
    ///
    /// Writes the bytes to `dst` from the place `at` on. The bytes of `dst` after them may change.
    fn copy_codes<C: UnitCodes>(&mut self, codes: &C, dst: &mut [u8], at: usize) -> usize
        requires { at ≤ length dst.old }
        ensures read { result ≤ length (left self.old) }
        ensures left { left self.new ≡ drop result (left self.old) }
        ensures passed { passed self.new
            ≡ passed self.old + total_unit_count form (take result (left self.old)) }
        ensures fits { at + result ≤ length dst.old }
        ensures writes { WritesCodes (C.gives codes.now) (left self.old) result (take at dst.old)
            (take (at + result) dst.new) };
}

/// A loop that reads any number of scalars from the front of a text, and writes bytes for them.
pub trait ReadingLoop {
    /// The law of the loop over an output of a given length.
    ///
    /// It is about the scalars left and the bytes written before the loop, and both after it.
    ghost keeps: { Self → ℕ → List ℕ → List ℕ → List ℕ → List ℕ → Type 0 };

    /// Reads scalars and writes their bytes from the place `start` of `dst` on.
    ///
    /// Returns the place after them. The bytes of `dst` from there on may change.
    fn read<C: TextCursor>(&self, src: &mut C, dst: &mut [u8], start: usize) -> usize
        requires { start ≤ length dst.old }
        ensures keeps { keeps self.now (length dst.old) (C.left src.old) (take start dst.old)
            (C.left src.new) (take result dst.new) }
        ensures start { start ≤ result }
        ensures end { result ≤ length dst.old }
        ensures passed { C.passed src.new + total_unit_count C.form (C.left src.new)
            ≡ C.passed src.old + total_unit_count C.form (C.left src.old) };

    /// The law holds if the loop reads nothing.
    ghost stays: { (reading : Self) → (free : ℕ) → (left bytes : List ℕ)
        → keeps reading free left bytes left bytes };
}
