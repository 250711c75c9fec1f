//! A cursor over bytes.
ghost use Rattle.std.specs.Prelude.{◌≡◌, ◌+◌, ◌<◌, ◌≤◌, length, drop, slice_get};

use std::marker::Model;

/// A cursor over a slice of bytes.
#[derive(Drop)]
pub struct ByteSource<'a> {
    bytes: &'a [u8],
    place: usize,
}

impl<'a> Model for ByteSource<'a> {
    ghost use Rattle.std.specs.Prelude.{◌≤◌, length, drop};
    ghost use Rattle.legacy_text.specs.Cursor.{Cursor};

    ghost Value = { Cursor };

    ghost view = { λ source. record {
      left = drop source.place source.bytes.now;
      consumed = source.place;
    } };

    ghost invariant = { λ source. source.place ≤ length source.bytes.now };
}

impl<'a> ByteSource<'a> {
    /// Returns a cursor before the first byte of the slice.
    pub fn new(bytes: &'a [u8]) -> ByteSource<'a>
        ensures left { result.left ≡ bytes.now }
        ensures consumed { result.consumed ≡ 0 }
    {
        ByteSource { bytes, place: 0 }
    }

    /// Returns the next byte, or `None` at the end of the slice. The cursor does not move.
    pub fn peek(&self) -> Option<u8>
        ensures { result ≡ slice_get self.now.left 0 }
    {
        self.bytes.get(self.place).copied()
    }

    /// Moves past the next byte. The cursor must not be at the end (`peek` returns `None` there).
    pub fn advance(&mut self)
        requires { 0 < length self.old.left }
        ensures left { self.new.left ≡ drop 1 self.old.left }
        ensures consumed { self.new.consumed ≡ self.old.consumed + 1 }
    {
        self.place += 1;
    }

    /// Returns the number of bytes that the cursor has passed.
    pub fn consumed(&self) -> usize
        ensures { result ≡ self.now.consumed }
    {
        self.place
    }
}
