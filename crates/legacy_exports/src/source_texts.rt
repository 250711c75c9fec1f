//! The texts that encoders read.
ghost use Rattle.std.specs.Prelude.{◌≡◌, ◌↔◌, ℕ, ◌-◌, List, [], ◌++◌, length};
ghost use Rattle.std.specs.Prelude.{◌&&◌, nat_lt, slice_index, IsTrue};
ghost use Rattle.std.specs.Char.Utf16.{is_high_surrogate, is_low_surrogate};
ghost use Rattle.std.specs.Str.{chars};
ghost use Rattle.legacy_text.specs.Texts.{unit_scalars};

use crate::pieces::piece_end;

/// A text in UTF-8 or in UTF-16.
pub trait Text: Copy {
    /// The scalars of the text.
    ghost scalars: { Self → List ℕ };

    /// Cuts the text after `piece` code units, or after all of them if `piece` is 0.
    ///
    /// The cut is moved up to the next place between two characters. Returns the two parts, and
    /// whether the second one is empty.
    fn cut(self, piece: usize) -> (Self, Self, bool)
        ensures parts { scalars self ≡ scalars result.0 ++ scalars result.1 }
        ensures some { scalars result.0 ≡ [] → scalars self ≡ [] }
        ensures whole { piece ≡ 0 → scalars result.1 ≡ [] }
        ensures is_over { IsTrue result.2 ↔ (scalars result.1 ≡ []) };
}

impl Text for &str {
    ghost scalars = { λ text. chars text.now };

    fn cut(self, piece: usize) -> (Self, Self, bool) {
        let mut end = piece_end(0, self.len(), piece);
        while !self.is_char_boundary(end) {
            end += 1;
        }
        let later = &self[end..];
        (&self[..end], later, later.is_empty())
    }
}

/// Checks whether the place is inside a pair of surrogates.
fn parts_pair(units: &[u16], place: usize) -> bool
    ensures { result ≡ (nat_lt 0 place && nat_lt place (length units.now)
        && is_high_surrogate (slice_index units.now (place - 1))
        && is_low_surrogate (slice_index units.now place)) }
{
    if place == 0 || place >= units.len() {
        return false;
    }
    (units[place - 1] & 0xFC00) == 0xD800 && (units[place] & 0xFC00) == 0xDC00
}

impl Text for &[u16] {
    ghost scalars = { λ text. unit_scalars text.now };

    fn cut(self, piece: usize) -> (Self, Self, bool) {
        let mut end = piece_end(0, self.len(), piece);
        if parts_pair(self, end) {
            end += 1;
        }
        let later = &self[end..];
        (&self[..end], later, later.is_empty())
    }
}
