//! Texts in UTF-8 and UTF-16, which an encoder reads.
ghost use Rattle.std.specs.Prelude.{◌≡◌, []};

use crate::shared_by_runs::Piece;
use legacy_base::{Source, Utf8Source, Utf16Source};

/// A text in UTF-8 or in UTF-16: a type of pieces for each.
pub(crate) trait Text: Piece {
    /// A cursor over its scalars.
    type Cursor: Source + Drop;

    /// Returns the empty text.
    fn empty() -> Self
        ensures { Self.items result ≡ [] };

    /// Returns a cursor before its first scalar.
    fn cursor(self) -> Self::Cursor
        ensures { Self.Cursor.left result ≡ Self.items self };
}

impl<'a> Text for &'a str {
    type Cursor = Utf8Source<'a>;

    fn empty() -> &'a str {
        ""
    }

    fn cursor(self) -> Utf8Source<'a> {
        Utf8Source::new(self)
    }
}

impl<'a> Text for &'a [u16] {
    type Cursor = Utf16Source<'a>;

    fn empty() -> &'a [u16] {
        &[]
    }

    fn cursor(self) -> Utf16Source<'a> {
        Utf16Source::new(self)
    }
}
