//! The look-ups of encoders in tables.
ghost use Rattle.std.specs.Prelude.{◌≡◌, ◌<◌};
ghost use Rattle.std.specs.Option.{IfSome};
ghost use Rattle.legacy_tables.specs.Indexes.{gb18030_pua_of};
ghost use Rattle.legacy_tables.specs.Pointers.{big5_pointer_of, index_pointer_of};
ghost use Rattle.legacy_tables.specs.Pointers.{shift_jis_pointer_of, euc_jp_pointer_of};
ghost use Rattle.legacy_tables.specs.Walks.{IsFilled, order_index};

use super::{DecoderTables, Marks, PackedPart};

/// The look-ups of an encoder in tables, flat or packed: pointers of scalars, and the look-ups of a decoder.
pub trait EncoderTables: DecoderTables {
    /// Returns what `Tables::big5_pointer` does.
    fn big5_pointer(&self, scalar: char) -> Option<usize>
        ensures pointer { result ≡ big5_pointer_of (Self.indexes self.now).flat.big5 scalar }
        ensures within { IfSome result (λ p. p < 19782) };

    /// Returns what `Tables::euc_kr_pointer` does.
    fn euc_kr_pointer(&self, scalar: char) -> Option<usize>
        ensures pointer { result ≡ index_pointer_of (Self.indexes self.now).flat.euc_kr scalar }
        ensures within { IfSome result (λ p. p < 23940) };

    /// Returns what `Tables::shift_jis_pointer` does.
    fn shift_jis_pointer(&self, scalar: char) -> Option<usize>
        ensures pointer { result
            ≡ shift_jis_pointer_of (Self.indexes self.now).flat.jis0208 scalar }
        ensures within { IfSome result (λ p. p < 11280) };

    /// Returns what `Tables::euc_jp_pointer` does.
    fn euc_jp_pointer(&self, scalar: char) -> Option<usize>
        ensures pointer { result ≡ euc_jp_pointer_of (Self.indexes self.now).flat.jis0208 scalar }
        ensures within { IfSome result (λ p. p < 8836) };

    /// Returns what `Tables::gb18030_pointer` does.
    fn gb18030_pointer(&self, scalar: char) -> Option<usize>
        ensures pointer { result
            ≡ index_pointer_of (Self.indexes self.now).flat.gb18030 scalar }
        ensures within { IfSome result (λ p. p < 23940) };

    /// Returns what `Tables::gb18030_pua_bytes` does.
    fn gb18030_pua_bytes(&self, scalar: char) -> Option<(u8, u8)>
        ensures { result ≡ gb18030_pua_of (Self.indexes self.now).flat.gb18030_pua scalar };

    /// Returns the private-use rows of GB18030's encoder: a scalar value, a lead and a trail each.
    fn gb18030_rows(&self) -> &[(u16, u8, u8)]
        ensures { result.now ≡ (Self.indexes self.now).flat.gb18030_pua };

    /// Fills a list with an entry for each scalar value, in one walk over the index.
    ///
    /// The entry is the mark of the pointer that the order's codec uses for the scalar value, or 0 if it uses none.
    /// If the part is no order, the entry is the mark of the first pointer in the part's index.
    fn fill<M: Marks>(&self, part: PackedPart, marks: &M, entries: &mut [u16])
        ensures { IsFilled part M.mark (order_index (Self.indexes self.now).flat part) entries.new };
}
