//! Scalars that are replaced before the search in index jis0208.
ghost use Rattle.std.specs.Prelude.{◌≡◌, ◌<◌, ◌≤◌, ◌⊎◌, false, true};
ghost use Rattle.legacy_tables.specs.Pointers.{minus_as_hyphen};

/// Returns U+FF0D for the minus sign U+2212, and any other scalar unchanged.
#[inline]
pub fn minus_as_hyphen(c: char) -> char
    ensures { result ≡ minus_as_hyphen c }
{
    let is_minus = c == '\u{2212}';
    if is_minus { '\u{FF0D}' } else { c }
}

/// Returns whether a scalar is one of U+2213 to U+FF60, as most of Japanese text is.
///
/// Each encoding looks up these scalars unchanged in index jis0208.
#[inline(always)]
pub fn is_by_index(c: char) -> bool
    ensures inside { result ≡ true → (0x2213 ≤ c) × (c < 0xFF61) }
    ensures outside { result ≡ false → (c < 0x2213) ⊎ (0xFF61 ≤ c) }
{
    matches!(c, '\u{2213}'..='\u{FF60}')
}
