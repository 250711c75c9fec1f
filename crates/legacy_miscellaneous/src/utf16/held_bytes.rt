//! The held-back bytes of the UTF-16 decoders.
ghost use Rattle.std.specs.{Prelude.{◌≡◌, ◌<◌, true, false}, Char.Utf16.{is_high_surrogate, is_low_surrogate}};

/// A code unit from D800 to DBFF.
#[derive(Clone, Copy)]
pub struct HighSurrogate {
    pub unit: u16,
    ghost is_high: { is_high_surrogate unit ≡ true },
}

/// The first byte of a unit.
#[derive(Clone, Copy)]
pub struct OddByte {
    pub byte: u8,
    ghost is_byte: { byte < 0x100 },
}

/// A scalar of one unit.
#[derive(Clone, Copy)]
pub struct UnitScalar {
    pub scalar: char,
    ghost is_unit: { scalar < 0x1_0000 },
    ghost is_not_high: { is_high_surrogate scalar ≡ false },
    ghost is_not_low: { is_low_surrogate scalar ≡ false },
}

/// The held-back bytes.
#[derive(Clone, Copy)]
pub enum Held {
    Nothing,
    Odd(OddByte),
    High(HighSurrogate),
    HighOdd(HighSurrogate, OddByte),
    /// A unit after an unpaired high surrogate. It is written next.
    Pending(UnitScalar),
}
