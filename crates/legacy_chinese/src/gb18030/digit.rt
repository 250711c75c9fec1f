//! A digit that the gb18030 decoder holds back between two calls.
ghost use Rattle.std.specs.{Prelude.{◌≡◌, ◌≤◌, true, false, MatchOption}, Char.is_ascii_digit};

/// An ASCII digit.
#[derive(Clone, Copy)]
pub struct Digit {
    pub byte: u8,
    ghost low: { 0x30 ≤ byte },
    ghost high: { byte ≤ 0x39 },
}

impl Digit {
    /// Returns the byte as a digit, or `None` if it is not one.
    #[inline]
    pub fn new(byte: u8) -> Option<Digit>
        ensures { MatchOption result (is_ascii_digit byte ≡ false) (λ digit. (digit.byte ≡ byte) × (is_ascii_digit byte ≡ true)) }
    {
        if byte < 0x30 || byte > 0x39 {
            return None;
        }
        Some(Digit { byte })
    }
}
