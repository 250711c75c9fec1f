//! A lead that the Shift_JIS decoder holds back between two calls.
ghost use Rattle.std.specs.Prelude.{◌≡◌, true, false, MatchOption};
ghost use Rattle.legacy_base.specs.ShiftJis.{is_shift_jis_lead};

/// A lead of Shift_JIS: 81 to 9F, or E0 to FC.
#[derive(Clone, Copy)]
pub struct ShiftJisLead {
    pub byte: u8,
    ghost lead: { is_shift_jis_lead byte ≡ true },
}

impl ShiftJisLead {
    /// Returns the byte as a lead, or `None` if it is not one.
    #[inline]
    pub fn new(byte: u8) -> Option<ShiftJisLead>
        ensures { MatchOption result (is_shift_jis_lead byte ≡ false)
            (λ lead. (lead.byte ≡ byte) × (is_shift_jis_lead byte ≡ true)) }
    {
        if byte < 0x81 || byte > 0xFC || (byte > 0x9F && byte < 0xE0) {
            return None;
        }
        Some(ShiftJisLead { byte })
    }
}
