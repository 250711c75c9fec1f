//! Leads that decoders hold back between two calls.
ghost use Rattle.std.specs.Prelude.{◌≡◌, ◌≤◌, true, false, MatchOption};
ghost use Rattle.legacy_base.specs.States.{is_lead};

/// A lead from 81 to FE.
#[derive(Clone, Copy)]
pub struct Lead {
    pub byte: u8,
    ghost low: { 0x81 ≤ byte },
    ghost high: { byte ≤ 0xFE },
}

impl Lead {
    /// Returns the byte as a lead, or `None` if it is not one.
    #[inline]
    pub fn new(byte: u8) -> Option<Lead>
        ensures { MatchOption result (is_lead byte ≡ false) (λ lead. (lead.byte ≡ byte) × (is_lead byte ≡ true)) }
    {
        if byte < 0x81 || byte > 0xFE {
            return None;
        }
        Some(Lead { byte })
    }
}
