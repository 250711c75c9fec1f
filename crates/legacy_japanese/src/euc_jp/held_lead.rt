//! A lead that the EUC-JP decoder holds back between two calls.
ghost use Rattle.std.specs.Prelude.{◌≡◌, ◌≤◌, true, false, MatchOption};
ghost use Rattle.legacy_base.specs.States.{is_euc_jp_lead};

/// A lead of EUC-JP: A1 to FE.
#[derive(Clone, Copy)]
pub struct EucJpLead {
    pub byte: u8,
    ghost low: { 0xA1 ≤ byte },
    ghost high: { byte ≤ 0xFE },
}

impl EucJpLead {
    /// Returns the byte as a lead, or `None` if it is not one.
    #[inline]
    pub fn new(byte: u8) -> Option<EucJpLead>
        ensures { MatchOption result (is_euc_jp_lead byte ≡ false) (λ lead. (lead.byte ≡ byte) × (is_euc_jp_lead byte ≡ true)) }
    {
        if byte < 0xA1 || byte > 0xFE {
            return None;
        }
        Some(EucJpLead { byte })
    }
}
