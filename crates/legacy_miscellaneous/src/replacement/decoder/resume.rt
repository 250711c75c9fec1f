//! A decoder that continues from whether it has reported its error.
ghost use Rattle.std.specs.Prelude.{◌≡◌, true, false, length, IfNone, IfSome};
ghost use Rattle.legacy_base.specs.{Grammar.replacement, States.{may_hold, state_of}};
ghost use Rattle.legacy_miscellaneous.specs.ReplacementDecoder.{replacement_state};

use super::ReplacementDecoder;

impl ReplacementDecoder {
    /// Returns a decoder that has reported its error or has not, and holds back these bytes.
    ///
    /// The result is `None` exactly if there are any: the decoder holds nothing back.
    pub fn resume(has_reported: bool, held: &[u8]) -> Option<ReplacementDecoder>
        ensures state { IfSome result (λ d. replacement_state d ≡ state_of (replacement has_reported) held.now) }
        ensures none { IfNone result (may_hold (replacement has_reported) held.now ≡ false) }
        ensures taken { IfSome result (λ _. may_hold (replacement has_reported) held.now ≡ true) }
    {
        match held {
            [] => Some(ReplacementDecoder { has_reported }),
            _ => None,
        }
    }

    /// Checks whether the decoder has reported its error.
    #[inline]
    pub fn has_reported(&self) -> bool
        ensures { (replacement_state self.now).grammar ≡ replacement result }
    {
        self.has_reported
    }

    /// Returns the number of held-back bytes, which is 0.
    #[inline]
    pub fn held_count(&self) -> usize
        ensures { result ≡ length (replacement_state self.now).held }
    {
        0
    }
}
