//! A decoder that continues, with nothing held back.
ghost use Rattle.std.specs.Prelude.{◌≡◌, true, false, length, IfNone, IfSome};
ghost use Rattle.legacy_base.specs.{Grammar.user_defined, States.{may_hold, state_of}};
ghost use Rattle.legacy_miscellaneous.specs.UserDefinedDecoder.{user_defined_state};

use super::UserDefinedDecoder;

impl UserDefinedDecoder {
    /// Returns a decoder that holds back these bytes.
    ///
    /// The result is `None` exactly if there are any: the decoder holds nothing back.
    pub fn resume(held: &[u8]) -> Option<UserDefinedDecoder>
        ensures state { IfSome result (λ d. user_defined_state d ≡ state_of user_defined held.now) }
        ensures none { IfNone result (may_hold user_defined held.now ≡ false) }
        ensures taken { IfSome result (λ _. may_hold user_defined held.now ≡ true) }
    {
        match held {
            [] => Some(UserDefinedDecoder::new()),
            _ => None,
        }
    }

    /// Returns the number of held-back bytes, which is 0.
    #[inline]
    pub fn held_count(&self) -> usize
        ensures { result ≡ length (user_defined_state self.now).held }
    {
        0
    }
}
