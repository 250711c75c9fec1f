//! A decoder that continues, with nothing held back.
ghost use Rattle.std.specs.Prelude.{◌≡◌, true, false, length, IfNone, IfSome};
ghost use Rattle.legacy_base.specs.{Grammar.single_byte, States.{may_hold, state_of}};
ghost use Rattle.legacy_single_byte.specs.SingleByteDecoder.{single_byte_state};

use super::SingleByteDecoder;
use legacy_base::SingleByteTable;

impl<'a> SingleByteDecoder<'a> {
    /// Returns a decoder that holds back these bytes.
    ///
    /// The result is `None` exactly if there are any: the decoder holds nothing back.
    pub fn resume(table: &'a SingleByteTable, held: &[u8]) -> Option<SingleByteDecoder<'a>>
        ensures state { IfSome result (λ d. single_byte_state d ≡ state_of (single_byte table.now.entries) held.now) }
        ensures none { IfNone result (may_hold (single_byte table.now.entries) held.now ≡ false) }
        ensures taken { IfSome result (λ _. may_hold (single_byte table.now.entries) held.now ≡ true) }
    {
        match held {
            [] => Some(SingleByteDecoder::new(table)),
            _ => None,
        }
    }

    /// Returns the number of held-back bytes, which is 0.
    #[inline]
    pub fn held_count(&self) -> usize
        ensures { result ≡ length (single_byte_state self.now).held }
    {
        0
    }
}
