//! A decoder that continues from held-back bytes.
ghost use Rattle.std.specs.Prelude.{◌≡◌, true, false, IfNone, IfSome};
ghost use Rattle.legacy_base.specs.States.{may_hold, state_of};
ghost use Rattle.legacy_decoder_engine.specs.LeadCodecs.{lead_state};

use super::{LeadCodec, LeadDecoder};
use legacy_base::Tables;

impl<'a, C: LeadCodec> LeadDecoder<'a, C> {
    /// Returns a decoder that holds back these bytes.
    ///
    /// The result is `None` exactly if no decoder of the codec may hold them back.
    pub fn resume(tables: &'a Tables<'a>, held: &[u8]) -> Option<LeadDecoder<'a, C>>
        ensures state { IfSome result (λ d. lead_state C.grammar C.byte_of d.tables.now d.held
            ≡ state_of (C.grammar tables.now.flat) held.now) }
        ensures none { IfNone result (may_hold (C.grammar tables.now.flat) held.now ≡ false) }
        ensures taken { IfSome result (λ _. may_hold (C.grammar tables.now.flat) held.now ≡ true) }
    {
        let lead = match held {
            [] => None,
            [byte] => Some(C::read_first(*byte).1?),
            _ => return None,
        };
        let mut decoder = LeadDecoder::new(tables);
        decoder.held = lead;
        Some(decoder)
    }
}
