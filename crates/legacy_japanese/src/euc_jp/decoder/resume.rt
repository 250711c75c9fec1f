//! A decoder that continues from held-back bytes.
ghost use Rattle.std.specs.Prelude.{◌≡◌, true, false, IfNone, IfSome};
ghost use Rattle.legacy_base.specs.{Grammar.euc_jp, States.{may_hold, state_of}};
ghost use Rattle.legacy_japanese.specs.EucJpDecoder.{euc_jp_state};

use super::{EucJpDecoder, EucJpLead, Held};
use legacy_base::Tables;

impl<'a> EucJpDecoder<'a> {
    /// Returns a decoder that holds back these bytes.
    ///
    /// The result is `None` exactly if no decoder of EUC-JP may hold them back.
    pub fn resume(tables: &'a Tables<'a>, held: &[u8]) -> Option<EucJpDecoder<'a>>
        ensures state { IfSome result (λ d. euc_jp_state d
            ≡ state_of (euc_jp tables.now.flat.jis0208 tables.now.flat.jis0212) held.now) }
        ensures none { IfNone result (may_hold (euc_jp tables.now.flat.jis0208 tables.now.flat.jis0212) held.now ≡ false) }
        ensures taken { IfSome result (λ _. may_hold (euc_jp tables.now.flat.jis0208 tables.now.flat.jis0212) held.now ≡ true) }
    {
        let kept = match held {
            [] => Held::Nothing,
            [0x8E] => Held::Katakana,
            [0x8F] => Held::Jis0212,
            [byte] => Held::Lead(EucJpLead::new(*byte)?),
            [0x8F, byte] => Held::Jis0212Lead(EucJpLead::new(*byte)?),
            _ => return None,
        };
        let mut decoder = EucJpDecoder::new(tables);
        decoder.held = kept;
        Some(decoder)
    }
}
