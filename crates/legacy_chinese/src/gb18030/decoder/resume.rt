//! A decoder that continues from held-back bytes.
ghost use Rattle.std.specs.Prelude.{◌≡◌, true, false, IfNone, IfSome};
ghost use Rattle.legacy_base.specs.{Grammar.gb18030, States.{may_hold, state_of, gb18030_may_hold}};
ghost use Rattle.legacy_chinese.specs.Gb18030Decoder.{gb18030_state, held_bytes};

use super::{Digit, Gb18030Decoder, Held, Lead};
use legacy_base::Tables;

/// Returns these held-back bytes, or `None` if no decoder may hold them back.
fn held_of(bytes: &[u8]) -> Option<Held>
    ensures held { IfSome result (λ held. held_bytes held ≡ bytes.now) }
    ensures none { IfNone result (gb18030_may_hold bytes.now ≡ false) }
    ensures taken { IfSome result (λ _. gb18030_may_hold bytes.now ≡ true) }
{
    match bytes {
        [] => Some(Held::Nothing),
        [first] => match Digit::new(*first) {
            Some(digit) => Some(Held::Digit(digit)),
            None => Some(Held::First(Lead::new(*first)?)),
        },
        [first, second] => match Digit::new(*first) {
            Some(digit) => Some(Held::DigitLead(digit, Lead::new(*second)?)),
            None => Some(Held::Second(Lead::new(*first)?, Digit::new(*second)?)),
        },
        [first, second, third] => Some(Held::Third(
            Lead::new(*first)?,
            Digit::new(*second)?,
            Lead::new(*third)?,
        )),
        _ => None,
    }
}

impl<'a> Gb18030Decoder<'a> {
    /// Returns a decoder that holds back these bytes.
    ///
    /// The result is `None` exactly if no decoder of gb18030 may hold them back.
    pub fn resume(tables: &'a Tables<'a>, held: &[u8]) -> Option<Gb18030Decoder<'a>>
        ensures state { IfSome result (λ d. gb18030_state d
            ≡ state_of (gb18030 tables.now.flat.gb18030 tables.now.flat.ranges) held.now) }
        ensures none { IfNone result (may_hold (gb18030 tables.now.flat.gb18030 tables.now.flat.ranges) held.now ≡ false) }
        ensures taken { IfSome result (λ _. may_hold (gb18030 tables.now.flat.gb18030 tables.now.flat.ranges) held.now ≡ true) }
    {
        let kept = held_of(held)?;
        let mut decoder = Gb18030Decoder::new(tables);
        decoder.held = kept;
        Some(decoder)
    }
}
