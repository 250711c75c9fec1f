//! A decoder that continues from a mode and held-back bytes.
ghost use Rattle.std.specs.Prelude.{◌≡◌, ◌∷◌, [], true, false, IfNone, IfSome, MatchOption, Some};
ghost use Rattle.legacy_base.specs.{Grammar.iso_2022_jp, Iso2022Jp.iso_2022_jp_may_hold};
ghost use Rattle.legacy_base.specs.States.{may_hold, state_of, is_escape_start, is_iso_2022_jp_byte, is_whole_escape};
ghost use Rattle.legacy_japanese.specs.{Iso2022JpDecoder.iso_2022_jp_state, Iso2022JpMachine.{bytes_held, escape_bytes, is_held, start_bytes}};

use super::super::bytes::Escape;
use super::{Held, Iso2022JpDecoder, Start};
use legacy_base::{DecoderMode, Tables};

/// Returns the escape of three bytes, or `None` if they are none.
fn escape_of(first: u8, second: u8, third: u8) -> Option<Escape>
    ensures { MatchOption result (is_whole_escape (first ∷ second ∷ third ∷ []) ≡ false)
        (λ e. (is_whole_escape (first ∷ second ∷ third ∷ []) ≡ true)
        × (escape_bytes (Some e) ≡ first ∷ second ∷ third ∷ [])) }
{
    match (first, second, third) {
        (0x1B, 0x28, 0x42) => Some(Escape::ToAscii),
        (0x1B, 0x28, 0x4A) => Some(Escape::ToRoman),
        (0x1B, 0x28, 0x49) => Some(Escape::ToKatakana),
        (0x1B, 0x24, 0x40) => Some(Escape::ToJis1978),
        (0x1B, 0x24, 0x42) => Some(Escape::ToJis1983),
        _ => None,
    }
}

/// Returns the start of an escape of these bytes, or `None` if they are none.
fn start_of(bytes: &[u8]) -> Option<Start>
    ensures { MatchOption result (is_escape_start bytes.now ≡ false)
        (λ s. (is_escape_start bytes.now ≡ true) × (start_bytes s ≡ bytes.now)) }
{
    match bytes {
        [] => Some(Start::Nothing),
        [0x1B] => Some(Start::EscapeByte),
        [0x1B, 0x24] => Some(Start::Dollar),
        [0x1B, 0x28] => Some(Start::Paren),
        _ => None,
    }
}

/// Checks whether a byte may be held back by itself in the mode.
fn is_byte(mode: DecoderMode, byte: u8) -> bool
    ensures { result ≡ is_iso_2022_jp_byte mode byte }
{
    match mode {
        DecoderMode::TwoByte => byte >= 0x21 && byte <= 0x7E,
        _ => byte == 0x24 || byte == 0x28,
    }
}

/// Returns these held-back bytes, or `None` if no decoder in the mode may hold them back.
fn held_of(mode: DecoderMode, bytes: &[u8]) -> Option<Held>
    ensures held { IfSome result (λ held. bytes_held held ≡ bytes.now) }
    ensures sound { IfSome result (λ held. is_held mode held ≡ true) }
    ensures none { IfNone result (iso_2022_jp_may_hold mode bytes.now ≡ false) }
    ensures taken { IfSome result (λ _. iso_2022_jp_may_hold mode bytes.now ≡ true) }
{
    match bytes {
        [byte] if is_byte(mode, *byte) => Some(Held::Byte(*byte)),
        [first, second, third, rest @ ..] => Some(Held::Begun(
            Some(escape_of(*first, *second, *third)?),
            start_of(rest)?,
        )),
        _ => Some(Held::Begun(None, start_of(bytes)?)),
    }
}

impl<'a> Iso2022JpDecoder<'a> {
    /// Returns a decoder that is in the mode and holds back these bytes.
    ///
    /// The result is `None` exactly if no decoder of ISO-2022-JP in the mode may hold them back.
    pub fn resume(
        tables: &'a Tables<'a>,
        mode: DecoderMode,
        held: &[u8],
    ) -> Option<Iso2022JpDecoder<'a>>
        ensures state { IfSome result (λ d. iso_2022_jp_state d
            ≡ state_of (iso_2022_jp tables.now.flat.jis0208 mode) held.now) }
        ensures none { IfNone result (may_hold (iso_2022_jp tables.now.flat.jis0208 mode) held.now ≡ false) }
        ensures taken { IfSome result (λ _. may_hold (iso_2022_jp tables.now.flat.jis0208 mode) held.now ≡ true) }
    {
        let kept = held_of(mode, held)?;
        let mut decoder = Iso2022JpDecoder::new(tables);
        decoder.mode = mode;
        decoder.held = kept;
        Some(decoder)
    }

    /// Returns the decoder's mode.
    #[inline]
    pub fn mode(&self) -> DecoderMode
        ensures { (iso_2022_jp_state self.now).grammar ≡ iso_2022_jp self.now.tables.now.flat.jis0208 result }
    {
        self.mode
    }
}
