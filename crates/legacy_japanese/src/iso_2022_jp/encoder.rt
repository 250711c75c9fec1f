//! The encoder of ISO-2022-JP.
ghost use Rattle.std.specs.{Prelude.{◌≡◌, ◌==◌, ◌||◌, ◌+◌, ◌%◌, ◌<◌, ◌≤◌, [], ◌∷◌, length, Some, None, IfSome}, List.{list_any}};
ghost use Rattle.{legacy_tables.specs.Indexes.{FlatIndexes}, legacy_encoder_engine.specs.UnfinishedCall.{EncodesBy, EncodesFrom}};
ghost use Rattle.legacy_base.specs.{Encoders.{iso_2022_jp, is_pending, new_encoder}, Iso2022Jp.{iso_2022_jp_code, iso_2022_jp_pointer_of, is_mode_control}};
ghost use Rattle.{legacy_base.specs.declared.modes.EncoderMode.TheVariants.Ascii, legacy_japanese.specs.Iso2022JpEncoder.{Asks, HasNoPair, state_in}};

mod resume;

use crate::folded_scalars::minus_as_hyphen;
use legacy_base::{EncoderMode, EncoderStep, IndexName, RawEncoder, Source, Tables};
use legacy_encoder_engine::ahead_codes::AheadCodes;
use legacy_encoder_engine::drive::{drive_encoder, put_move};
use legacy_encoder_engine::moves::{EncoderMove, EncoderMoves};
use legacy_encoder_engine::read_ahead::read_common;
use legacy_tables::{EncoderTables, RangePart};
use legacy_text::TextCursor;

/// The most bytes of ASCII that are copied before they are tested.
///
/// They are few, so little is copied without use, however many controls there are.
const PIECE: usize = 256;

/// How the encoder finds pairs.
pub trait FindsPairs {
    /// The indexes of the pairs.
    ghost flat: { Self → FlatIndexes };

    /// Returns the mode that a scalar needs after this one, and the move that reads it there.
    fn asked(&self, mode: EncoderMode, c: char) -> (EncoderMode, EncoderMove)
        ensures { Asks (flat self.now) mode c result.0 result.1 };

    /// Reads scalars ahead in this mode, as `EncoderMoves::read_ahead` does.
    fn read<S: Source>(&self, mode: EncoderMode, src: &mut S, dst: &mut [u8], at: usize) -> usize
        requires { at ≤ length dst.old }
        ensures { EncodesFrom S.Source (state_in (flat self.now) mode) src.old dst.old at src.new
            dst.new result };
}

/// The encoder of ISO-2022-JP, by one way to find pairs.
#[derive(Clone, Copy)]
pub struct EncoderBy<P> {
    pub(crate) pairs: P,
    pub(crate) mode: EncoderMode,
}

impl<P: FindsPairs> EncoderBy<P> {
    /// Checks whether the end of the text would write an escape, because the mode is not ASCII.
    ///
    /// The escape has three bytes. Nothing changes.
    pub fn has_pending_state(&self) -> bool
        ensures { result ≡ is_pending (state_in (P.flat self.now.pairs) self.now.mode) }
    {
        !matches!(self.mode, EncoderMode::Ascii)
    }
}

impl<P: FindsPairs> EncoderMoves for EncoderBy<P> {
    ghost state = { λ encoder. state_in (P.flat encoder.pairs) encoder.mode };

    #[inline]
    fn need(&self, _c: char) -> usize {
        3
    }

    // If the encoder is not in the mode that the scalar needs, it goes there by an escape.
    #[inline]
    fn next(&mut self, c: char) -> EncoderMove {
        let (mode, own) = self.pairs.asked(self.mode, c);
        if !self.mode.differs(mode) {
            return own;
        }
        self.mode = mode;
        EncoderMove::escape_to(mode)
    }

    #[inline]
    fn is_pending(&self) -> bool {
        self.has_pending_state()
    }

    #[inline]
    fn finish(&mut self) {
        self.mode = EncoderMode::Ascii;
    }

    #[inline]
    fn read_ahead<S: Source>(&self, src: &mut S, dst: &mut [u8], at: usize) -> usize {
        self.pairs.read(self.mode, src, dst, at)
    }
}

impl<P: FindsPairs> RawEncoder for EncoderBy<P> {
    ghost state = { λ encoder. state_in (P.flat encoder.pairs) encoder.mode };

    fn step<S: Source>(&mut self, src: &mut S, dst: &mut [u8], last: bool) -> EncoderStep {
        drive_encoder(self, src, dst, last)
    }

    fn max_buffer_length_from_utf16_without_replacement(&self, u16_length: usize) -> Option<usize> {
        let scalars = 3usize.checked_add(u16_length.checked_mul(4)?)?;
        scalars.checked_add(u16_length / 2 + u16_length % 2)
    }

    #[tactic(auto, using(std::proofs::lemmas::Grind::common_steps))]
    fn max_buffer_length_from_utf8_without_replacement(&self, byte_length: usize) -> Option<usize> {
        3usize.checked_add(byte_length.checked_mul(3)?)
    }
}

/// Checks whether the scalar is a control that would switch modes, which has no bytes.
#[inline]
fn is_control(scalar: u32) -> bool
    ensures { result ≡ is_mode_control scalar }
{
    scalar == 0x0E || scalar == 0x0F || scalar == 0x1B
}

/// Checks whether one of the bytes, whose number is a multiple of sixteen, is such a control.
// There is no branch in a block, so that its sixteen bytes are tested at once.
#[inline(always)]
fn has_control(bytes: &[u8]) -> bool
    requires { length bytes.now % 16 ≡ 0 }
    ensures { result ≡ list_any is_mode_control bytes.now }
{
    let mut found = false;
    let mut at = 0;
    while at < bytes.len() {
        for k in 0..16 {
            found = found | is_control(u32::from(bytes[at + k]));
        }
        at += 16;
    }
    found
}

/// Pairs that are looked up in tables, which are flat or packed.
#[derive(Clone, Copy)]
pub struct TablePairs<'a> {
    pub(crate) tables: &'a Tables<'a>,
}

/// Returns the pointer of a scalar past ASCII, or `None` if it has no pair.
///
/// For half-width katakana it is that of the entry of index katakana, and for the minus sign U+2212 that of U+FF0D.
#[inline]
fn pointer(tables: &Tables<'_>, c: char) -> Option<usize>
    ensures value { result ≡ iso_2022_jp_pointer_of tables.now.flat.jis0208 tables.now.flat.katakana c }
    ensures within { IfSome result (λ p. p < 8836) }
{
    if c > '\u{FFFF}' {
        return None;
    }
    let scalar = c as u32;
    if scalar >= 0xFF61 && scalar <= 0xFF9F {
        let entry = tables.idx(IndexName::Katakana, (scalar - 0xFF61) as usize)?;
        return tables.euc_jp_pointer(entry);
    }
    tables.euc_jp_pointer(minus_as_hyphen(c))
}

/// Returns the lead and the trail of a scalar, or `None` if it has none.
#[inline]
#[tactic(auto, using(crate::proofs::Iso2022JpEncoderMoves::asked_steps))]
pub(crate) fn pair_of(tables: &Tables<'_>, c: char) -> Option<(u8, u8)>
    ensures some { IfSome result (λ pair. iso_2022_jp_code tables.now.flat.jis0208 tables.now.flat.katakana c
        ≡ Some (pair.0 ∷ pair.1 ∷ [])) }
    ensures none { result ≡ None → HasNoPair tables.now.flat c }
{
    if matches!(c, '\0'..='\u{7F}' | '\u{A5}' | '\u{203E}') {
        return None;
    }
    let p = pointer(tables, c)?;
    Some(((p / 94 + 0x21) as u8, (p % 94 + 0x21) as u8))
}

/// Returns the mode that a scalar without a lead and a trail needs after this one, and the move that reads it there.
#[inline]
#[tactic(auto, using(crate::proofs::Iso2022JpEncoderMoves::asked_steps))]
pub(crate) fn asked_past_pairs(mode: EncoderMode, c: char) -> (EncoderMode, EncoderMove)
    ensures { (flat : FlatIndexes) → HasNoPair flat c → Asks flat mode c result.0 result.1 }
{
    let scalar = c as u32;
    // The mode after a scalar that is in both ASCII and Roman mode, or has no bytes.
    let settled = if let EncoderMode::Roman = mode {
        mode
    } else {
        EncoderMode::Ascii
    };
    match scalar {
        _ if is_control(scalar) => (settled, EncoderMove::Unmappable('\u{FFFD}')),
        // In Roman mode these two bytes are other scalars.
        0x5C | 0x7E => (EncoderMode::Ascii, EncoderMove::One(c as u8)),
        0..0x80 => (settled, EncoderMove::One(c as u8)),
        0xA5 => (EncoderMode::Roman, EncoderMove::One(0x5C)),
        0x203E => (EncoderMode::Roman, EncoderMove::One(0x7E)),
        _ => (settled, EncoderMove::Unmappable(c)),
    }
}

impl FindsPairs for TablePairs<'_> {
    ghost flat = { λ pairs. pairs.tables.now.flat };

    #[inline]
    #[tactic(auto, using(crate::proofs::Iso2022JpEncoderMoves::asks_pair))]
    fn asked(&self, mode: EncoderMode, c: char) -> (EncoderMode, EncoderMove) {
        match pair_of(self.tables, c) {
            Some((lead, trail)) => (EncoderMode::TwoByte, EncoderMove::Two(lead, trail)),
            None => asked_past_pairs(mode, c),
        }
    }

    // The mode is known in each of the two loops.
    #[inline]
    fn read<S: Source>(&self, mode: EncoderMode, src: &mut S, dst: &mut [u8], at: usize) -> usize {
        let pairs = *self;
        if let EncoderMode::Ascii = mode {
            let mode = EncoderMode::Ascii;
            return read_common(&EncoderBy { pairs, mode }, src, dst, at);
        }
        read_common(&EncoderBy { pairs, mode }, src, dst, at)
    }
}

/// The encoder of ISO-2022-JP (Encoding Standard, "ISO-2022-JP encoder").
///
/// An escape of three bytes switches between ASCII, JIS X 0201 Roman and the pairs of JIS X 0208.
/// The mode is kept between calls, and the end of the last call returns to ASCII mode. `OutputFull`
/// may come between an escape and its scalar, which is then unread. A scalar without bytes is
/// reported in ASCII or Roman mode. In two-byte mode an escape to ASCII comes before the report.
///
/// ASCII is itself. U+00A5 is 5C and U+203E is 7E, in Roman mode. Another scalar of index jis0208 is
/// the lead and the trail of its first pointer below 8836. The minus sign U+2212 is encoded as
/// U+FF0D, and half-width katakana as their entries in index katakana. All other scalars are
/// unmappable. U+000E, U+000F and U+001B are unmappable too, and are reported as U+FFFD.
pub type Iso2022JpEncoder<'a> = EncoderBy<TablePairs<'a>>;

impl<'a> EncoderBy<TablePairs<'a>> {
    /// Returns an encoder before its first scalar, in ASCII mode.
    pub fn new(tables: &'a Tables<'a>) -> Iso2022JpEncoder<'a>
        ensures { state_in result.pairs.tables.now.flat result.mode
            ≡ new_encoder (iso_2022_jp tables.now.flat.jis0208 tables.now.flat.katakana) }
    {
        EncoderBy {
            pairs: TablePairs { tables },
            mode: EncoderMode::Ascii,
        }
    }

    /// Reads at most `PIECE` scalars of ASCII, and returns the place after them.
    ///
    /// If a control is found among them, it reads nothing.
    // It reads by a copy of the cursor, which is dropped if a control was copied.
    #[inline(always)]
    fn copy_piece<S: TextCursor>(&self, src: &mut S, dst: &mut [u8], start: usize) -> usize
        requires { start + 15 ≤ length dst.old }
        ensures { EncodesBy S.TextCursor (state_in self.now.pairs.tables.now.flat Ascii) src.old
            dst.old start src.new dst.new result }
    {
        let limit = (dst.len() - 15).min(start + PIECE);
        let mut own = *src;
        let end = start + own.copy_ascii(&mut dst[..limit], start);
        let past = start + (end - start + 15) / 16 * 16;
        if has_control(&dst[start..past]) {
            return start;
        }
        *src = own;
        end
    }
}

impl AheadCodes for EncoderBy<TablePairs<'_>> {
    ghost state = { λ encoder. state_in encoder.pairs.tables.now.flat encoder.mode };

    ghost need = { 3 };

    #[inline(always)]
    #[tactic(auto, using(crate::proofs::Iso2022JpEncoderMoves::serves))]
    fn widest(&self) -> usize {
        3
    }

    #[inline(always)]
    #[tactic(auto, using(crate::proofs::Iso2022JpEncoderMoves::put_steps))]
    fn put_code(&self, _part: &mut RangePart, dst: &mut [u8], at: usize, c: char) -> Option<usize> {
        if let EncoderMode::Ascii = self.mode {
            let scalar = c as u32;
            if scalar >= 0x80 || is_control(scalar) {
                return None;
            }
            return Some(put_move(dst, at, EncoderMove::One(scalar as u8)));
        }
        let (mode, own) = self.pairs.asked(self.mode, c);
        if self.mode.differs(mode) || !own.has_bytes() {
            return None;
        }
        Some(put_move(dst, at, own))
    }

    #[inline(always)]
    #[tactic(auto, using(legacy_encoder_engine::proofs::ReadingAhead::turns))]
    fn read_blocks<S: TextCursor>(&self, src: &mut S, dst: &mut [u8], start: usize) -> usize {
        let EncoderMode::Ascii = self.mode else {
            return start;
        };
        let mut at = start;
        while dst.len() - at >= 31 {
            let end = self.copy_piece(src, dst, at);
            if end - at < PIECE {
                return end;
            }
            at = end;
        }
        at
    }
}
