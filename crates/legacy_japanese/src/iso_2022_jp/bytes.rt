//! What an ISO-2022-JP decoder holds back, and how it reads byte by byte (Encoding Standard, "ISO-2022-JP decoder").
//!
//! `read` gives the mode and the held-back bytes after a byte, and `finish` those at the end of the input.
ghost use Rattle.std.specs.Prelude.{◌≡◌, ◌≤◌, ◌↔◌, IsTrue, None, length, true};
ghost use Rattle.legacy_japanese.specs.Iso2022JpMachine.{start_bytes, bytes_held, is_held, is_resting, weight_of};
ghost use Rattle.legacy_base.specs.declared.modes.DecoderMode.TheVariants.{Ascii};
ghost use Rattle.legacy_japanese.specs.declared.iso_2022_jp.bytes.{Start.TheVariants.Nothing, Held.TheVariants.Begun};
ghost use Rattle.legacy_japanese.specs.Iso2022JpMachine as machine;

use legacy_base::{DecoderMode, IndexName, Tables};
use legacy_decoder_engine::moves::Fed;
use legacy_tables::DecoderTables;

/// The five valid escapes.
#[derive(Clone, Copy)]
pub enum Escape {
    ToAscii,
    ToRoman,
    ToKatakana,
    ToJis1978,
    ToJis1983,
}

/// The part of an escape that was read: nothing, `1B`, `1B 24` or `1B 28`.
#[derive(Clone, Copy)]
pub enum Start {
    Nothing,
    EscapeByte,
    Dollar,
    Paren,
}

/// The held-back bytes.
///
/// They are a byte alone, or the start of an escape, which may follow a whole escape.
/// A byte alone is a lead in two-byte mode. In the other modes it is `24` or `28`, to be read in
/// the mode.
#[derive(Clone, Copy)]
pub enum Held {
    Byte(u8),
    Begun(Option<Escape>, Start),
}

/// The effect of a step, with the mode and the held-back bytes after it.
pub type Outcome = (Fed, DecoderMode, Held);

/// No held-back bytes.
pub const NOTHING: Held = Held::Begun(None, Start::Nothing);

/// The escape byte.
pub const ESCAPE: u8 = 0x1B;
/// The second byte of the escapes to two-byte mode.
pub const DOLLAR: u8 = 0x24;
/// The second byte of the other escapes.
pub const PAREN: u8 = 0x28;

impl Escape {
    /// Returns the mode that the escape switches to.
    #[inline]
    pub fn mode(self) -> DecoderMode
        ensures { result ≡ machine.mode_of self }
    {
        match self {
            Escape::ToAscii => DecoderMode::Ascii,
            Escape::ToRoman => DecoderMode::Roman,
            Escape::ToKatakana => DecoderMode::Katakana,
            Escape::ToJis1978 | Escape::ToJis1983 => DecoderMode::TwoByte,
        }
    }
}

impl Start {
    /// Returns the number of its bytes.
    #[inline]
    fn count(self) -> u8
        ensures value { result ≡ length (start_bytes self) }
        ensures few { result ≤ 2 }
    {
        match self {
            Start::Nothing => 0,
            Start::EscapeByte => 1,
            Start::Dollar | Start::Paren => 2,
        }
    }
}

impl Held {
    /// Returns whether nothing is held back.
    #[inline]
    pub fn is_nothing(self) -> bool
        ensures { IsTrue result ↔ (self ≡ Begun None Nothing) }
    {
        matches!(self, Held::Begun(None, Start::Nothing))
    }

    /// Returns the number of held-back bytes.
    #[inline]
    pub fn count(self) -> u8
        ensures { result ≡ length (bytes_held self) }
    {
        match self {
            Held::Byte(_) => 1,
            Held::Begun(None, start) => start.count(),
            Held::Begun(Some(_), start) => 3 + start.count(),
        }
    }

    /// Returns the number of input bytes that the held-back bytes count as in a length.
    ///
    /// A whole escape counts as one.
    pub fn weight(self) -> usize
        ensures { result ≡ weight_of self }
    {
        match self {
            Held::Byte(_) => 1,
            Held::Begun(None, start) => usize::from(start.count()),
            Held::Begun(Some(_), start) => 1 + usize::from(start.count()),
        }
    }
}

/// Returns the mode of the bytes after a held-back escape, if there is one.
#[inline]
fn mode_after(mode: DecoderMode, escape: Option<Escape>) -> DecoderMode
    ensures { result ≡ machine.mode_after mode escape }
{
    match escape {
        Some(escape) => escape.mode(),
        None => mode,
    }
}

/// Returns the outcome of a malformed sequence of this many bytes.
#[inline]
fn malformed(length: u8, unread: bool, mode: DecoderMode, held: Held) -> Outcome
    ensures { result ≡ machine.malformed length unread mode held }
{
    let back = held.count();
    (
        Fed::MalformedSequence {
            length,
            back,
            unread,
        },
        mode,
        held,
    )
}

/// Returns the scalar of a byte in ASCII mode, or `None`.
///
/// 0E, 0F and the bytes from 80 on have none.
#[inline]
fn ascii_scalar(byte: u8) -> Option<char>
    ensures { result ≡ machine.single Ascii byte }
{
    if byte == 0x0E || byte == 0x0F || byte >= 0x80 {
        None
    } else {
        Some(char::from(byte))
    }
}

/// Returns the scalar of a byte outside two-byte mode, or `None`.
#[inline]
pub fn single_scalar(mode: DecoderMode, byte: u8) -> Option<char>
    ensures { result ≡ machine.single mode byte }
{
    match (mode, byte) {
        (DecoderMode::Roman, 0x5C) => Some('\u{A5}'),
        (DecoderMode::Roman, 0x7E) => Some('\u{203E}'),
        (DecoderMode::Ascii | DecoderMode::Roman, _) => ascii_scalar(byte),
        (DecoderMode::Katakana, 0x21..=0x5F) => char::from_u32(0xFF61 + u32::from(byte - 0x21)),
        _ => None,
    }
}

/// Returns the escape that a byte completes, or `None`.
#[inline]
pub fn completed(start: Start, byte: u8) -> Option<Escape>
    ensures { result ≡ machine.completes start byte }
{
    match (start, byte) {
        (Start::Dollar, 0x40) => Some(Escape::ToJis1978),
        (Start::Dollar, 0x42) => Some(Escape::ToJis1983),
        (Start::Paren, 0x42) => Some(Escape::ToAscii),
        (Start::Paren, 0x4A) => Some(Escape::ToRoman),
        (Start::Paren, 0x49) => Some(Escape::ToKatakana),
        _ => None,
    }
}

/// Reads a byte that is not the escape byte, with nothing held back.
#[inline]
fn read_in_mode(mode: DecoderMode, byte: u8) -> Outcome
    ensures { result ≡ machine.read_in_mode mode byte }
{
    // Bytes past ASCII are malformed in every mode, and often follow one another.
    if byte >= 0x80 {
        return malformed(1, false, mode, NOTHING);
    }
    if matches!(mode, DecoderMode::TwoByte) && byte >= 0x21 && byte <= 0x7E {
        return (Fed::Nothing, mode, Held::Byte(byte));
    }
    match single_scalar(mode, byte) {
        Some(c) => (Fed::One(c), mode, NOTHING),
        None => malformed(1, false, mode, NOTHING),
    }
}

/// Reads a byte after a lead.
///
/// An escape byte ends the lead, and is itself held back.
#[inline]
fn read_trail(tables: &Tables, lead: u8, byte: u8) -> Outcome
    requires { 0x21 ≤ lead }
    ensures { result ≡ machine.read_trail tables.now.flat.jis0208 lead byte }
{
    let mode = DecoderMode::TwoByte;
    if byte == ESCAPE {
        return malformed(1, false, mode, Held::Begun(None, Start::EscapeByte));
    }
    if byte >= 0x21 && byte <= 0x7E {
        let pointer = usize::from(lead - 0x21) * 94 + usize::from(byte - 0x21);
        if let Some(c) = tables.idx(IndexName::Jis0208, pointer) {
            return (Fed::One(c), mode, NOTHING);
        }
    }
    malformed(2, false, mode, NOTHING)
}

/// Reads a byte after an escape byte and a second byte, which may follow a whole escape.
///
/// Either the next escape is whole, and one directly before it is malformed. Or the escape byte is
/// malformed and the second byte is held back alone.
#[inline]
fn read_third(
    mode: DecoderMode,
    before: Option<Escape>,
    second: u8,
    next: Option<Escape>,
) -> Outcome
    ensures { result ≡ machine.read_third mode before second next }
{
    let Some(escape) = next else {
        return malformed(1, true, mode, Held::Byte(second));
    };
    let held = Held::Begun(Some(escape), Start::Nothing);
    match before {
        Some(_) => malformed(3, false, mode, held),
        None => (Fed::Nothing, mode, held),
    }
}

/// Reads a byte after less than a whole escape, which may follow a whole one.
///
/// The mode of that escape applies from here on.
#[inline(always)]
fn read_start(mode: DecoderMode, escape: Option<Escape>, start: Start, byte: u8) -> Outcome
    ensures { result ≡ machine.read_start mode escape start byte }
{
    let new_mode = mode_after(mode, escape);
    match (start, byte) {
        (Start::Nothing, ESCAPE) => (Fed::Nothing, mode, Held::Begun(escape, Start::EscapeByte)),
        (Start::Nothing, _) => read_in_mode(new_mode, byte),
        (Start::EscapeByte, DOLLAR) => (Fed::Nothing, mode, Held::Begun(escape, Start::Dollar)),
        (Start::EscapeByte, PAREN) => (Fed::Nothing, mode, Held::Begun(escape, Start::Paren)),
        (Start::EscapeByte, _) => malformed(1, true, new_mode, NOTHING),
        (Start::Dollar, _) => read_third(new_mode, escape, DOLLAR, completed(start, byte)),
        (Start::Paren, _) => read_third(new_mode, escape, PAREN, completed(start, byte)),
    }
}

/// Reads the next byte.
///
/// No scalar may be held back.
#[inline(always)]
pub fn read(tables: &Tables, mode: DecoderMode, held: Held, byte: u8) -> Outcome
    requires sound { is_held mode held ≡ true }
    requires rests { is_resting mode held ≡ true }
    ensures { result ≡ machine.read tables.now.flat.jis0208 mode held byte }
{
    match held {
        Held::Byte(lead) => read_trail(tables, lead, byte),
        Held::Begun(escape, start) => read_start(mode, escape, start, byte),
    }
}

/// Returns the mode and the held-back bytes after one malformed byte at the end of the input.
///
/// Returns `None` if nothing is left to report.
pub fn finish(mode: DecoderMode, held: Held) -> Option<(DecoderMode, Held)>
    ensures { result ≡ machine.finish mode held }
{
    let Held::Begun(escape, start) = held else {
        return Some((mode, NOTHING));
    };
    let new_mode = mode_after(mode, escape);
    match start {
        Start::Nothing => None,
        Start::EscapeByte => Some((new_mode, NOTHING)),
        Start::Dollar => Some((new_mode, Held::Byte(DOLLAR))),
        Start::Paren => Some((new_mode, Held::Byte(PAREN))),
    }
}
