//! The decoder of GB18030 and GBK.
ghost use Rattle.std.specs.Prelude.{◌≡◌, ℕ, List, ◌∷◌, [], true, length, IfSome};
ghost use Rattle.{legacy_base.specs.{Grammar.gb18030, States.{is_neutral, new_state, rests}}, legacy_decoder_engine.specs.Feeding.Took};
ghost use Rattle.legacy_chinese.specs.{Gb18030Decoder.{gb18030_state, held_bytes}, Gb18030Machine.gb18030_step};

mod resume;

use super::digit::Digit;
use super::four_byte_blocks::{Gb18030, form_scalar, guessed_scalar};
use super::four_places::four_pointer;
use legacy_base::{DecoderStep, Destination, RawDecoder, Tables};
use legacy_decoder_engine::drive::{count_malformed_bytes, drive_decoder};
use legacy_decoder_engine::held_lead::Lead;
use legacy_decoder_engine::lane_blocks::read_by_tables;
use legacy_decoder_engine::lead_and_trail::{malformed_through, read_trail};
use legacy_decoder_engine::moves::{DecoderMoves, Fed, Need};
use legacy_decoder_engine::pace::Pace;
use legacy_tables::DecoderTables;
use std::cell::Cell;

/// The held-back bytes: the first bytes of a sequence, or the bytes after a malformed lead.
#[derive(Clone, Copy)]
enum Held {
    Nothing,
    First(Lead),
    Second(Lead, Digit),
    Third(Lead, Digit, Lead),
    /// A digit after a malformed lead. It is written next.
    Digit(Digit),
    /// The same, and a lead after it, which begins a sequence.
    DigitLead(Digit, Lead),
}

/// The decoder of GB18030, which also decodes GBK (Encoding Standard, "gb18030 decoder").
///
/// ASCII bytes are themselves and 80 is U+20AC. A lead 81 to FE and a trail 40 to 7E or 80 to FE are
/// looked up in index gb18030. A lead, a digit 30 to 39, a lead and a digit are looked up in index
/// gb18030 ranges.
///
/// Malformed sequences:
///
/// - the byte FF at the beginning of a sequence (1 byte);
/// - a lead with a byte that does not continue or map (2 bytes); if that byte is ASCII, only the
///   lead (1 byte), and the ASCII byte is read again;
/// - a lead whose digit is followed by a byte that is not a lead, or by a lead and a byte that is
///   not a digit (1 byte); the digit is then a scalar, and the next sequence begins after it;
/// - four bytes that do not map (4 bytes);
/// - an incomplete sequence at the end of the input (1 to 3 bytes).
///
/// It keeps the range of gb18030 that was used last in a `Cell`, so it is not `Sync`. Threads can share
/// the tables, and each makes a decoder of its own.
#[derive(Drop)]
pub struct Gb18030Decoder<'a> {
    tables: &'a Tables<'a>,
    held: Held,
    /// The place of the last range that was used. The next sequence of four bytes tries it first.
    guess: Cell<usize>,
    pace: Pace,
}

/// Returns what a byte leads to if nothing is held back.
#[inline(always)]
fn read_first(byte: u8) -> (Fed, Held)
    ensures { Took (gb18030_step [] [] [] byte) [] byte result.0 (held_bytes result.1) }
{
    match byte {
        0..=0x7F => (Fed::One(char::from(byte)), Held::Nothing),
        0x80 => (Fed::One('\u{20AC}'), Held::Nothing),
        0x81..=0xFE => (Fed::Nothing, Held::First(Lead { byte })),
        _ => (malformed_through(1), Held::Nothing),
    }
}

/// Returns a malformed lead, after which `back` bytes stay held back and the byte is left unread.
#[inline]
fn lead_alone(back: u8) -> Fed
    ensures { result ≡ Fed.MalformedSequence 1 back true }
{
    Fed::MalformedSequence {
        length: 1,
        back,
        unread: true,
    }
}

/// Returns what a byte leads to after a lead, a digit and a lead.
#[inline(always)]
#[tactic(auto, using(std::proofs::lemmas::Grind::common_steps), unfolding(crate::specs::FourForms::lead_part, crate::specs::FourForms::digit_part))]
fn read_fourth(
    tables: &Tables,
    guess: &Cell<usize>,
    first: Lead,
    second: Digit,
    third: Lead,
    byte: u8,
) -> (Fed, Held)
    ensures { Took (gb18030_step [] tables.now.flat.ranges
        (first.byte ∷ second.byte ∷ third.byte ∷ []) byte)
        (first.byte ∷ second.byte ∷ third.byte ∷ []) byte result.0 (held_bytes result.1) }
{
    if Digit::new(byte).is_none() {
        return (lead_alone(2), Held::DigitLead(second, third));
    }
    let pointer = four_pointer(first.byte, second.byte, third.byte, byte);
    let fed = match guessed_scalar(tables.ranges(), guess, pointer) {
        Some(scalar) => Fed::One(scalar),
        None => malformed_through(4),
    };
    (fed, Held::Nothing)
}

/// Returns what a byte leads to after held-back bytes, and what is held back after it.
// A first byte, and a trail that gives a scalar, are read without this call: other bytes are uncommon, but for malformed ones.
#[inline(never)]
fn read_next(tables: &Tables, guess: &Cell<usize>, held: Held, byte: u8) -> (Fed, Held)
    requires { rests (gb18030 tables.now.flat.gb18030 tables.now.flat.ranges) (held_bytes held) ≡ true }
    ensures { Took (gb18030_step tables.now.flat.gb18030 tables.now.flat.ranges
        (held_bytes held) byte)
        (held_bytes held) byte result.0 (held_bytes result.1) }
{
    match held {
        Held::Nothing => read_first(byte),
        Held::First(first) => match Digit::new(byte) {
            Some(second) => (Fed::Nothing, Held::Second(first, second)),
            None => (
                read_trail(form_scalar(tables, first.byte, byte), byte),
                Held::Nothing,
            ),
        },
        Held::Second(first, second) => match Lead::new(byte) {
            Some(third) => (Fed::Nothing, Held::Third(first, second, third)),
            None => (lead_alone(1), Held::Digit(second)),
        },
        Held::Third(first, second, third) => {
            read_fourth(tables, guess, first, second, third, byte)
        }
        Held::Digit(_) | Held::DigitLead(_, _) => unreachable!(),
    }
}

/// Returns what is held back after a byte that only continues a sequence, or `None` for any other byte.
#[inline(always)]
fn held_after(held: Held, byte: u8) -> Option<Held>
    ensures { IfSome result (λ next. (index : List ℕ) (ranges : List (ℕ × ℕ)) →
        (rests (gb18030 index ranges) (held_bytes held) ≡ true)
        × Took (gb18030_step index ranges (held_bytes held) byte) (held_bytes held) byte Fed.Nothing (held_bytes next)) }
{
    match held {
        Held::Nothing => Some(Held::First(Lead::new(byte)?)),
        Held::First(first) => Some(Held::Second(first, Digit::new(byte)?)),
        Held::Second(first, second) => Some(Held::Third(first, second, Lead::new(byte)?)),
        Held::Third(..) | Held::Digit(_) | Held::DigitLead(..) => None,
    }
}

/// Returns the number of held-back bytes.
#[inline]
fn held_length(held: Held) -> u8
    ensures { result ≡ length (held_bytes held) }
{
    match held {
        Held::Nothing => 0,
        Held::First(_) | Held::Digit(_) => 1,
        Held::Second(_, _) | Held::DigitLead(_, _) => 2,
        Held::Third(_, _, _) => 3,
    }
}

impl<'a> Gb18030Decoder<'a> {
    ghost use Rattle.legacy_base.specs.Lengths.{answer, weighted};

    /// Returns a decoder before its first byte, which uses index gb18030 and the ranges of the tables.
    pub fn new(tables: &'a Tables<'a>) -> Gb18030Decoder<'a>
        ensures { gb18030_state result ≡ new_state (gb18030 tables.now.flat.gb18030 tables.now.flat.ranges) }
    {
        Gb18030Decoder {
            tables,
            held: Held::Nothing,
            guess: Cell::new(0),
            pace: Pace::new(),
        }
    }

    /// Checks whether no byte is held back.
    #[inline]
    pub fn in_neutral_state(&self) -> bool
        ensures { result ≡ is_neutral (gb18030_state self.now) }
    {
        matches!(self.held, Held::Nothing)
    }

    /// Returns the number of held-back bytes, at most 3.
    #[inline]
    pub fn held_count(&self) -> usize
        ensures { result ≡ length (gb18030_state self.now).held }
    {
        usize::from(held_length(self.held))
    }

    /// Returns the number of bytes plus that of held-back bytes, or `None` if that overflows.
    fn weighted_length(&self, byte_length: usize) -> Option<usize>
        ensures { result ≡ answer (weighted (gb18030_state self.now) byte_length) }
    {
        byte_length.checked_add(usize::from(held_length(self.held)))
    }
}

impl DecoderMoves for Gb18030Decoder<'_> {
    ghost state = { gb18030_state };

    #[inline]
    #[tactic(auto, using(std::proofs::lemmas::Grind::common_steps))]
    fn rests(&self) -> bool {
        !matches!(self.held, Held::Digit(_) | Held::DigitLead(_, _))
    }

    #[inline]
    fn reading_need(&self, byte: u8) -> Need {
        if byte < 0x80 && matches!(self.held, Held::Nothing) {
            Need::Unit
        } else {
            Need::Wide
        }
    }

    #[inline]
    fn release_need(&self) -> Need {
        Need::Wide
    }

    #[inline]
    fn release(&mut self) -> Option<char> {
        match self.held {
            Held::Digit(digit) => {
                self.held = Held::Nothing;
                Some(char::from(digit.byte))
            }
            Held::DigitLead(digit, lead) => {
                self.held = Held::First(lead);
                Some(char::from(digit.byte))
            }
            _ => None,
        }
    }

    #[inline(always)]
    fn feed(&mut self, byte: u8) -> Fed {
        if let Held::First(first) = self.held {
            if let Some(scalar) = form_scalar(self.tables, first.byte, byte) {
                self.held = Held::Nothing;
                return Fed::One(scalar);
            }
        }
        if let Held::Nothing = self.held {
            let (fed, kept) = read_first(byte);
            self.held = kept;
            return fed;
        }
        let (fed, held) = read_next(self.tables, &self.guess, self.held, byte);
        self.held = held;
        fed
    }

    #[inline(always)]
    fn after_malformed(&mut self) {
        self.pace.after_malformed();
    }

    #[inline]
    #[tactic(auto, using(crate::proofs::Gb18030Held::ends_none, crate::proofs::Gb18030Held::ends_some))]
    fn has_report(&self) -> bool {
        !matches!(self.held, Held::Nothing)
    }

    fn report(&mut self) -> Option<(u8, u8)> {
        let length = held_length(self.held);
        if length == 0 {
            return None;
        }
        self.held = Held::Nothing;
        Some((length, 0))
    }

    #[inline(always)]
    #[tactic(auto, using(crate::proofs::Gb18030Held::malformed_byte))]
    fn is_malformed_byte(&self, byte: u8) -> bool {
        matches!(self.held, Held::Nothing) && byte == 0xFF
    }

    /// Holds back the first bytes of a sequence: those before the end of the input, and those that go on with held-back ones.
    #[inline(always)]
    fn hold_back<T: Destination>(&mut self, src: &[u8], dst: &T) -> usize {
        if dst.free() < T::wide() {
            return 0;
        }
        let mut at = 0;
        while at < src.len() {
            let Some(held) = held_after(self.held, src[at]) else {
                return at;
            };
            self.held = held;
            at += 1;
        }
        at
    }

    #[inline(always)]
    fn read_common<T: Destination>(&mut self, src: &[u8], dst: &mut T) -> usize {
        if !matches!(self.held, Held::Nothing) {
            return 0;
        }
        read_by_tables::<Gb18030, T>(self.tables, &self.guess, &self.pace, src, dst)
    }
}

impl RawDecoder for Gb18030Decoder<'_> {
    ghost state = { gb18030_state };

    #[inline(always)]
    fn step<T: Destination>(&mut self, src: &[u8], dst: &mut T, last: bool) -> DecoderStep {
        drive_decoder(self, src, dst, last)
    }

    fn malformed_bytes(&self, src: &[u8]) -> usize {
        count_malformed_bytes(self, src)
    }

    fn max_utf16_buffer_length(&self, byte_length: usize) -> Option<usize> {
        self.weighted_length(byte_length)?.checked_add(1)
    }

    fn max_utf8_buffer_length_without_replacement(&self, byte_length: usize) -> Option<usize> {
        self.weighted_length(byte_length)?
            .checked_mul(3)?
            .checked_add(1)
    }

    fn max_utf8_buffer_length(&self, byte_length: usize) -> Option<usize> {
        self.max_utf8_buffer_length_without_replacement(byte_length)
    }
}
