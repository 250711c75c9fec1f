//! The loops that read ahead of the moves: blocks, turns of ten scalars, and single scalars.
//!
//! They leave scalars without bytes and small outputs to the moves.
ghost use Rattle.std.specs.Prelude.{◌≡◌, ℕ, ◌+◌, ◌<◌, ◌≤◌, length, take, IfSome, MatchOption};
ghost use Rattle.legacy_text.specs.NextScalars.{IsFirst};
ghost use Rattle.legacy_base.specs.Encoders.{encoder_profile, scalar_need};
ghost use Rattle.legacy_encoder_engine.specs.Guesses.{IsGuess};
ghost use Rattle.legacy_encoder_engine.specs.ProfileSuffices.{Serves};
ghost use Rattle.legacy_encoder_engine.specs.UnfinishedCall.{EncodesBy, EncodesFrom, KeepsOn};
ghost use Rattle.legacy_encoder_engine.specs.WrittenUnits.{PutsUnits};

use crate::ahead_codes::AheadCodes;
use crate::drive::put_two;
use legacy_base::Source;
use legacy_tables::RangePart;
use legacy_text::{Next, ReadingLoop, TextCursor};

/// Writes the bytes of ten code units from the place `start` on, and returns the place after them.
///
/// The result is `None` if a code unit has no bytes here.
// There is no branch between them: in text with spaces no pattern predicts one-byte scalars.
#[inline(always)]
fn put_ten<C: AheadCodes>(
    codes: &C,
    dst: &mut [u8],
    start: usize,
    units: [u16; 10],
) -> Option<usize>
    requires room { start + 32 ≤ length dst.old }
    requires fits { (c : ℕ) → scalar_need (C.state codes.now) c ≤ 12 }
    requires serves { Serves (encoder_profile (C.state codes.now).codec) }
    ensures { MatchOption result (take start dst.new ≡ take start dst.old)
        (λ end. (start + 10 ≤ end) × (end ≤ start + 20)
        × PutsUnits (C.state codes.now) (length dst.old) units
        (take start dst.old) (take end dst.new)) }
{
    let mut end = start;
    let mut is_known = true;
    let mut k = 0;
    while k < 10 {
        let (both, count, has_code) = codes.unit_bytes(units[k]);
        is_known = is_known & has_code;
        put_two(dst, end, (both % 256) as u8, (both / 256) as u8);
        end += count;
        k += 1;
    }
    if is_known { Some(end) } else { None }
}

/// Reads scalars as UTF-16 code units by turns of ten, and returns the place after their bytes.
///
/// It stops before a turn in which a code unit has no bytes, and after a turn of ASCII.
// A turn reads by a copy of the cursor, which is dropped if the turn fails.
#[inline(always)]
fn read_tens<C: AheadCodes, S: TextCursor>(
    codes: &C,
    src: &mut S,
    dst: &mut [u8],
    start: usize,
) -> usize
    requires { start ≤ length dst.old }
    ensures { EncodesBy S.TextCursor (C.state codes.now) src.old dst.old start src.new dst.new
        result }
{
    let mut at = start;
    if codes.widest() > 12 {
        return at;
    }
    while dst.len() - at >= 32 {
        let mut ahead = *src;
        let Some(units) = ahead.take_ten() else {
            return at;
        };
        let Some(end) = put_ten(codes, dst, at, units) else {
            return at;
        };
        *src = ahead;
        let is_ascii = end - at == 10;
        at = end;
        if is_ascii {
            return at;
        }
    }
    at
}

/// Reads turns at the front of the source, as after a scalar past ASCII.
#[inline(always)]
#[tactic(auto, using(crate::proofs::ReadingAhead::encodes_none))]
fn read_first_tens<C: AheadCodes, S: TextCursor>(
    codes: &C,
    src: &mut S,
    dst: &mut [u8],
    start: usize,
) -> usize
    requires { start ≤ length dst.old }
    ensures { EncodesBy S.TextCursor (C.state codes.now) src.old dst.old start src.new dst.new
        result }
{
    if C::BEGINS_BY_TENS && src.has_tens('\u{3000}') {
        return read_tens(codes, src, dst, start);
    }
    start
}

/// Writes the bytes of the scalar at the front, which is past ASCII and has `count` code units.
///
/// Goes past the scalar, and returns the place after its bytes. The result is `None` if the scalar
/// is left to the moves.
#[inline(always)]
fn read_past_ascii<C: AheadCodes, S: TextCursor>(
    codes: &C,
    guess: &mut RangePart,
    src: &mut S,
    dst: &mut [u8],
    at: usize,
    c: char,
    count: usize,
) -> Option<usize>
    requires room { at + C.need ≤ length dst.old }
    requires fits { scalar_need (C.state codes.now) c ≤ C.need }
    requires serves { Serves (encoder_profile (C.state codes.now).codec) }
    requires past { 0x80 ≤ c }
    requires front { IsFirst S.form (S.left src.old) c count }
    requires guess { IsGuess (C.state codes.now).codec guess.old }
    ensures ahead { MatchOption result
        (EncodesBy S.TextCursor (C.state codes.now) src.old dst.old at src.new dst.new at)
        (EncodesBy S.TextCursor (C.state codes.now) src.old dst.old at src.new dst.new) }
    ensures some { IfSome result (λ end. at < end) }
    ensures guess { IsGuess (C.state codes.now).codec guess.new }
{
    let Some(end) = codes.put_past_ascii(guess, dst, at, c) else {
        return None;
    };
    src.pass(count);
    Some(end)
}

/// Reads single scalars while any scalar fits, and returns the place after their bytes.
///
/// The bytes begin at `start`. It stops before a block, and before a scalar that is left to the
/// moves.
// Each number of code units has a case of its own. So the place of the next scalar is known before
// this one is.
#[inline(always)]
#[tactic(auto, using(crate::proofs::ReadingAhead::turns))]
fn read_scalars<C: AheadCodes, S: TextCursor>(
    codes: &C,
    guess: &mut RangePart,
    src: &mut S,
    dst: &mut [u8],
    start: usize,
) -> usize
    requires start { start ≤ length dst.old }
    requires guess { IsGuess (C.state codes.now).codec guess.old }
    ensures ahead { EncodesBy S.TextCursor (C.state codes.now) src.old dst.old start src.new
        dst.new result }
    ensures guess { IsGuess (C.state codes.now).codec guess.new }
{
    let widest = codes.widest();
    let mut at = start;
    let mut by_tens = C::HAS_TENS;
    while dst.len() - at >= widest {
        match src.front() {
            Next::One(c) => {
                if codes.may_go_by_blocks(src, c) && at > start {
                    return at;
                }
                let Some(end) = codes.put_code(guess, dst, at, c) else {
                    return at;
                };
                let may_turn = end == at + 2 || widest <= 2;
                at = end;
                src.pass(1);
                if by_tens && may_turn && src.has_tens(c) {
                    at = read_tens(codes, src, dst, end);
                    by_tens = at > end;
                }
            }
            Next::Two(c) => {
                let Some(end) = read_past_ascii(codes, guess, src, dst, at, c, 2) else {
                    return at;
                };
                let goes_on = at > start;
                at = end;
                if goes_on {
                    at = codes.read_turns(src, dst, end);
                }
            }
            Next::Three(c) => match read_past_ascii(codes, guess, src, dst, at, c, 3) {
                Some(end) => at = end,
                None => return at,
            },
            Next::Four(_) | Next::End => return at,
        }
    }
    at
}

/// The scalars that have codes, read by blocks and one by one while any scalar fits.
#[derive(Drop)]
struct ByCodes<'a, C> {
    codes: &'a C,
}

impl<C: AheadCodes> ReadingLoop for ByCodes<'_, C> {
    ghost keeps = { λ by_codes. KeepsOn (C.state by_codes.codes.now) };

    // Functions that take the cursor are always inlined: the compiler keeps its place in a
    // register.
    #[inline(always)]
    #[tactic(auto, using(crate::proofs::ReadingAhead::encodes_then))]
    fn read<S: TextCursor>(&self, src: &mut S, dst: &mut [u8], start: usize) -> usize {
        let codes = self.codes;
        let mut at = read_first_tens(codes, src, dst, start);
        let mut guess = RangePart::none();
        loop {
            at = codes.read_blocks(src, dst, at);
            let end = read_scalars(codes, &mut guess, src, dst, at);
            if end == at || !C::HAS_BLOCKS || !codes.may_go_by_blocks(src, '\0') {
                return end;
            }
            at = end;
        }
    }

    ghost stays = { λ _ _ _ _. record { keeps = λ _ _ _ underway. underway } };
}

/// Reads blocks and single scalars from the front of the source while any scalar fits.
///
/// Writes their bytes from the place `start` of `dst` on, and returns the place after them.
#[inline(always)]
pub fn read_common<C: AheadCodes, S: Source>(
    codes: &C,
    src: &mut S,
    dst: &mut [u8],
    start: usize,
) -> usize
    requires { start ≤ length dst.old }
    ensures { EncodesFrom S.Source (C.state codes.now) src.old dst.old start src.new dst.new
        result }
{
    src.read_by(&ByCodes { codes }, dst, start)
}
