//! The steps of the UTF-16 decoders, byte by byte.
ghost use Rattle.std.specs.{Prelude.{◌≡◌, [], ◌∷◌, true, false, Bool}, Char.Utf16.{is_high_surrogate, is_low_surrogate, surrogate_pair_char}};
ghost use Rattle.{legacy_base.specs.{Grammar.utf16, States.rests, Utf16.unit_of}, legacy_decoder_engine.specs.Feeding.Took};
ghost use Rattle.legacy_miscellaneous.specs.{Utf16Decoder.{first_byte, second_byte, held_bytes}, Utf16Machine.utf16_step};

use super::held_bytes::{Held, HighSurrogate, OddByte, UnitScalar};
use legacy_decoder_engine::lead_and_trail::malformed_through;
use legacy_decoder_engine::moves::Fed;

/// Returns the unit of two bytes.
#[inline]
pub fn unit(big_endian: bool, first: u8, second: u8) -> u16
    ensures { result ≡ unit_of big_endian first second }
{
    if big_endian {
        u16::from(first) * 0x100 + u16::from(second)
    } else {
        u16::from(second) * 0x100 + u16::from(first)
    }
}

/// Returns whether the unit is a high surrogate.
#[inline]
pub fn is_high(unit: u16) -> bool
    ensures { result ≡ is_high_surrogate unit }
{
    unit >= 0xD800 && unit < 0xDC00
}

/// Returns whether the unit is a low surrogate.
#[inline]
pub fn is_low(unit: u16) -> bool
    ensures { result ≡ is_low_surrogate unit }
{
    unit >= 0xDC00 && unit < 0xE000
}

/// Returns whether the units are a high surrogate and a low one.
#[inline]
pub fn is_pair(high: u16, low: u16) -> bool
    ensures high { result ≡ true → is_high_surrogate high ≡ true }
    ensures low { result ≡ true → is_low_surrogate low ≡ true }
{
    is_high(high) && is_low(low)
}

/// Returns what the second byte of a unit leads to if no high surrogate is before the unit.
#[inline]
fn read_second(big_endian: bool, first: OddByte, byte: u8) -> (Fed, Held)
    ensures { let held = first.byte ∷ [] in Took (utf16_step big_endian held byte) held byte
        result.0 (held_bytes big_endian result.1) }
{
    let unit = unit(big_endian, first.byte, byte);
    if is_high(unit) {
        return (Fed::Nothing, Held::High(HighSurrogate { unit }));
    }
    match char::from_u32(u32::from(unit)) {
        Some(scalar) => (Fed::One(scalar), Held::Nothing),
        None => (malformed_through(2), Held::Nothing),
    }
}

/// Returns the scalar of a high and a low surrogate.
#[inline]
pub fn pair(high: HighSurrogate, low: u16) -> char
    requires { is_low_surrogate low ≡ true }
    ensures { result ≡ surrogate_pair_char high.unit low }
{
    let scalar = 0x1_0000 + (u32::from(high.unit) - 0xD800) * 0x400 + (u32::from(low) - 0xDC00);
    unsafe { char::from_u32_unchecked(scalar) }
}

/// Holds back a unit that is not a low surrogate.
#[inline]
pub fn hold_unit(unit: u16) -> Held
    requires { is_low_surrogate unit ≡ false }
    ensures { (big_endian : Bool) → held_bytes big_endian result ≡ first_byte big_endian unit ∷ second_byte big_endian unit ∷ [] }
{
    if is_high(unit) {
        return Held::High(HighSurrogate { unit });
    }
    let scalar = unsafe { char::from_u32_unchecked(u32::from(unit)) };
    Held::Pending(UnitScalar { scalar })
}

/// Returns what the second byte of a unit leads to if a high surrogate is before the unit.
#[inline]
fn read_fourth(big_endian: bool, high: HighSurrogate, third: OddByte, byte: u8) -> (Fed, Held)
    ensures { let held = held_bytes big_endian (Held.HighOdd high third) in Took
        (utf16_step big_endian held byte) held byte result.0 (held_bytes big_endian result.1) }
{
    let unit = unit(big_endian, third.byte, byte);
    if is_low(unit) {
        return (Fed::One(pair(high, unit)), Held::Nothing);
    }
    (
        Fed::MalformedSequence {
            length: 2,
            back: 2,
            unread: false,
        },
        hold_unit(unit),
    )
}

/// Returns what a byte leads to, and what is held back after it.
#[inline]
pub fn read_byte(big_endian: bool, held: Held, byte: u8) -> (Fed, Held)
    requires { rests (utf16 big_endian) (held_bytes big_endian held) ≡ true }
    ensures { Took (utf16_step big_endian (held_bytes big_endian held) byte)
        (held_bytes big_endian held) byte result.0 (held_bytes big_endian result.1) }
{
    match held {
        Held::Nothing => (Fed::Nothing, Held::Odd(OddByte { byte })),
        Held::Odd(first) => read_second(big_endian, first, byte),
        Held::High(high) => (Fed::Nothing, Held::HighOdd(high, OddByte { byte })),
        Held::HighOdd(high, third) => read_fourth(big_endian, high, third, byte),
        Held::Pending(_) => unreachable!(),
    }
}
