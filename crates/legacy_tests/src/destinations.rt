//! The input and the outputs of a call.
ghost use Rattle.std.specs.Prelude.{◌≡◌};

use crate::compared::{Place, is_answer};
use legacy_base::{ByteSource, Destination, Utf8Destination, Utf16Destination};
use legacy_codecs::{OutputForm, Utf8Form, Utf16Form};
use std::fmt::Debug;
use std::process::Abort;

#[test]
fn a_cursor_goes_over_its_bytes_to_their_end(rt: HostRuntime) {
    let mut source = ByteSource::new(b"\x61\x80");
    let first = source.peek();
    source.advance();
    let second = source.peek();
    source.advance();
    let third = source.peek();
    let came = (first, second, third);
    assert!(rt; came == (Some(0x61), Some(0x80), None));
    assert!(rt; source.consumed() == 2);
}

/// Writes the scalars whose code units fit, one after another.
///
/// Returns the number of free code units before, and that of written ones after.
fn put_all<F: OutputForm, D: Destination + Drop>(mut dst: D, scalars: &[char]) -> (usize, usize)
    requires { F.form ≡ D.form }
{
    let free = dst.free();
    for scalar in scalars {
        if F::unit_count(*scalar) <= dst.free() {
            dst.put(*scalar);
        }
    }
    (free, dst.written())
}

/// Scalars, the number of code units written, and the whole output after that.
///
/// The output was filled with AA or AAAA.
type Put<'a, U> = (&'a [char], usize, &'a [U]);

/// Compares what was put into an output, and the number of free and of written units, with a row.
fn is_put<U: Copy + PartialEq + Debug>(
    rt: &impl Abort,
    place: Place,
    (counts, output): ((usize, usize), &[U]),
    (_, written, wanted): &Put<U>,
) {
    is_answer(rt, place, "free, written", counts, (wanted.len(), *written));
    is_answer(rt, place, "the output", output, *wanted);
}

/// Writes the scalars into an output as long as the wanted one, and compares the result with that.
fn put_in_utf8(rt: &impl Abort, at: usize, put: &Put<u8>) {
    let mut bytes = [0xAAu8; 12];
    let output = &mut bytes[..put.2.len().min(12)];
    let counts = put_all::<Utf8Form, Utf8Destination>(Utf8Destination::new(output), put.0);
    is_put(rt, ("UTF-8", at), (counts, output), put);
}

/// Writes the scalars into code units, and compares the result likewise.
fn put_in_utf16(rt: &impl Abort, at: usize, put: &Put<u16>) {
    let mut units = [0xAAAAu16; 12];
    let output = &mut units[..put.2.len().min(12)];
    let counts = put_all::<Utf16Form, Utf16Destination>(Utf16Destination::new(output), put.0);
    is_put(rt, ("UTF-16", at), (counts, output), put);
}

const IN_UTF8: &[Put<u8>] = &[
    (
        &['a', '\u{E9}', '\u{F780}', '\u{1F4A9}'],
        10,
        &[
            0x61, 0xC3, 0xA9, 0xEF, 0x9E, 0x80, 0xF0, 0x9F, 0x92, 0xA9, 0xAA, 0xAA,
        ],
    ),
    // Short scalars fill the last bytes.
    (&['a'], 1, &[0x61]),
    (&['\u{E9}'], 2, &[0xC3, 0xA9]),
    (
        &['\u{80}', '\u{7F}', 'a', '\u{7FF}'],
        6,
        &[0xC2, 0x80, 0x7F, 0x61, 0xDF, 0xBF],
    ),
];

const IN_UTF16: &Put<u16> = &(
    &['a', '\u{F780}', '\u{1F4A9}'],
    4,
    &[0x61, 0xF780, 0xD83D, 0xDCA9, 0xAAAA, 0xAAAA],
);

#[test]
fn a_scalar_takes_one_to_four_bytes_or_one_or_two_units_and_fills_the_last(rt: HostRuntime) {
    put_in_utf16(&rt, 0, IN_UTF16);
    for (at, put) in IN_UTF8.iter().enumerate() {
        put_in_utf8(&rt, at, put);
    }
}

#[test]
fn the_rooms_are_those_of_the_forms(rt: HostRuntime) {
    let constants = (Utf8Destination::BMP_ROOM, Utf8Destination::WIDE_ROOM);
    let answers = (Utf8Destination::narrow(), Utf8Destination::wide());
    assert!(rt; constants == (3, 4) && answers == (3, 4));
    let constants = (Utf16Destination::BMP_ROOM, Utf16Destination::WIDE_ROOM);
    let answers = (Utf16Destination::narrow(), Utf16Destination::wide());
    assert!(rt; constants == (1, 2) && answers == (1, 2));
}
