//! The one loop over every well-formed form of a codec: one to four bytes, one scalar or two.
// The functions that run for each form are always inlined, and so are all between them and a decoder's call: a call
// would store the destination's place there for each form.
ghost use Rattle.std.specs.Prelude.{◌≡◌, ◌+◌, ◌*◌, ◌<◌, ◌≤◌, [], ◌∷◌, length, take, get_or, true, false, MatchOption};
ghost use Rattle.legacy_base.specs.{States.new_state};
ghost use Rattle.legacy_decoder_engine.specs.ReadAhead.{Writes, ReadsAhead};

use crate::lane_codec::LaneCodec;
use crate::pace::Pace;
use crate::read_ahead::{SLACK, read_ascii};
use legacy_base::Destination;
use legacy_tables::FlatTables;
use std::cell::Cell;
use std::marker::PhantomData;

/// What is at the front of the input.
#[derive(Clone, Copy)]
pub enum Form {
    /// A scalar of one byte.
    Single(char),
    /// A scalar of two bytes.
    Pair(char),
    /// A scalar of three bytes.
    Triple(char),
    /// A scalar of four bytes.
    Four(char),
    /// Two scalars below U+0800 of two bytes.
    Marked(char, char),
    /// No form, or a part of one.
    Other,
}

impl Form {
    /// Returns the form of two bytes with this scalar, or no form.
    #[inline(always)]
    pub fn of_pair(scalar: Option<char>) -> Form
        ensures { MatchOption scalar (result ≡ Form.Other) (λ c. result ≡ Form.Pair c) }
    {
        match scalar {
            Some(scalar) => Form::Pair(scalar),
            None => Form::Other,
        }
    }
}

/// The forms of a codec over flat tables.
// It has a copy of the tables. A loop keeps the parts of a copy in registers, and loads those of borrowed tables for each
// pair.
#[derive(Drop)]
pub(crate) struct Forms<'a, 'b, C: LaneCodec> {
    pub(crate) tables: FlatTables<'b>,
    /// What the codec keeps from one form of four bytes to the next.
    pub(crate) guess: &'a Cell<usize>,
    codec: PhantomData<C>,
}

impl<'a, 'b, C: LaneCodec> Forms<'a, 'b, C> {
    /// Returns the forms over these tables. `guess` is what the codec keeps from one form of four bytes to the next.
    #[inline(always)]
    pub(crate) fn new(tables: &FlatTables<'b>, guess: &'a Cell<usize>) -> Forms<'a, 'b, C>
        ensures { result.tables.flat ≡ tables.now.flat }
    {
        Forms {
            tables: tables.copied(),
            guess,
            codec: PhantomData,
        }
    }
}

/// The code units that are free before a form, so that three are free after it.
const ONE_NEED: usize = 4 + SLACK;

/// The most bytes that four forms have.
const FOUR_BYTES: usize = 16;

/// The code units that are free before four forms, so that three are free after them.
const FOUR_NEED: usize = 16 + SLACK;

/// Reads the form past ASCII that these bytes begin with, if it has at most `most` bytes, and returns the number of its bytes.
///
/// Returns 0 if there is no such form.
#[inline(always)]
fn read_past_ascii<C: LaneCodec, T: Destination>(
    forms: &Forms<'_, '_, C>,
    bytes: (u8, u8, u8, u8),
    most: usize,
    dst: &mut T,
) -> usize
    requires past { 0x80 ≤ bytes.0 }
    requires some { 1 ≤ most }
    requires room { 4 ≤ T.room dst.old }
    ensures most { result ≤ most }
    ensures four { result ≤ 4 }
    ensures writes { Writes T.Destination (C.grammar forms.now.tables.flat) (take result (bytes.0 ∷ bytes.1 ∷ bytes.2 ∷ bytes.3 ∷ [])) dst.old dst.new }
    ensures slack { T.room dst.old ≤ T.room dst.new + 4 }
{
    match C::form_at(
        &forms.tables,
        forms.guess,
        bytes.0,
        bytes.1,
        bytes.2,
        bytes.3,
    ) {
        Form::Single(c) => {
            dst.put(c);
            1
        }
        Form::Pair(c) if most >= 2 => {
            dst.put(c);
            2
        }
        Form::Triple(c) if most >= 3 => {
            dst.put(c);
            3
        }
        Form::Four(c) if most >= 4 => {
            dst.put(c);
            4
        }
        Form::Marked(c, d) if most >= 2 => {
            dst.put(c);
            dst.put(d);
            2
        }
        _ => 0,
    }
}

/// Reads the form that these bytes begin with, if it has at most `most` bytes, and returns the number of its bytes.
///
/// Returns 0 if there is no such form.
#[inline(always)]
fn read_form<C: LaneCodec, T: Destination>(
    forms: &Forms<'_, '_, C>,
    bytes: (u8, u8, u8, u8),
    most: usize,
    dst: &mut T,
) -> usize
    requires some { 1 ≤ most }
    requires room { 4 ≤ T.room dst.old }
    ensures most { result ≤ most }
    ensures four { result ≤ 4 }
    ensures writes { Writes T.Destination (C.grammar forms.now.tables.flat) (take result (bytes.0 ∷ bytes.1 ∷ bytes.2 ∷ bytes.3 ∷ [])) dst.old dst.new }
    ensures slack { T.room dst.old ≤ T.room dst.new + 4 }
{
    if bytes.0 < 0x80 {
        dst.put(char::from(bytes.0));
        return 1;
    }
    read_past_ascii(forms, bytes, most, dst)
}

/// Returns the byte at a place, or FF, which is in no form, after the end.
#[inline(always)]
fn byte_at(src: &[u8], at: usize) -> u8
    ensures { at < length src.now → result ≡ get_or src.now at 0 }
{
    if at < src.len() { src[at] } else { 0xFF }
}

/// Reads the form at the front, and returns the number of its bytes, or 0 if there is none.
#[inline(always)]
fn read_one<C: LaneCodec, T: Destination>(
    forms: &Forms<'_, '_, C>,
    src: &[u8],
    dst: &mut T,
) -> usize
    requires some { 1 ≤ length src.now }
    requires room { 7 ≤ T.room dst.old }
    ensures { ReadsAhead T.Destination (new_state (C.grammar forms.now.tables.flat)) src.now result dst.old dst.new }
{
    let bytes = (src[0], byte_at(src, 1), byte_at(src, 2), byte_at(src, 3));
    read_form(forms, bytes, src.len(), dst)
}

/// Returns whether the first four bytes are ASCII.
#[inline(always)]
fn begins_ascii(src: &[u8]) -> bool
    requires { 4 ≤ length src.now }
    ensures { result ≡ true → get_or src.now 0 0 < 0x80 }
{
    src[0] < 0x80 && (src[1] | src[2] | src[3]) < 0x80
}

/// Reads the form at the front of at least four bytes.
///
/// Returns the number of its bytes, or 0 if there is none, and whether another form may follow. None follows the first of
/// four ASCII bytes, because blocks read those faster.
#[inline(always)]
fn read_turn<C: LaneCodec, T: Destination>(
    forms: &Forms<'_, '_, C>,
    src: &[u8],
    dst: &mut T,
) -> (usize, bool)
    requires source { 4 ≤ length src.now }
    requires room { 4 ≤ T.room dst.old }
    ensures four { result.0 ≤ 4 }
    ensures goes_on { result.1 ≡ true → 0 < result.0 }
    ensures ends { result.1 ≡ false → result.0 < 4 }
    ensures writes { Writes T.Destination (C.grammar forms.now.tables.flat) (take result.0 src.now) dst.old dst.new }
    ensures slack { T.room dst.old ≤ T.room dst.new + 4 }
{
    if begins_ascii(src) {
        dst.put(char::from(src[0]));
        return (1, false);
    }
    let read = read_form(forms, (src[0], src[1], src[2], src[3]), 4, dst);
    (read, read > 0)
}

/// Reads at most `most` forms, up to a malformed or incomplete one, or past the first of four ASCII bytes.
///
/// Returns the number of bytes read, and whether it read `most` forms. The input has bytes for `most` forms, and the output
/// has room for them and three more code units.
#[inline(always)]
fn read_turns<C: LaneCodec, T: Destination>(
    forms: &Forms<'_, '_, C>,
    src: &[u8],
    dst: &mut T,
    most: usize,
) -> (usize, bool)
    requires source { 4 * most ≤ length src.now }
    requires room { 4 * most + 3 ≤ T.room dst.old }
    ensures read { result.0 ≤ 4 * most }
    ensures goes_on { result.1 ≡ true → most ≤ result.0 }
    ensures ends { result.1 ≡ false → result.0 < 4 * most }
    ensures writes { Writes T.Destination (C.grammar forms.now.tables.flat) (take result.0 src.now) dst.old dst.new }
    ensures slack { T.room dst.old ≤ T.room dst.new + 4 * most }
{
    let mut at = 0;
    let mut left = most;
    while left > 0 {
        let (read, goes_on) = read_turn(forms, &src[at..], dst);
        at += read;
        if !goes_on {
            return (at, false);
        }
        left -= 1;
    }
    (at, true)
}

/// Reads at most four forms from the front, up to a malformed or incomplete one, or past the first of four ASCII bytes.
///
/// Returns the number of bytes read, and whether it read four forms.
#[inline(always)]
#[tactic(auto, using(crate::proofs::JoinedReads::turn_by_turn))]
fn read_four<C: LaneCodec, T: Destination>(
    forms: &Forms<'_, '_, C>,
    src: &[u8],
    dst: &mut T,
) -> (usize, bool)
    requires source { 16 ≤ length src.now }
    requires room { 19 ≤ T.room dst.old }
    ensures ahead { ReadsAhead T.Destination (new_state (C.grammar forms.now.tables.flat)) src.now result.0 dst.old dst.new }
    ensures goes_on { result.1 ≡ true → 4 ≤ result.0 }
    ensures ends { result.1 ≡ false → result.0 < 16 }
{
    read_turns(forms, src, dst, 4)
}

/// Reads forms from the front, up to a malformed or incomplete one, into four ASCII bytes, or past `most` bytes.
///
/// Returns the number of bytes read, which may be 0, and whether it stopped at a malformed or incomplete form.
// Four at a time: the compiler unrolls a loop of that size, so each place has its own branches, and the processor
// predicts each of them by its own history.
#[inline(always)]
#[tactic(auto)]
fn read_row<C: LaneCodec, T: Destination>(
    forms: &Forms<'_, '_, C>,
    src: &[u8],
    most: usize,
    dst: &mut T,
) -> (usize, bool)
    ensures ahead { ReadsAhead T.Destination (new_state (C.grammar forms.now.tables.flat)) src.now result.0 dst.old dst.new }
{
    let mut at = 0;
    while at < most && src.len() - at >= FOUR_BYTES && dst.free() >= FOUR_NEED {
        let (read, goes_on) = read_four(forms, &src[at..], dst);
        at += read;
        if !goes_on {
            return (at, src[at] >= 0x80);
        }
    }
    (at, false)
}

/// Reads forms one by one from the front, up to a malformed or incomplete one or to the end of the room.
///
/// Returns the number of bytes read, which may be 0.
// For the last bytes of the input and of the room.
#[inline(always)]
#[tactic(auto)]
fn read_last<C: LaneCodec, T: Destination>(
    forms: &Forms<'_, '_, C>,
    src: &[u8],
    dst: &mut T,
) -> usize
    ensures { ReadsAhead T.Destination (new_state (C.grammar forms.now.tables.flat)) src.now result dst.old dst.new }
{
    let mut at = 0;
    while at < src.len() && dst.free() >= ONE_NEED {
        let read = read_one(forms, &src[at..], dst);
        at += read;
        if read == 0 {
            return at;
        }
    }
    at
}

/// Reads ASCII by blocks and other forms one by one from the front, until lanes may be tried, up to a malformed or
/// incomplete form, or to the end of the room.
///
/// Returns the number of bytes read, and whether lanes may be tried.
#[inline(always)]
#[tactic(auto)]
pub(crate) fn read_all<C: LaneCodec, T: Destination>(
    forms: &Forms<'_, '_, C>,
    pace: &Pace,
    src: &[u8],
    dst: &mut T,
) -> (usize, bool)
    ensures ahead { ReadsAhead T.Destination (new_state (C.grammar forms.now.tables.flat)) src.now result.0 dst.old dst.new }
    ensures goes_on { result.1 ≡ true → 0 < result.0 }
{
    let mut at = 0;
    loop {
        let ascii = read_ascii(&src[at..], dst);
        at += ascii;
        pace.after_ascii(ascii);
        if src.len() - at < FOUR_BYTES || dst.free() < FOUR_NEED {
            return (at + read_last(forms, &src[at..], dst), false);
        }
        let (row, is_over) = read_row(forms, &src[at..], pace.left(), dst);
        at += row;
        if is_over || row == 0 {
            return (at, false);
        }
        pace.after_forms(row);
        if pace.left() == 0 {
            return (at, true);
        }
    }
}
