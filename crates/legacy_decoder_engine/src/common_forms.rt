//! Common forms one by one: bytes and pairs that each give one scalar up to U+FFFF. The machine does all the rest:
//! malformed sequences, held-back bytes, small outputs.
// The functions that run for each form are always inlined, and so are all between them and a decoder's call: a call
// would store the destination's place there for each form.
ghost use Rattle.std.specs.Prelude.{◌≡◌, ◌+◌, ◌*◌, ◌<◌, ◌≤◌, length, take, true, false, MatchOption};
ghost use Rattle.legacy_base.specs.{Grammar.Grammar, States.new_state};
ghost use Rattle.legacy_decoder_engine.specs.ReadAhead.{IsCommonForm, Writes, ReadsAhead};

use crate::read_ahead::SLACK;
use legacy_base::Destination;

/// What is at the front of the input.
#[derive(Clone, Copy)]
pub enum CommonForm {
    /// A scalar of one byte.
    Single(char),
    /// A scalar of two bytes.
    Pair(char),
    /// Anything else.
    Other,
}

impl CommonForm {
    /// Returns the form of two bytes that give this scalar up to U+FFFF, or none that is common.
    #[inline(always)]
    pub fn of_pair(scalar: Option<char>) -> CommonForm
        ensures { MatchOption scalar (result ≡ CommonForm.Other) (λ c. result ≡ CommonForm.Pair c) }
    {
        match scalar {
            Some(scalar) => CommonForm::Pair(scalar),
            None => CommonForm::Other,
        }
    }
}

/// The common forms of a codec, with nothing held back between two of them.
pub trait FrontForms {
    /// The grammar.
    ghost grammar: { Self → Grammar };

    /// Returns what is at the front of the input, given a byte and the byte after it.
    ///
    /// It is a scalar up to U+FFFF, or `Other` for an uncommon form, which the machine reads.
    fn form(&self, first: u8, second: u8) -> CommonForm
        ensures { IsCommonForm (grammar self.now) first second result };
}

/// Returns a number of forms that have at most `bytes` bytes and at most `units` code units.
// A division by three takes as long as a form. Most outputs have more room.
#[inline(always)]
fn fitting(bytes: usize, units: usize) -> usize
    ensures bytes { 2 * result ≤ bytes }
    ensures units { 3 * result ≤ units }
{
    if units / 2 >= bytes {
        bytes / 2
    } else {
        (bytes / 2).min(units / 3)
    }
}

/// Reads at most `most` forms, up to an uncommon one or past two ASCII bytes in a row.
///
/// Returns the number of bytes read, and whether it read `most` forms. The input has bytes for `most` forms, and the
/// output has room for them and three more code units.
#[inline(always)]
fn read_turns<F: FrontForms, T: Destination>(
    forms: &F,
    src: &[u8],
    dst: &mut T,
    most: usize,
) -> (usize, bool)
    requires source { 2 * most ≤ length src.now }
    requires room { 3 * most + 3 ≤ T.room dst.old }
    ensures read { result.0 ≤ 2 * most }
    ensures goes_on { result.1 ≡ true → most ≤ result.0 }
    ensures ends { result.1 ≡ false → result.0 < 2 * most }
    ensures writes { Writes T.Destination (F.grammar forms.now) (take result.0 src.now) dst.old dst.new }
    ensures slack { T.room dst.old ≤ T.room dst.new + 3 * most }
{
    let mut at = 0;
    let mut left = most;
    while left > 0 {
        let byte = src[at];
        let next = src[at + 1];
        match forms.form(byte, next) {
            CommonForm::Pair(c) => {
                dst.put(c);
                at += 2;
            }
            CommonForm::Single(c) => {
                dst.put(c);
                at += 1;
                if (byte | next) < 0x80 {
                    return (at, false);
                }
            }
            CommonForm::Other => return (at, false),
        }
        left -= 1;
    }
    (at, true)
}

/// Reads common forms from the front of at most `most` bytes, up to an uncommon one.
///
/// Returns the number of bytes read, which may be 0. If it reads any, three code units stay free.
// Four at a time: the compiler unrolls a loop of that size, so each place has its own branches, and the processor
// predicts each of them by its own history.
#[inline(always)]
pub fn read_forms<F: FrontForms, T: Destination>(
    forms: &F,
    src: &[u8],
    most: usize,
    dst: &mut T,
) -> usize
    ensures most { result ≤ most }
    ensures ahead { ReadsAhead T.Destination (new_state (F.grammar forms.now)) src.now result dst.old dst.new }
{
    let turns = fitting(src.len().min(most), dst.free().saturating_sub(SLACK));
    if turns == 0 {
        return 0;
    }
    let mut at = 0;
    let mut left = turns / 4;
    while left > 0 {
        let (read, goes_on) = read_turns(forms, &src[at..], dst, 4);
        at += read;
        if !goes_on {
            return at;
        }
        left -= 1;
    }
    at + read_turns(forms, &src[at..], dst, turns % 4).0
}
