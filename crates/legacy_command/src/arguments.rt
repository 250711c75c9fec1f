//! The words after the program's name.
ghost use Rattle.std.specs.Prelude.{◌≡◌, ◌≢◌, drop, Err, IfOk, MatchResult};
ghost use Rattle.std.specs.IoError.{error_kind};
ghost use Rattle.std.specs.Vec.Iter.{into_iter_items};

use std::alloc::{Alloc, AllocError, Allocator};
use std::env::{self, Args, Env};
use std::io::{self, ErrorKind};
use thiserror::Error;

/// The reason why the words are not available.
#[derive(Debug, PartialEq, Eq, Drop, Error)]
pub enum ArgumentsError {
    /// A word is not UTF-8 text.
    #[error("arguments: not UTF-8")]
    NotText,
    /// The system does not provide them.
    #[error("arguments: cannot be read")]
    Unread,
    /// Allocation failed.
    #[error("memory")]
    Memory,
}

/// Returns the exit status of a program that has no words.
///
/// It is 2 if a word is not UTF-8 text, as for other invalid words, and 1 otherwise.
pub fn status_of(error: &ArgumentsError) -> u8
    ensures not_text { error.now ≡ ArgumentsError.NotText → result ≡ 2 }
    ensures unread { error.now ≡ ArgumentsError.Unread → result ≡ 1 }
    ensures memory { error.now ≡ ArgumentsError.Memory → result ≡ 1 }
{
    match error {
        ArgumentsError::NotText => 2,
        ArgumentsError::Unread | ArgumentsError::Memory => 1,
    }
}

/// Returns the error that an I/O error of this kind means for the words.
fn fault_of(kind: ErrorKind) -> ArgumentsError
    ensures not_text { kind ≡ ErrorKind.InvalidData → result ≡ ArgumentsError.NotText }
    ensures memory { kind ≡ ErrorKind.OutOfMemory → result ≡ ArgumentsError.Memory }
    ensures unread { kind ≢ ErrorKind.InvalidData → kind ≢ ErrorKind.OutOfMemory
        → result ≡ ArgumentsError.Unread }
{
    match kind {
        ErrorKind::InvalidData => ArgumentsError::NotText,
        ErrorKind::OutOfMemory => ArgumentsError::Memory,
        _ => ArgumentsError::Unread,
    }
}

/// Returns the words after the first one, which is the program's name.
fn after_name<A: Allocator>(alloc: A, all: Args<A>) -> Result<Vec<String<A>, A>, AllocError>
    ensures { IfOk result (λ words. words.items ≡ drop 1 (into_iter_items all)) }
{
    let mut words = all;
    let _name = words.next();
    words.collect(alloc)
}

/// Returns the words after the first one of those that the system provides, or why there are none.
fn words_after_name<A: Allocator>(
    alloc: A,
    provided: io::Result<Args<A>>,
) -> Result<Vec<String<A>, A>, ArgumentsError>
    ensures { MatchResult provided
        (λ all. MatchResult result
        (λ words. words.items ≡ drop 1 (into_iter_items all))
        (λ error. error ≡ ArgumentsError.Memory))
        (λ error. let kind = error_kind error in
        ((kind ≡ ErrorKind.InvalidData) → (result ≡ Err ArgumentsError.NotText))
        × ((kind ≡ ErrorKind.OutOfMemory) → (result ≡ Err ArgumentsError.Memory))
        × ((kind ≢ ErrorKind.InvalidData) → (kind ≢ ErrorKind.OutOfMemory)
        → (result ≡ Err ArgumentsError.Unread))) }
{
    let all = match provided {
        Ok(all) => all,
        Err(error) => return Err(fault_of(error.kind())),
    };
    match after_name(alloc, all) {
        Ok(words) => Ok(words),
        Err(_) => Err(ArgumentsError::Memory),
    }
}

/// Returns the words after the program's name, in their order.
///
/// Returns an error if a word is not UTF-8 text, the system does not provide the words, or
/// allocation fails.
pub fn arguments<R: Env + Alloc>(rt: &R) -> Result<Vec<String<R::A>, R::A>, ArgumentsError> {
    words_after_name(rt.alloc(), env::args(rt))
}
