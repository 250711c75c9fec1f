//! The indexes that the program reads from files.
ghost use Rattle.std.specs.Prelude.{◌≡◌, ◌⊎◌, [], IfErr, IfOk, OnOk, IsTrue};
ghost use Rattle.legacy_index_files.specs.OwnedIndexes.{HoldsTexts};
ghost use Rattle.legacy_command.specs.Words.{texts_of, are_indexes};
ghost use Rattle.legacy_command.specs.GivenTexts.{text_given, contents_of, AreWellFormed, IsFirstFault};

use crate::program::Fault;
use crate::words::first_index;
use legacy_index_files::{IndexFileError, OwnedIndexes, read_index};
use std::alloc::Global;

/// Reads the files of the indexes that the words name, in their order.
///
/// The words are INDEX and FILE any number of times. `files` has the contents of each FILE, in the
/// same order, or `None` if it cannot be read. A missing entry counts as `None`.
///
/// Returns an error if a file cannot be read or has a malformed line, or if allocation fails. The
/// error gives the first such file, and its first malformed line.
pub fn read_files<'a>(
    alloc: Global,
    words: &[&'a str],
    files: &[Option<&[u8]>],
) -> Result<OwnedIndexes, Fault<'a>>
    requires { IsTrue (are_indexes (texts_of words.now)) }
    ensures texts { IfOk result (HoldsTexts (text_given (texts_of words.now) (contents_of files.now))) }
    ensures well_formed { OnOk result
        (AreWellFormed (texts_of words.now) (contents_of files.now)) }
    ensures fault { IfErr result (λ fault. (fault ≡ Fault.Memory)
        ⊎ IsFirstFault (texts_of words.now) (contents_of files.now) fault) }
    ensures katakana { IfOk result (λ indexes. indexes.katakana.items ≡ []) }
{
    let [_index, file, later_words @ ..] = words else {
        return Ok(OwnedIndexes::new(alloc));
    };
    let Some(name) = first_index(words) else {
        unreachable!()
    };
    let Some((Some(text), later_files)) = files.split_first() else {
        return Err(Fault::Unread(file));
    };
    let table = match read_index(alloc, name, text) {
        Ok(table) => table,
        Err(IndexFileError::Line(line)) => return Err(Fault::Line(file, line)),
        Err(IndexFileError::Memory) => return Err(Fault::Memory),
    };
    let mut indexes = read_files(alloc, later_words, later_files)?;
    indexes.set(name, table);
    Ok(indexes)
}
