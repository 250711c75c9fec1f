//! Runs the program that decodes, by its words, files and streams.
ghost use Rattle.std.specs.Prelude.{◌≡◌, ◌↔◌, ◌≤◌, ◌⊎◌, [], IfOk, IfErr, OnErr, OnOk, Err, MatchResult, None, Some, IsTrue};
ghost use Rattle.std.specs.Io.KnownBytes.{Keeps};
ghost use Rattle.legacy_command.specs.Words.{texts_of, are_indexes, words_after_option, codec_of_words};
ghost use Rattle.legacy_command.specs.GivenTexts.{contents_of, text_given, AreWellFormed};
ghost use Rattle.legacy_command.specs.Program.{flat_of, RecodesInput, RecodesSome, Untouched};
ghost use Rattle.legacy_command.specs.Program.{DecodesByTables, DecodesByTexts, RecodesByWords, RecodingStops};

use crate::given_indexes::read_files;
use crate::words::{OutputKind, codec_in, output_asked, request};
use legacy_codecs::{RawDecoder, SingleByteTable, TableError, Tables};
use legacy_coders::AnyDecoder;
use legacy_index_files::{Codec, OwnedIndexes};
use legacy_streams::recode::{RecodeError, recode};
use legacy_streams::text::recode_text;
use std::alloc::Global;
use std::io::{self, Read, Write};
use thiserror::Error;

/// The reason why the program ends with status 1.
#[derive(Debug, PartialEq, Eq, Drop, Error)]
pub enum Fault<'a> {
    /// The file cannot be read.
    #[error("{0}: cannot be read")]
    Unread(&'a str),
    /// The line of the file, counted from 1, is malformed or has a pointer or value out of range.
    #[error("{0}: line {1}")]
    Line(&'a str, usize),
    /// The indexes or the single-byte table are refused.
    #[error("tables: {0}")]
    Tables(TableError),
    /// The input cannot be read, or the output cannot be written.
    #[error("{0}")]
    Recode(RecodeError),
    /// Allocation failed.
    #[error("memory")]
    Memory,
}

/// Writes a line with the reason why the program ends. If it cannot be written, nothing else changes.
pub(crate) fn write_fault<E: Write>(fault: &Fault<'_>, errors: &mut E) {
    let _ = writeln!(errors, "{fault}");
}

/// Flushes the output after this was written.
///
/// Returns the error of what was written if there is one, and otherwise that of the flush.
pub(crate) fn flush_after<'a, T: Drop, W: Write>(
    written: Result<T, RecodeError>,
    output: &mut W,
) -> Result<(), Fault<'a>>
    ensures bytes { Keeps (W.contents output.old) (W.contents output.new) }
    ensures ok { OnOk result (OnErr written ⊥) }
    ensures kind { MatchResult written
        (λ _. IfErr result (λ fault. fault ≡ Fault.Recode RecodeError.Write))
        (λ error. result ≡ Err (Fault.Recode error)) }
{
    let flushed = output.flush();
    ended(written, flushed)
}

/// Returns the error of what was written if there is one, and otherwise that of the flush after it.
fn ended<'a, T: Drop>(
    written: Result<T, RecodeError>,
    flushed: io::Result<()>,
) -> Result<(), Fault<'a>>
    ensures { MatchResult written
        (λ _. MatchResult flushed
        (λ _. OnErr result ⊥)
        (λ _. result ≡ Err (Fault.Recode RecodeError.Write)))
        (λ error. result ≡ Err (Fault.Recode error)) }
{
    match written {
        Ok(_) => match flushed {
            Ok(()) => Ok(()),
            Err(_) => Err(Fault::Recode(RecodeError::Write)),
        },
        Err(fault) => Err(Fault::Recode(fault)),
    }
}

/// Recodes the input by the decoder and flushes the output, also if the input cannot be read.
fn recode_and_flush<'a, D: RawDecoder, R: Read, W: Write>(
    kind: OutputKind,
    decoder: &mut D,
    input: &mut R,
    output: &mut W,
) -> Result<(), Fault<'a>>
    ensures done { OnOk result (RecodesInput kind (D.state decoder.old)
        (R.remaining input.old) (R.remaining input.new)
        (W.contents output.old) (W.contents output.new)) }
    ensures stops { OnErr result (RecodesSome kind (D.state decoder.old)
        (R.remaining input.old) (R.remaining input.new)
        (W.contents output.old) (W.contents output.new)) }
{
    match kind {
        OutputKind::Lines => {
            let recoded = recode(decoder, input, output);
            flush_after(recoded, output)
        }
        OutputKind::Text => {
            let recoded = recode_text(decoder, input, output);
            flush_after(recoded, output)
        }
    }
}

/// Index data that passed the check.
#[derive(Drop)]
pub(crate) struct CheckedIndexes<'a> {
    pub(crate) tables: Tables<'a>,
    pub(crate) single_byte: SingleByteTable,
}

/// Checks the indexes. None of them is the katakana index.
pub(crate) fn check<'a, 'b>(indexes: &'a OwnedIndexes) -> Result<CheckedIndexes<'a>, Fault<'b>>
    requires { indexes.now.katakana.items ≡ [] }
    ensures { IfOk result (λ checked. (checked.tables.flat ≡ flat_of indexes.now)
        × (checked.single_byte.entries ≡ indexes.now.single_byte)) }
{
    let tables = match indexes.tables() {
        Ok(tables) => tables,
        Err(fault) => return Err(Fault::Tables(fault)),
    };
    match indexes.single_byte_table() {
        Ok(single_byte) => Ok(CheckedIndexes {
            tables,
            single_byte,
        }),
        Err(fault) => Err(Fault::Tables(fault)),
    }
}

/// Checks the indexes, and recodes the input by the codec.
fn check_and_recode<'a, R: Read, W: Write>(
    kind: OutputKind,
    codec: Codec,
    indexes: &OwnedIndexes,
    input: &mut R,
    output: &mut W,
) -> Result<(), Fault<'a>>
    requires { indexes.now.katakana.items ≡ [] }
    ensures done { OnOk result (DecodesByTables codec indexes.now (λ before. RecodesInput kind before
        (R.remaining input.old) (R.remaining input.new)
        (W.contents output.old) (W.contents output.new))) }
    ensures stops { OnErr result (
        Untouched (R.remaining input.old) (R.remaining input.new)
        (W.contents output.old) (W.contents output.new)
        ⊎ DecodesByTables codec indexes.now (λ before. RecodesSome kind before
        (R.remaining input.old) (R.remaining input.new)
        (W.contents output.old) (W.contents output.new))) }
{
    let checked = check(indexes)?;
    let Some(mut decoder) = AnyDecoder::new(codec, &checked.tables, Some(&checked.single_byte))
    else {
        unreachable!()
    };
    recode_and_flush(kind, &mut decoder, input, output)
}

/// Reads the files of the indexes that the words name, checks them, and recodes the input by the codec.
fn read_and_recode<'a, R: Read, W: Write>(
    alloc: Global,
    kind: OutputKind,
    codec: Codec,
    indexes: &[&'a str],
    files: &[Option<&[u8]>],
    input: &mut R,
    output: &mut W,
) -> Result<(), Fault<'a>>
    requires { IsTrue (are_indexes (texts_of indexes.now)) }
    ensures well_formed { OnOk result
        (AreWellFormed (texts_of indexes.now) (contents_of files.now)) }
    ensures recoded { OnOk result (DecodesByTexts codec
        (text_given (texts_of indexes.now) (contents_of files.now)) (λ before. RecodesInput kind before
        (R.remaining input.old) (R.remaining input.new)
        (W.contents output.old) (W.contents output.new))) }
    ensures stops { OnErr result (
        Untouched (R.remaining input.old) (R.remaining input.new)
        (W.contents output.old) (W.contents output.new)
        ⊎ (AreWellFormed (texts_of indexes.now) (contents_of files.now)
        × DecodesByTexts codec (text_given (texts_of indexes.now) (contents_of files.now))
        (λ before. RecodesSome kind before
        (R.remaining input.old) (R.remaining input.new)
        (W.contents output.old) (W.contents output.new)))) }
{
    let indexes = read_files(alloc, indexes, files)?;
    check_and_recode(kind, codec, &indexes, input, output)
}

/// Runs the program on its words, without the program's name, and returns its status.
///
/// The words are CODEC, and then INDEX and FILE any number of times, no INDEX twice. `--text` may
/// come before them. `files` has the contents of each FILE, in the same order, or `None` if it
/// cannot be read. A missing entry counts as `None`.
///
/// The program checks the words first, then the files in their order, then the indexes. Then it
/// recodes the input: the output is a line for each event. With `--text` the output is the text in
/// UTF-8, with U+FFFD for each malformed sequence. The output is flushed at the end.
///
/// - 0: each file was read and has no malformed line, and all events or the whole text were
///   written. Malformed sequences in the input do not change the status.
/// - 2: the words do not have that form; nothing is read.
/// - 1: a file cannot be read or has a malformed line; an index is refused; the input cannot be
///   read; the output cannot be written or flushed; or allocation failed. What was written is a
///   beginning of the whole output.
///
/// With 1 and 2 a line on `errors` gives the reason. If it cannot be written, the status is the
/// same.
pub fn run<R: Read, W: Write, E: Write>(
    alloc: Global,
    words: &[&str],
    files: &[Option<&[u8]>],
    input: &mut R,
    output: &mut W,
    errors: &mut E,
) -> u8
    ensures statuses { result ≤ 2 }
    ensures usage { (result ≡ 2) ↔ (codec_of_words (words_after_option (texts_of words.now)) ≡ None) }
    ensures unread { result ≡ 2 → (input.new ≡ input.old) × (output.new ≡ output.old) }
    ensures recoded { result ≡ 0 → RecodesByWords (texts_of words.now) (contents_of files.now)
        (R.remaining input.old) (R.remaining input.new)
        (W.contents output.old) (W.contents output.new) }
    ensures stops { result ≡ 1 → RecodingStops (texts_of words.now) (contents_of files.now)
        (R.remaining input.old) (R.remaining input.new)
        (W.contents output.old) (W.contents output.new) }
    ensures silent { result ≡ 0 → errors.new ≡ errors.old }
{
    let kind = output_asked(words);
    let rest = request(words);
    let Some(codec) = codec_in(rest) else {
        let _ = errors.write_all(b"usage: legacy_recode [--text] CODEC [INDEX FILE]...\n");
        return 2;
    };
    match read_and_recode(alloc, kind, codec, &rest[1..], files, input, output) {
        Ok(()) => 0,
        Err(fault) => {
            write_fault(&fault, errors);
            1
        }
    }
}
