//! The programs on a host: their words as texts, the contents of the files that these name, and the
//! streams.
ghost use Rattle.std.specs.Prelude.{◌≡◌, ◌≢◌, ◌↔◌, ◌≤◌, ◌-◌, ◌/◌, [], Some, None, Ok, Err, length, map, string_bytes, IfOk, IfErr, OnErr, MatchResult};
ghost use Rattle.std.specs.Option.{option_map};
ghost use Rattle.std.specs.IoError.{error_kind};
ghost use Rattle.legacy_command.specs.Words.{texts_of};
ghost use Rattle.legacy_command.specs.GivenTexts.{contents_of};
ghost use Rattle.legacy_command.specs.Host.{codec_asked, StatusSays, IsDoneBy, IsDone, IsStoppedBy, IsStopped};

use crate::arguments::{ArgumentsError, arguments, status_of};
use crate::encode_program::{encoder_in, run_encode};
use crate::program::run;
use crate::words::{codec_in, request};
use std::alloc::{Alloc, AllocError, Allocator, Global};
use std::env::Env;
use std::fs::{self, Files};
use std::io::{self, ErrorKind, Read, Write};

/// One of the two programs.
#[derive(Clone, Copy)]
pub enum Program {
    /// `legacy_recode`.
    Recode,
    /// `legacy_encode`.
    Encode,
}

/// Returns the words as texts.
fn words_of<'a, A: Allocator>(
    alloc: Global,
    arguments: &'a [String<A>],
) -> Result<Vec<&'a str>, AllocError>
    ensures { IfOk result (λ words. texts_of words.items
        ≡ map (λ argument. string_bytes argument) arguments.now) }
{
    let mut words = Vec::with_capacity(alloc, arguments.len())?;
    'words: for argument in arguments {
        words.push(argument.as_str())?;
    }
    Ok(words)
}

/// Returns what a read of a file gave: its bytes, or `None` if the file cannot be read.
///
/// If the read failed because an allocation did, the result is its error.
fn contents_of_read<A: Allocator>(read: io::Result<Vec<u8, A>>) -> io::Result<Option<Vec<u8, A>>>
    ensures { MatchResult read
        (λ bytes. result ≡ Ok (Some bytes))
        (λ error. ((error_kind error ≡ ErrorKind.OutOfMemory) → (result ≡ Err error))
        × ((error_kind error ≢ ErrorKind.OutOfMemory) → (result ≡ Ok None))) }
{
    match read {
        Ok(bytes) => Ok(Some(bytes)),
        Err(error) => match error.kind() {
            ErrorKind::OutOfMemory => Err(error),
            _ => Ok(None),
        },
    }
}

/// Returns the bytes of the file, or `None` if it cannot be read, or an error if allocation fails.
fn contents<R: Files + Alloc>(rt: &R, path: &str) -> io::Result<Option<Vec<u8, R::A>>> {
    contents_of_read(fs::read(rt, path))
}

/// Returns the contents of each FILE among the words in order, or an error if allocation fails.
///
/// The words are CODEC, and then INDEX and FILE any number of times.
fn files_of<R: Files + Alloc>(
    rt: &R,
    alloc: Global,
    words: &[&str],
) -> io::Result<Vec<Option<Vec<u8, R::A>>>>
    ensures { IfOk result (λ files. length files.items ≡ (length words.now - 1) / 2) }
{
    let mut files = Vec::new(alloc);
    let [_codec, indexes @ ..] = words else {
        return Ok(files);
    };
    let mut rest = indexes;
    'pairs: while let [_index, file, later @ ..] = rest {
        files.push(contents(rt, file)?)?;
        rest = later;
    }
    Ok(files)
}

/// Returns the files as slices.
fn slices_of<'a, A: Allocator>(
    alloc: Global,
    files: &'a [Option<Vec<u8, A>>],
) -> Result<Vec<Option<&'a [u8]>>, AllocError>
    ensures { IfOk result (λ slices. contents_of slices.items
        ≡ map (option_map (λ bytes. bytes.items)) files.now) }
{
    let mut slices = Vec::with_capacity(alloc, files.len())?;
    'files: for file in files {
        let slice = match file {
            Some(bytes) => Some(bytes.as_slice()),
            None => None,
        };
        slices.push(slice)?;
    }
    Ok(slices)
}

/// Returns the contents of each FILE among the words, in order, or an error if allocation fails.
///
/// Reads no file if the words do not have the program's form.
fn files_named<R: Files + Alloc>(
    rt: &R,
    alloc: Global,
    program: Program,
    words: &[&str],
) -> io::Result<Vec<Option<Vec<u8, R::A>>>>
    ensures { codec_asked program (texts_of words.now) ≡ None
        → IfOk result (λ files. files.items ≡ []) }
{
    let (rest, codec) = match program {
        Program::Recode => (request(words), codec_in(request(words))),
        Program::Encode => (words, encoder_in(words)),
    };
    if codec.is_some() {
        return files_of(rt, alloc, rest);
    }
    Ok(Vec::new(alloc))
}

/// Runs the program on its words, without its name, as `run` and `run_encode` do.
pub fn run_program<R: Read, W: Write, E: Write>(
    alloc: Global,
    program: Program,
    words: &[&str],
    files: &[Option<&[u8]>],
    input: &mut R,
    output: &mut W,
    errors: &mut E,
) -> u8
    ensures statuses { result ≤ 2 }
    ensures usage { (result ≡ 2) ↔ (codec_asked program (texts_of words.now) ≡ None) }
    ensures unread { result ≡ 2 → (input.new ≡ input.old) × (output.new ≡ output.old) }
    ensures done { result ≡ 0 → IsDoneBy program (texts_of words.now) (contents_of files.now)
        (R.remaining input.old) (R.remaining input.new)
        (W.contents output.old) (W.contents output.new) }
    ensures stops { result ≡ 1 → IsStoppedBy program (texts_of words.now) (contents_of files.now)
        (R.remaining input.old) (R.remaining input.new)
        (W.contents output.old) (W.contents output.new) }
    ensures silent { result ≡ 0 → errors.new ≡ errors.old }
{
    match program {
        Program::Recode => run(alloc, words, files, input, output, errors),
        Program::Encode => run_encode(alloc, words, files, input, output, errors),
    }
}

/// Runs the program on its words and the files that they name, if allocation succeeds.
fn status_by<H: Files + Alloc, R: Read, W: Write, E: Write>(
    rt: &H,
    alloc: Global,
    program: Program,
    words: &[&str],
    input: &mut R,
    output: &mut W,
    errors: &mut E,
) -> Result<u8, ArgumentsError>
    ensures ends { IfOk result (λ status. StatusSays program status
        (R.remaining input.old) (R.remaining input.new)
        (W.contents output.old) (W.contents output.new)
        ((input.new ≡ input.old) × (output.new ≡ output.old)) (errors.new ≡ errors.old)) }
    ensures usage { IfOk result (λ status.
        (status ≡ 2) ↔ (codec_asked program (texts_of words.now) ≡ None)) }
    ensures err { OnErr result ((input.new ≡ input.old) × (output.new ≡ output.old)) }
    ensures memory { IfErr result (λ error. error ≡ ArgumentsError.Memory) }
{
    let Ok(files) = files_named(rt, alloc, program, words) else {
        return Err(ArgumentsError::Memory);
    };
    let Ok(texts) = slices_of(alloc, files.as_slice()) else {
        return Err(ArgumentsError::Memory);
    };
    let texts = texts.as_slice();
    Ok(run_program(alloc, program, words, texts, input, output, errors))
}

/// Runs the program on its arguments, if allocation succeeds.
fn status<H: Files + Alloc, R: Read, W: Write, E: Write>(
    rt: &H,
    alloc: Global,
    program: Program,
    arguments: &[String<H::A>],
    input: &mut R,
    output: &mut W,
    errors: &mut E,
) -> Result<u8, ArgumentsError>
    ensures ends { IfOk result (λ status. StatusSays program status
        (R.remaining input.old) (R.remaining input.new)
        (W.contents output.old) (W.contents output.new)
        ((input.new ≡ input.old) × (output.new ≡ output.old)) (errors.new ≡ errors.old)) }
    ensures usage { IfOk result (λ status. (status ≡ 2)
        ↔ (codec_asked program (map (λ argument. string_bytes argument) arguments.now) ≡ None)) }
    ensures err { OnErr result ((input.new ≡ input.old) × (output.new ≡ output.old)) }
    ensures memory { IfErr result (λ error. error ≡ ArgumentsError.Memory) }
{
    let Ok(words) = words_of(alloc, arguments) else {
        return Err(ArgumentsError::Memory);
    };
    let words = words.as_slice();
    status_by(rt, alloc, program, words, input, output, errors)
}

/// Runs the program on the host, and returns its exit status.
///
/// It is 0 if the program did its task, and 2 if the words do not have its form or are not UTF-8
/// text: then nothing is read or written. Otherwise it is 1, and what was written is a beginning
/// of the whole output.
pub fn exit_status<H: Env + Files + Alloc, R: Read, W: Write, E: Write>(
    rt: &H,
    alloc: Global,
    program: Program,
    input: &mut R,
    output: &mut W,
    errors: &mut E,
) -> u8
    ensures statuses { result ≤ 2 }
    ensures unread { result ≡ 2 → (input.new ≡ input.old) × (output.new ≡ output.old) }
    ensures done { result ≡ 0 → IsDone program
        (R.remaining input.old) (R.remaining input.new)
        (W.contents output.old) (W.contents output.new) }
    ensures stops { result ≡ 1 → IsStopped program
        (R.remaining input.old) (R.remaining input.new)
        (W.contents output.old) (W.contents output.new) }
    ensures silent { result ≡ 0 → errors.new ≡ errors.old }
{
    exit_status_of(rt, alloc, program, arguments(rt), input, output, errors)
}

/// Runs the program on its arguments, without its name, or on why they are not available.
///
/// Returns the exit status as `exit_status` does. It is 2 only if the arguments do not have the
/// program's form or are not UTF-8 text. In the first case it is 1 if an allocation failed before.
pub fn exit_status_of<H: Files + Alloc, R: Read, W: Write, E: Write>(
    rt: &H,
    alloc: Global,
    program: Program,
    arguments: Result<Vec<String<H::A>, H::A>, ArgumentsError>,
    input: &mut R,
    output: &mut W,
    errors: &mut E,
) -> u8
    ensures statuses { result ≤ 2 }
    ensures usage { MatchResult arguments
        (λ words. let asked = codec_asked program (map (λ word. string_bytes word) words.items) in
        ((result ≡ 2) → (asked ≡ None)) × ((asked ≡ None) → (result ≢ 0)))
        (λ error. ((result ≡ 2) ↔ (error ≡ ArgumentsError.NotText)) × (result ≢ 0)) }
    ensures unread { result ≡ 2 → (input.new ≡ input.old) × (output.new ≡ output.old) }
    ensures done { result ≡ 0 → IsDone program
        (R.remaining input.old) (R.remaining input.new)
        (W.contents output.old) (W.contents output.new) }
    ensures stops { result ≡ 1 → IsStopped program
        (R.remaining input.old) (R.remaining input.new)
        (W.contents output.old) (W.contents output.new) }
    ensures silent { result ≡ 0 → errors.new ≡ errors.old }
{
    match arguments {
        Ok(words) => match status(rt, alloc, program, words.as_slice(), input, output, errors) {
            Ok(status) => status,
            Err(error) => end_with(&error, errors),
        },
        Err(error) => end_with(&error, errors),
    }
}

/// Writes a line with the reason why there is no status, and returns the exit status for it.
fn end_with<E: Write>(error: &ArgumentsError, errors: &mut E) -> u8
    ensures not_text { error.now ≡ ArgumentsError.NotText → result ≡ 2 }
    ensures others { error.now ≢ ArgumentsError.NotText → result ≡ 1 }
{
    let _ = writeln!(errors, "{error}");
    status_of(error)
}
