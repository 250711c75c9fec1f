//! Runs the program that encodes, by its words, files and streams.
ghost use Rattle.std.specs.Prelude.{◌≡◌, ◌↔◌, ◌≤◌, ◌⊎◌, [], length, true, OnErr, OnOk, None, Some, IsTrue};
ghost use Rattle.legacy_coders.specs.Lists.{has_pairs};
ghost use Rattle.legacy_command.specs.Words.{texts_of, are_indexes, codec_of_words};
ghost use Rattle.legacy_command.specs.GivenTexts.{contents_of, text_given, AreWellFormed};
ghost use Rattle.legacy_command.specs.Program.{with_encoder, EncodesInput, EncodesSome, Untouched};
ghost use Rattle.legacy_command.specs.Program.{EncodesByTables, EncodesByTexts, EncodesByWords, EncodingStops};

use crate::given_indexes::read_files;
use crate::program::{Fault, check, flush_after, write_fault};
use crate::words::codec_in;
use legacy_codecs::RawEncoder;
use legacy_coders::{AnyEncoder, ListedEncoder, has_pairs, pair_room};
use legacy_index_files::{Codec, OwnedIndexes};
use legacy_streams::encode::encode_text;
use std::alloc::Global;
use std::io::{Read, Write};

/// Returns the codec that the words name, without the program's name.
///
/// Returns `None` if `codec_in` does not take the words or the codec has no encoder.
pub fn encoder_in(words: &[&str]) -> Option<Codec>
    ensures { result ≡ with_encoder (codec_of_words (texts_of words.now)) }
{
    let codec = codec_in(words)?;
    if codec.has_encoder() {
        return Some(codec);
    }
    None
}

/// Encodes the input by the encoder, with a list of its pairs if the memory for it is had.
fn encode_input<'a, R: Read, W: Write>(
    alloc: Global,
    encoder: &mut AnyEncoder,
    input: &mut R,
    output: &mut W,
) -> Result<(), Fault<'a>>
    ensures done { OnOk result (EncodesInput
        (⟦<AnyEncoder<'static> as RawEncoder>⟧.state encoder.old)
        (R.remaining input.old) (R.remaining input.new)
        (W.contents output.old) (W.contents output.new)) }
    ensures stops { OnErr result (EncodesSome
        (⟦<AnyEncoder<'static> as RawEncoder>⟧.state encoder.old)
        (R.remaining input.old) (R.remaining input.new)
        (W.contents output.old) (W.contents output.new)) }
{
    if has_pairs(encoder) {
        if let Ok(mut room) = pair_room(alloc) {
            return encode_listed(encoder, room.as_mut_slice(), input, output);
        }
    }
    encode_by(encoder, input, output)
}

/// Encodes the input by an encoder of pairs, with a list of its pairs in the room.
fn encode_listed<'a, R: Read, W: Write>(
    encoder: &AnyEncoder,
    room: &mut [u16],
    input: &mut R,
    output: &mut W,
) -> Result<(), Fault<'a>>
    requires pairs { has_pairs encoder.now ≡ true }
    requires room { length room.old ≡ 65536 }
    ensures done { OnOk result (EncodesInput
        (⟦<AnyEncoder<'static> as RawEncoder>⟧.state encoder.now)
        (R.remaining input.old) (R.remaining input.new)
        (W.contents output.old) (W.contents output.new)) }
    ensures stops { OnErr result (EncodesSome
        (⟦<AnyEncoder<'static> as RawEncoder>⟧.state encoder.now)
        (R.remaining input.old) (R.remaining input.new)
        (W.contents output.old) (W.contents output.new)) }
{
    let Some(mut listed) = ListedEncoder::new(encoder, room) else {
        unreachable!()
    };
    encode_by(&mut listed, input, output)
}

/// Encodes the input by an encoder and flushes the output, also if the input cannot be read.
fn encode_by<'a, E: RawEncoder, R: Read, W: Write>(
    encoder: &mut E,
    input: &mut R,
    output: &mut W,
) -> Result<(), Fault<'a>>
    ensures done { OnOk result (EncodesInput (E.state encoder.old)
        (R.remaining input.old) (R.remaining input.new)
        (W.contents output.old) (W.contents output.new)) }
    ensures stops { OnErr result (EncodesSome (E.state encoder.old)
        (R.remaining input.old) (R.remaining input.new)
        (W.contents output.old) (W.contents output.new)) }
{
    let encoded = encode_text(encoder, input, output);
    flush_after(encoded, output)
}

/// Checks the indexes, and encodes the input by the codec.
fn check_and_encode<'a, R: Read, W: Write>(
    alloc: Global,
    codec: Codec,
    indexes: &OwnedIndexes,
    input: &mut R,
    output: &mut W,
) -> Result<(), Fault<'a>>
    requires katakana { indexes.now.katakana.items ≡ [] }
    requires encoder { with_encoder (Some codec) ≡ Some codec }
    ensures done { OnOk result (EncodesByTables codec indexes.now (λ before. EncodesInput before
        (R.remaining input.old) (R.remaining input.new)
        (W.contents output.old) (W.contents output.new))) }
    ensures stops { OnErr result (
        Untouched (R.remaining input.old) (R.remaining input.new)
        (W.contents output.old) (W.contents output.new)
        ⊎ EncodesByTables codec indexes.now (λ before. EncodesSome before
        (R.remaining input.old) (R.remaining input.new)
        (W.contents output.old) (W.contents output.new))) }
{
    let checked = check(indexes)?;
    let Some(mut encoder) = AnyEncoder::new(codec, &checked.tables, Some(&checked.single_byte))
    else {
        unreachable!()
    };
    encode_input(alloc, &mut encoder, input, output)
}

/// Reads the files of the indexes that the words name, checks them, and encodes the input by the codec.
fn read_and_encode<'a, R: Read, W: Write>(
    alloc: Global,
    codec: Codec,
    indexes: &[&'a str],
    files: &[Option<&[u8]>],
    input: &mut R,
    output: &mut W,
) -> Result<(), Fault<'a>>
    requires indexes { IsTrue (are_indexes (texts_of indexes.now)) }
    requires encoder { with_encoder (Some codec) ≡ Some codec }
    ensures well_formed { OnOk result
        (AreWellFormed (texts_of indexes.now) (contents_of files.now)) }
    ensures encoded { OnOk result (EncodesByTexts codec
        (text_given (texts_of indexes.now) (contents_of files.now)) (λ before. EncodesInput before
        (R.remaining input.old) (R.remaining input.new)
        (W.contents output.old) (W.contents output.new))) }
    ensures stops { OnErr result (
        Untouched (R.remaining input.old) (R.remaining input.new)
        (W.contents output.old) (W.contents output.new)
        ⊎ (AreWellFormed (texts_of indexes.now) (contents_of files.now)
        × EncodesByTexts codec (text_given (texts_of indexes.now) (contents_of files.now))
        (λ before. EncodesSome before
        (R.remaining input.old) (R.remaining input.new)
        (W.contents output.old) (W.contents output.new)))) }
{
    let indexes = read_files(alloc, indexes, files)?;
    check_and_encode(alloc, codec, &indexes, input, output)
}

/// Runs the program that encodes on its words, without its name, and returns its status.
///
/// The words are CODEC, one that has an encoder, and then INDEX and FILE any number of times, no
/// INDEX twice. `files` has the contents of each FILE, in the same order, or `None` if it cannot be
/// read. A missing entry counts as `None`.
///
/// The program checks the words first, then the files in their order, then the indexes. Then it
/// encodes the input, a text in UTF-8: the output is its bytes, with a decimal numeric character
/// reference for each scalar that the encoding lacks. The output is flushed at the end.
///
/// - 0: each file was read and has no malformed line, and the whole text was written. References do
///   not change the status.
/// - 2: the words do not have that form; nothing is read.
/// - 1: a file cannot be read or has a malformed line; an index is refused; the input cannot be
///   read; the output cannot be written or flushed; or allocation failed. What was written is a
///   beginning of the whole output.
///
/// With 1 and 2 a line on `errors` gives the reason. If it cannot be written, the status is the
/// same.
pub fn run_encode<R: Read, W: Write, E: Write>(
    alloc: Global,
    words: &[&str],
    files: &[Option<&[u8]>],
    input: &mut R,
    output: &mut W,
    errors: &mut E,
) -> u8
    ensures statuses { result ≤ 2 }
    ensures usage { (result ≡ 2) ↔ (with_encoder (codec_of_words (texts_of words.now)) ≡ None) }
    ensures unread { result ≡ 2 → (input.new ≡ input.old) × (output.new ≡ output.old) }
    ensures encoded { result ≡ 0 → EncodesByWords (texts_of words.now) (contents_of files.now)
        (R.remaining input.old) (R.remaining input.new)
        (W.contents output.old) (W.contents output.new) }
    ensures stops { result ≡ 1 → EncodingStops (texts_of words.now) (contents_of files.now)
        (R.remaining input.old) (R.remaining input.new)
        (W.contents output.old) (W.contents output.new) }
    ensures silent { result ≡ 0 → errors.new ≡ errors.old }
{
    let Some(codec) = encoder_in(words) else {
        let _ = errors.write_all(b"usage: legacy_encode CODEC [INDEX FILE]...\n");
        return 2;
    };
    match read_and_encode(alloc, codec, &words[1..], files, input, output) {
        Ok(()) => 0,
        Err(fault) => {
            write_fault(&fault, errors);
            1
        }
    }
}
