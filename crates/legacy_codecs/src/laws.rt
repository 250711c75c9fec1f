//! Laws of the definitions and of many calls together, each as the contract of a function that does nothing.
ghost use Rattle.legacy_base.specs.Laws.{AreReadByFronts, HasNoneOfNothing, HasSoundEvents};
ghost use Rattle.legacy_base.specs.Lengths.{to_utf16, to_utf8, to_utf8_without_replacement};
ghost use Rattle.legacy_text.specs.EncodingForm.{Utf8, Utf16};
ghost use Rattle.legacy_base.specs.RoundTrips.{RoundTrips, EscapesAreInPlace, ReencodesToTheSame, EncodesWellFormed, EscapesStayApart, ReencodesAnyText};
ghost use Rattle.legacy_codecs.specs.QueriedOutput.{QueriedLengthSuffices, ReplacingQueriedLengthSuffices};
ghost use Rattle.legacy_codecs.specs.EncodeFilling.{EncodeQueriedLengthSuffices};
ghost use Rattle.legacy_codecs.specs.EncodeRuns.{EncodeCutsDoNotMatter};
ghost use Rattle.legacy_codecs.specs.RoundTripRuns.{RunsEncode, RunsRoundTrip, RunsReencodeToTheSame, RunsEncodeWellFormed};
ghost use Rattle.legacy_codecs.specs.Runs.{CutsDoNotMatter};
ghost use Rattle.legacy_codecs.specs.ReferenceRoundTrips.{ReferencesRoundTrip, ReferencesKeepEscapesApart, ReencodesReferences, RunsReadReferences};
ghost use Rattle.legacy_codecs.specs.ByteRoundTrips.{BytesRoundTrip, RunsKeepBytes};
ghost use Rattle.legacy_codecs.specs.StandardRuns.{RunsAreDecodedByHandlers, RunsAreEncodedByHandlers};
ghost use Rattle.legacy_codecs.specs.StandardTexts.{TextsAreDecodedByHandlers, TextsAreEncodedByHandlers};

pub use legacy_standard::{
    decoders_are_the_standards, encoders_are_the_standards, private_use_rows_are_the_standards,
};

/// Shows that the events of a list that is not empty are those of its front, and then of the rest.
///
/// So each list has exactly one list of events, by its fronts. Each front has one to four bytes of
/// the list. It is malformed or gives one scalar or two, which are Unicode scalar values if the
/// tables passed their check. It holds of the seven codecs that are read front by front.
pub fn lists_are_read_by_fronts()
    ensures { AreReadByFronts }
{}

/// Shows that an empty list has no events, in any codec.
pub fn nothing_has_no_events()
    ensures { HasNoneOfNothing }
{}

/// Shows what each event of each list is, in every codec.
///
/// A malformed sequence has one to four bytes and is inside the list. A scalar is a Unicode scalar
/// value, if the codec's tables passed their check and the list is of bytes.
pub fn events_are_sound()
    ensures { HasSoundEvents }
{}

/// Shows that finished runs return what the Standard's decoders and encoders give.
///
/// Let a new decoder, as `new` makes it, read bytes to their end in a finished run. Run over all
/// these bytes, the handler of the Standard's decoder finishes with the same code points and
/// errors, however the bytes were cut. Each error has the place and length of the malformed
/// sequence.
///
/// Let a new encoder write a text to its end in a finished run. Run over the whole text, the handler
/// of the Standard's encoder finishes with the same bytes and errors. For that, the ranges of
/// GB18030 must be accepted, and the tables need these pointers, which the Standard's indexes have:
///
/// - in Shift_JIS one for U+FF0D;
/// - in EUC-JP and ISO-2022-JP one below 8836 for U+FF0D and for each scalar of index jis0208;
/// - in ISO-2022-JP one for the entry of each half-width katakana, which the encoder looks up as it
///   is;
/// - in GB18030 one for each scalar that has no other bytes.
///
/// `docs/DIFFERENCES.md` has the smallest tables that lack one, and what differs with them.
pub fn runs_are_the_standards()
    ensures decoders { RunsAreDecodedByHandlers }
    ensures encoders { RunsAreEncodedByHandlers }
{
    // A finished run returns all events of its input, and the handlers give the same ones.
}

/// Shows that calls over whole inputs and texts return what the Standard's coders give.
///
/// Let a new decoder read a whole input, as `decode_whole`, `malformed_sequences` and `transcode`
/// do. The handler of the Standard's decoder gives the same text in error mode "replacement". The
/// malformed sequences are its errors, as in `runs_are_the_standards`.
///
/// Let a new encoder write a whole text, as `encode_whole` and `transcode` do, with ranges and
/// pointers as in `runs_are_the_standards`. The handler of the Standard's encoder gives the same
/// bytes in error mode "html".
pub fn texts_are_the_standards()
    ensures decoders { TextsAreDecodedByHandlers }
    ensures encoders { TextsAreEncodedByHandlers }
{
    // These calls return all events of their input, and the handlers give the same ones.
}

/// Shows that a length queried of a decoder for all bytes to come suffices for all calls over them.
///
/// Let an output have at least the length that one of a decoder's three length queries returned for
/// at least the bytes to come. Let calls write into that output, each into its free part, until
/// these bytes are read in pieces of any lengths. If the query counts U+FFFD, let it be written
/// after each `Malformed`. Then no call returns `OutputFull`, and what is written always fits.
///
/// The same holds of calls with replacement, such as `decode_replacing_utf8`, and the two queries
/// that count U+FFFD.
pub fn queried_length_suffices()
    ensures utf16 { QueriedLengthSuffices to_utf16 }
    ensures utf8 { QueriedLengthSuffices to_utf8 }
    ensures utf8_without_replacement { QueriedLengthSuffices to_utf8_without_replacement }
    ensures replacing_utf16 { ReplacingQueriedLengthSuffices Utf16 }
    ensures replacing_utf8 { ReplacingQueriedLengthSuffices Utf8 }
{
    // Each call lowers what the rest needs by at least what it writes.
}

/// Shows that two finished runs over the same bytes return the same events.
///
/// Let decoders read the same bytes from one state, cut into pieces in any two ways, with outputs
/// of any lengths, in UTF-8 or UTF-16. If both runs are finished, they return the same scalars and
/// malformed sequences in the same order. No place and no length depends on the cuts.
pub fn cuts_do_not_matter()
    ensures { CutsDoNotMatter }
{
    // The events of a finished run are those of the grammar for all its bytes together.
}

/// Shows that a length queried of an encoder for all code units to come suffices for all calls.
///
/// Let an output have at least the length that one of an encoder's two length queries returned for
/// at least the code units of UTF-8 or UTF-16 to come. Let calls write into that output, each into
/// its free part, until the text is at its end, in pieces of any lengths. Let nothing be written
/// for an unmappable scalar. Then no call returns `OutputFull`.
pub fn encode_queried_length_suffices()
    ensures from_utf16 { EncodeQueriedLengthSuffices Utf16 }
    ensures from_utf8 { EncodeQueriedLengthSuffices Utf8 }
{
    // Each byte that a call writes lowers what the rest of the text needs.
}

/// Shows that two finished runs over the same scalars return the same events.
///
/// Let encoders read the same scalars from one state, cut into pieces in any two ways, with outputs
/// of any lengths. The text is in UTF-8 or UTF-16, and in UTF-16 each piece is read alone. If both
/// runs are finished, they return the same bytes and the same unmappable scalars in the same order.
pub fn encode_cuts_do_not_matter()
    ensures { EncodeCutsDoNotMatter }
{
    // The events of a finished run are those of the codec for all its scalars together.
}

/// Shows that an encoded text decodes to the same text.
///
/// Let a new encoder write a text to its end, with no scalar unmappable. Then the decoder of the
/// same encoding and tables reads the bytes as the scalars of the text, and nothing is malformed.
/// GBK is read as GB18030, and an ISO-2022-JP decoder begins in ASCII mode.
///
/// The text must have no fold, which is a scalar that is written with the bytes of another one:
///
/// - in EUC-JP and Shift_JIS U+00A5, U+203E and U+2212;
/// - in ISO-2022-JP U+2212 and U+FF61 to U+FF9F;
/// - in GB18030 and GBK those scalars of the private-use rows whose bytes do not decode to them.
///
/// The output of an ISO-2022-JP encoder for such a text ends in ASCII mode. Bytes after it are read
/// from there, if they do not begin with an escape of their own. No two escapes in it are adjacent.
///
/// The same holds of runs. A finished run of an encoder writes the bytes of its text, from UTF-8
/// and UTF-16. Any finished run of a decoder over them returns the scalars of the text, however
/// both are cut and whatever lengths the outputs have.
pub fn round_trips()
    ensures texts { RoundTrips }
    ensures escapes { EscapesAreInPlace }
    ensures written { RunsEncode }
    ensures runs { RunsRoundTrip }
{
    // The code of a scalar that is no fold is read as that scalar, whatever comes after it.
}

/// Shows that an encoded text decodes to a text that is encoded as the same bytes.
///
/// Let a new encoder write a text to its end as in `round_trips`: nothing is unmappable, and no
/// scalar is a fold. Then the text that the decoder of the same encoding and tables reads from the
/// bytes is encoded as these bytes again. The same holds of finished runs, however all three are
/// cut.
///
/// It also holds of any text, with unmappable scalars and with folds, under two conditions: the
/// bytes are well formed as `encodes_well_formed` says, and each fold has the code of the scalar
/// that it is read as. In EUC-JP and Shift_JIS each fold has that code for all tables. In GB18030
/// and GBK it depends on the private-use rows, and in ISO-2022-JP on the katakana index.
///
/// It does not hold of other bytes, even if nothing in them is malformed: a scalar may have several
/// forms, of which an encoder writes one.
pub fn reencodes_to_the_same()
    ensures texts { ReencodesToTheSame }
    ensures any_text { ReencodesAnyText }
    ensures runs { RunsReencodeToTheSame }
{
    // The decoded text is the text itself, or has scalars with the same codes.
}

/// Shows that the output of an encoder is well formed.
///
/// Let a new encoder write any text to its end, with nothing for an unmappable scalar. Then the
/// decoder of the same encoding and tables reads each scalar that has a code, and nothing is
/// malformed. A fold is read as the scalar with whose bytes it is written. That holds of every text
/// in all encodings but three:
///
/// - In GB18030 and GBK the text must have no scalar of a private-use row whose bytes have no
///   scalar in index gb18030. In the Standard's own tables there is none, which is not proved here.
/// - In ISO-2022-JP no two escapes may meet in the bytes: the first of two is malformed. They never
///   meet if nothing is unmappable.
///
/// The same holds of runs: any finished run of a decoder over the bytes of a finished run of an
/// encoder.
pub fn encodes_well_formed()
    ensures texts { EncodesWellFormed }
    ensures escapes { EscapesStayApart }
    ensures runs { RunsEncodeWellFormed }
{
    // An unmappable scalar leaves no bytes, so what is read are the codes of the others.
}

/// Shows that a text encoded with references decodes to itself, with the references.
///
/// Let a new encoder write any text to its end, with a decimal reference for each unmappable scalar
/// (`&#233;`, the Standard's error mode "html"), as `encode_whole` does. Then the decoder of the
/// same encoding and tables reads each scalar that has a code, and for each other one the characters
/// of its reference. Nothing is malformed. A fold is read as the scalar with whose bytes it is
/// written. In ISO-2022-JP the reference for U+000E, U+000F and U+001B is that of U+FFFD.
///
/// In GB18030 and GBK the text must have no scalar of a private-use row whose bytes have no scalar
/// in index gb18030. In all other encodings this holds of every text. In ISO-2022-JP the bytes end
/// in ASCII mode, and no two escapes in them are adjacent.
///
/// The text that is read is encoded as the same bytes again, if each fold has the code of the scalar
/// that it is read as (`reencodes_to_the_same`).
///
/// Runs read the same: any finished run of a decoder over the bytes and references of a finished run
/// of an encoder.
pub fn references_round_trip()
    ensures texts { ReferencesRoundTrip }
    ensures escapes { ReferencesKeepEscapesApart }
    ensures again { ReencodesReferences }
    ensures runs { RunsReadReferences }
{
    // Every encoder writes the characters of a reference as themselves.
}

/// Shows that well-formed bytes are encoded to themselves again, in encodings of single bytes.
///
/// Let the decoder of a single-byte encoding with an accepted table, or of x-user-defined, read
/// bytes with nothing malformed. Then a new encoder with the same table writes the text that it
/// read as exactly these bytes, and no scalar is unmappable. The same holds of finished runs,
/// however the bytes and the text are cut.
///
/// `docs/DIFFERENCES.md` has counterexamples in ISO-2022-JP and gb18030.
pub fn bytes_round_trip()
    ensures texts { BytesRoundTrip }
    ensures runs { RunsKeepBytes }
{
    // No two bytes are read as the same scalar.
}
