//! The decoders and encoders as the WHATWG Encoding Standard writes them, handler by handler.
//!
//! Laws show that the decoders and encoders of this repository give the same results. The functions
//! do nothing: each has a law as its contract.
#![tactic(auto)]

ghost use Rattle.std.specs.Prelude.{◌≡◌};
ghost use Rattle.legacy_tables.specs.declared.tables.private_use.TheConstants.{GB18030_2022_PUA};
ghost use Rattle.legacy_standard.specs.DecoderLaw.{AreDecodedByHandlers};
ghost use Rattle.legacy_standard.specs.EncoderLaw.{AreEncodedByHandlers};
ghost use Rattle.legacy_standard.specs.Gb18030Encoder.{private_use_rows};
ghost use Rattle.legacy_standard.specs.WorkedBytes.{ComputeWorkedBytes};
ghost use Rattle.legacy_standard.specs.WorkedTexts.{ComputeWorkedTexts, PartWithoutPointers, HavePointers};

/// Shows that each decoder's grammar gives the events of the Standard's handler.
///
/// The handler of each decoder finishes over every list of bytes, with any indexes. Its code points
/// and errors are the grammar's events, with the place and length of each malformed sequence. In
/// nine decoders that sequence consists of the bytes that the handler has read since it last
/// returned anything but continue, without those that it restored. In ISO-2022-JP
/// `length_and_after` says how long it is, and how many bytes the handler has read after it.
#[tactic(auto, using(crate::proofs::AllCodecs::all_decoders))]
pub fn decoders_are_the_standards()
    ensures { AreDecodedByHandlers }
{}

/// Shows that each encoder gives the events of the Standard's handler.
///
/// The handler of each encoder finishes over every text of scalar values. Its bytes and errors are
/// the events of a new encoder that writes the text to its end. In Shift_JIS, EUC-JP, ISO-2022-JP
/// and gb18030 the indexes must have the pointers that the Standard's own have (`HasPointers`). The
/// ranges of gb18030 must be accepted by the checks of tables.
#[tactic(auto, using(crate::proofs::AllCodecs::all_encoders))]
pub fn encoders_are_the_standards()
    ensures { AreEncodedByHandlers }
{}

/// Shows that the private-use rows of GB18030-2022 that callers are given are the Standard's.
pub fn private_use_rows_are_the_standards()
    ensures { GB18030_2022_PUA ≡ private_use_rows }
{}

/// Shows the handlers' events for worked examples.
///
/// Also shows small indexes with the pointers of `HasPointers`, and the smallest ones that lack
/// one. With the latter an encoder gives other events than the Standard's handler
/// (`docs/DIFFERENCES.md`).
pub fn worked_rows()
    ensures bytes { ComputeWorkedBytes }
    ensures texts { ComputeWorkedTexts }
    ensures without_pointers { PartWithoutPointers }
    ensures with_pointers { HavePointers }
{}
