//! The events of a text that comes in pieces, as the Standard's encoder gives them.
ghost use Rattle.std.specs.Prelude.{IfOk, IsTrue};
ghost use Rattle.legacy_base.specs.Encoders.{euc_kr};
ghost use Rattle.legacy_standard.specs.EncoderLaw.{HandlerEncodes};
ghost use Rattle.legacy_codecs.specs.EncodeRuns.{chars_of};
ghost use Rattle.legacy_codecs.specs.Pieces.{joined};

use legacy_codecs::{EncodeRun, EucKrEncoder, RunError, Tables, encode_run_utf8};
use std::alloc::Global;

/// Encodes a text in EUC-KR that comes in pieces, with an output of each length in turn.
///
/// If the run is finished, its events are the bytes and errors that the handler of the Standard's
/// encoder gives for the text of all pieces together, whatever the pieces and lengths are.
pub fn encode_events<'a>(
    alloc: Global,
    tables: &'a Tables<'a>,
    pieces: &[&str],
    lengths: &[usize],
) -> Result<EncodeRun, RunError>
    ensures { IfOk result (λ run. IsTrue run.finished →
        HandlerEncodes (euc_kr tables.now.flat.euc_kr) (joined (chars_of pieces.now)) run.events.items) }
{
    let mut encoder = EucKrEncoder::new(tables);
    encode_run_utf8(alloc, &mut encoder, pieces, lengths)
}
