//! The events of an input that comes in pieces, as the Standard's decoder gives them.
ghost use Rattle.std.specs.Prelude.{IfOk, IsTrue};
ghost use Rattle.legacy_standard.specs.DecoderLaw.{euc_kr, HandlerDecodes};
ghost use Rattle.legacy_codecs.specs.Pieces.{contents_of, joined};

use legacy_codecs::{DecodeRun, EucKrDecoder, RunError, Tables, decode_run_utf8};
use std::alloc::Global;

/// Decodes an input in EUC-KR that comes in pieces, with an output of each length in turn.
///
/// If the run is finished, its events are the code points and errors that the handler of the Standard's
/// decoder gives for all pieces together, whatever the pieces and lengths are.
pub fn decode_events(
    alloc: Global,
    tables: &Tables,
    pieces: &[&[u8]],
    lengths: &[usize],
) -> Result<DecodeRun, RunError>
    ensures { IfOk result (λ run. IsTrue run.finished →
        HandlerDecodes (euc_kr tables.now.flat.euc_kr) (joined (contents_of pieces.now)) run.events.items) }
{
    let mut decoder = EucKrDecoder::new(tables);
    decode_run_utf8(alloc, &mut decoder, pieces, lengths)
}
