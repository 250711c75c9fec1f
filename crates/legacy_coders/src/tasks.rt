//! Tasks that take any coder, so that their loops are compiled for each one.
ghost use Rattle.std.specs.Prelude.{ℕ, List};
ghost use Rattle.legacy_base.specs.States.{DecoderState};
ghost use Rattle.legacy_base.specs.Encoders.{EncoderState};

use legacy_base::{RawDecoder, RawEncoder};

/// A task for a decoder of any encoding, to which `AnyDecoder::lend` lends its decoder.
pub trait DecoderTask<U> {
    /// The decoder's state before and after, the output before and after, and the result.
    ghost gives: { Self → DecoderState → DecoderState → List U → List U → ℕ → Type 0 };

    /// Does the task with a decoder, and returns the number of code units written to the output.
    fn run<D: RawDecoder>(&self, decoder: &mut D, output: &mut [U]) -> usize
        ensures { gives self.now (D.state decoder.old) (D.state decoder.new)
            output.old output.new result };
}

/// A task for an encoder of any encoding, to which `AnyEncoder::lend` lends its encoder.
pub trait EncoderTask {
    /// The encoder's state before and after, the output before and after, and the result.
    ghost gives: { Self → EncoderState → EncoderState → List ℕ → List ℕ → ℕ → Type 0 };

    /// Does the task with an encoder, and returns the number of bytes written to the output.
    fn run<E: RawEncoder>(&self, encoder: &mut E, output: &mut [u8]) -> usize
        ensures { gives self.now (E.state encoder.old) (E.state encoder.new)
            output.old output.new result };
}
