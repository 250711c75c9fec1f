//! A user's own source with the members that `Source` requires: the beginning of another one.
ghost use Rattle.std.specs.Prelude.{◌≡◌, ℕ, ◌+◌, ◌≤◌, List, length, take};
ghost use Rattle.std.specs.Str.{chars};
ghost use Rattle.legacy_text.specs.EncodingForm.{Utf8, total_unit_count};
ghost use Rattle.legacy_base.specs.EncoderCalls.{EncoderCall};

use legacy_codecs::{EncoderResult, RawEncoder, Source, Utf8Source};

/// A source of at most `most` characters of another source, which it moves past them.
#[derive(Drop)]
pub struct Beginning<'a, S: Source> {
    source: &'a mut S,
    most: usize,
}

impl<'a, S: Source> Beginning<'a, S> {
    ghost use Rattle.legacy_uses_tests.specs.SourceBeginnings.{beginning_most, beginning_of};

    /// Returns a source of at most `most` of the characters that `source` has left.
    pub fn new(source: &'a mut S, most: usize) -> Beginning<'a, S>
        ensures most { beginning_most result ≡ most }
        ensures source { beginning_of result ≡ source.old }
    {
        Beginning { source, most }
    }
}

impl<S: Source> Source for Beginning<'_, S> {
    ghost use Rattle.legacy_uses_tests.specs.SourceBeginnings.{beginning_most, beginning_of};

    ghost form = { S.form };

    ghost left = { λ b. take (beginning_most b) (S.left (beginning_of b)) };

    ghost passed = { λ b. S.passed (beginning_of b) };

    fn peek(&self) -> Option<char> {
        if self.most == 0 {
            return None;
        }
        self.source.peek()
    }

    fn advance(&mut self) {
        self.source.advance();
        self.most -= 1;
    }

    fn consumed(&self) -> usize {
        self.source.consumed()
    }
}

/// Encodes at most `most` characters from the front of a text, by an encoder without such a limit.
///
/// Returns how the call ended, the number of bytes of the text read, and the number of bytes
/// written to the beginning of `dst`. The encoder sees those characters as the whole source:
/// `InputEmpty` means that all of them were read, and with `last` the end is written after them.
pub fn encode_beginning<E: RawEncoder>(
    encoder: &mut E,
    text: &str,
    most: usize,
    dst: &mut [u8],
    last: bool,
) -> (EncoderResult, usize, usize)
    ensures call { (left : List ℕ) × EncoderCall (E.state encoder.old) (take most (chars text.now))
        last (length dst.old) (E.state encoder.new) result.0 left (take result.2 dst.new)
        × (result.1 + total_unit_count Utf8 left ≡ total_unit_count Utf8 (take most (chars text.now))) }
    ensures written { result.2 ≤ length dst.new }
{
    let mut whole = Utf8Source::new(text);
    let mut beginning = Beginning::new(&mut whole, most);
    let (answer, written) = encoder.step(&mut beginning, dst, last);
    let read = beginning.consumed();
    (answer, read, written)
}
