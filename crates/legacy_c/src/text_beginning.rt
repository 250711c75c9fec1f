//! The longest beginning of bytes that is UTF-8, and what follows it.
ghost use Rattle.std.specs.Prelude.{◌≡◌, length, drop, false};
ghost use Rattle.std.specs.Str.Lossy.{utf8_error_len, utf8_valid_len};
ghost use Rattle.legacy_c.specs.EncoderCalls as calls;
ghost use Rattle.legacy_c.specs.EncoderCalls.{is_whole, valid_text};

use crate::saved::EncoderAnswer;

/// The longest beginning of a source that is UTF-8.
#[derive(Drop)]
pub struct Beginning<'a> {
    /// The text.
    pub text: &'a str,
    /// Whether it is all of the source.
    pub is_whole: bool,
    /// The number of malformed bytes after it, or `None` if they are only cut off.
    pub fault: Option<usize>,
}

/// Returns the longest beginning of a source that is UTF-8.
#[tactic(auto, using(crate::proofs::WholeTexts::whole_text, crate::proofs::WholeTexts::all_valid, std::proofs::lemmas::Str::utf8_valid_len_le))]
pub fn read_beginning(source: &[u8]) -> Beginning<'_>
    ensures text { result.text.now ≡ valid_text source.now }
    ensures whole { result.is_whole ≡ is_whole source.now }
    ensures fault { result.is_whole ≡ false → result.fault
        ≡ utf8_error_len (drop (utf8_valid_len source.now) source.now) }
{
    match str::from_utf8(source) {
        Ok(text) => Beginning {
            text,
            is_whole: true,
            fault: None,
        },
        Err(error) => Beginning {
            text: unsafe { str::from_utf8_unchecked(&source[..error.valid_up_to()]) },
            is_whole: false,
            fault: error.error_len(),
        },
    }
}

/// Returns the numbers of a call that read the beginning, with what follows it.
#[tactic(auto, using(std::proofs::lemmas::Str::utf8_valid_len_le))]
pub fn with_rest(
    source: &[u8],
    begun: &Beginning<'_>,
    last: bool,
    answer: EncoderAnswer,
) -> EncoderAnswer
    requires text { begun.now.text.now ≡ valid_text source.now }
    requires whole { begun.now.is_whole ≡ is_whole source.now }
    requires fault { begun.now.is_whole ≡ false → begun.now.fault
        ≡ utf8_error_len (drop (utf8_valid_len source.now) source.now) }
    ensures { result ≡ calls.with_rest source.now last answer }
{
    if answer.status != 0 || begun.is_whole || !(last || begun.fault.is_some()) {
        return answer;
    }
    EncoderAnswer {
        status: 4,
        scalar: 0,
        length: begun.fault.unwrap_or(source.len() - begun.text.len()),
        read: answer.read,
        written: answer.written,
        replaced: answer.replaced,
    }
}
