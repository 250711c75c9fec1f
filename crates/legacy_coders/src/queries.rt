//! Length queries of encoders by the form of the text, so that both are asked in one place.
ghost use Rattle.std.specs.Prelude.{◌≡◌};
ghost use Rattle.legacy_base.specs.Encoders.{encoder_answer};
ghost use Rattle.legacy_coders.specs.Queries.{encoding_form};

use legacy_base::RawEncoder;

/// The form of the text that an encoder is asked about.
#[derive(Clone, Copy)]
pub enum TextForm {
    /// UTF-8.
    Utf8,
    /// UTF-16.
    Utf16,
}

/// Returns the encoder's answer to its length query for this many code units of the form.
#[inline(always)]
pub fn answer_of<E: RawEncoder>(encoder: &E, form: TextForm, units: usize) -> Option<usize>
    ensures { result ≡ encoder_answer (encoding_form form) (E.state encoder.now) units }
{
    match form {
        TextForm::Utf8 => encoder.max_buffer_length_from_utf8_without_replacement(units),
        TextForm::Utf16 => encoder.max_buffer_length_from_utf16_without_replacement(units),
    }
}
