//! Length queries of a decoder and of an encoder by its numbers.
ghost use Rattle.std.specs.Prelude.{◌≡◌, ◌≢◌, MatchOption};
ghost use Rattle.legacy_c.specs.Saved.{IsRefused};
ghost use Rattle.legacy_c.specs.DecoderCalls.{IsLength, length_numbers, refused_length};
ghost use Rattle.legacy_c.specs.Queries.{decoder_query};
ghost use Rattle.legacy_c.specs.SavedEncoder.{IsEncoderRefused};
ghost use Rattle.legacy_c.specs.EncoderCalls.{IsEncoderLength};
ghost use Rattle.legacy_c.specs.EncoderQueries.{text_form};

use crate::decoder_tasks::{Ask, Query};
use crate::decoders::with_decoder;
use crate::encoder_tasks::{AskEncoder, TextForm};
use crate::encoders::with_encoder;
use crate::index_tables::IndexTables;
use crate::saved::{Length, SavedDecoder, SavedEncoder};

/// Returns the numbers of the answer to a length query, or of a refusal.
fn numbers(answer: Option<Option<usize>>) -> Length
    ensures { MatchOption answer (result ≡ refused_length) (λ length. result ≡ length_numbers length) }
{
    match answer {
        None => Length {
            status: 3,
            length: 0,
        },
        Some(None) => Length {
            status: 1,
            length: 0,
        },
        Some(Some(length)) => Length { status: 0, length },
    }
}

/// Returns the answer to a length query of the decoder that the numbers are of.
pub fn ask(tables: &IndexTables, saved: &SavedDecoder, query: Query, byte_length: usize) -> Length
    ensures length { result.status ≢ 3 → IsLength (decoder_query query) tables.now saved.now byte_length result }
    ensures refused { result.status ≡ 3 → (result.length ≡ 0) × IsRefused tables.now saved.now }
{
    let mut own = *saved;
    let task = Ask { query, byte_length };
    numbers(with_decoder(tables, &mut own, &task, &mut []))
}

/// Returns the answer to a length query of the encoder that the numbers are of.
pub fn ask_encoder(
    tables: &IndexTables,
    saved: &SavedEncoder,
    form: TextForm,
    units: usize,
) -> Length
    ensures length { result.status ≢ 3 → IsEncoderLength (text_form form) tables.now saved.now units result }
    ensures refused { result.status ≡ 3 → (result.length ≡ 0) × IsEncoderRefused tables.now saved.now }
{
    let mut own = *saved;
    let task = AskEncoder { form, units };
    numbers(with_encoder(tables, &mut own, &task, &mut []))
}
