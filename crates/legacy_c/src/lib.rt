//! The C interface: streaming decoders and encoders, whose state the caller keeps as numbers.
//!
//! Nothing is allocated, and no pointer is kept. A call makes the coder of the numbers, calls it once, and writes its
//! state back as numbers. Numbers that are those of no coder are refused, and nothing is done.
//! `include/legacy_codecs.h` declares the functions.
#![tactic(auto)]

ghost use Rattle.std.specs.Prelude.{◌≡◌, ◌≢◌, ◌≤◌, length, take};
ghost use Rattle.legacy_text.specs.EncodingForm.{Utf8, Utf16};
ghost use Rattle.legacy_base.specs.States.{DecoderState};
ghost use Rattle.legacy_base.specs.States as states;
ghost use Rattle.legacy_base.specs.Lengths.{to_utf8, to_utf8_without_replacement, to_utf16};
ghost use Rattle.legacy_c.specs.Faults.{SameIndexes, indexes_fault, table_fault_numbers};
ghost use Rattle.legacy_c.specs.Saved.{Changes, IsRefused, Saves};
ghost use Rattle.legacy_c.specs.DecoderCalls.{IsLength, RawCall, ReplacingCall, refusal};
ghost use Rattle.legacy_c.specs.Saved.{IsNewDecoder};
ghost use Rattle.legacy_base.specs.Encoders.{EncoderState, is_pending};
ghost use Rattle.legacy_c.specs.SavedEncoder.{EncoderChanges, IsEncoderRefused, IsNewEncoder, SavesEncoder};
ghost use Rattle.legacy_c.specs.EncoderCalls.{IsEncoderLength, RawUtf8Call, RawUtf16Call, ReplacingUtf8Call, ReplacingUtf16Call, encoder_refusal};
ghost use Rattle.legacy_c.specs.declared.index_tables.IndexTables.{IndexTables};

mod decoder_tasks;
mod decoders;
mod encoder_tasks;
mod encoders;
mod fault;
mod held_decoder;
mod index_range;
mod index_tables;
mod kept;
mod kept_encoder;
mod queries;
mod saved;
mod tables;
mod text_beginning;

use crate::decoder_tasks::{Query, Raw, Replacing};
use crate::decoders::with_decoder;
use crate::encoder_tasks::{RawUtf8, RawUtf16, ReplacingUtf8, ReplacingUtf16, TextForm};
use crate::encoders::with_encoder;
use crate::fault::Fault;
use crate::index_tables::IndexTables;
use crate::queries::{ask, ask_encoder};
use crate::saved::{DecoderAnswer, EncoderAnswer, Length, SavedDecoder, SavedEncoder};
use crate::tables::{check_indexes, check_table};

/// Checks the seven indexes, and notes in `checked` whether they are accepted. Returns the first fault.
#[unsafe(no_mangle)]
pub extern "C" fn legacy_tables_check(tables: &mut IndexTables) -> Fault
    ensures fault { result ≡ indexes_fault tables.old }
    ensures accepted { result.kind ≡ 0 → tables.new.checked ≡ 1 }
    ensures refused { result.kind ≢ 0 → tables.new.checked ≡ 0 }
    ensures same { SameIndexes tables.old tables.new }
    ensures other { tables.new.single_byte_checked ≡ tables.old.single_byte_checked }
{
    check_indexes(tables)
}

/// Checks the index of a single-byte encoding, and notes in `single_byte_checked` whether it is accepted.
///
/// Returns the first fault.
#[unsafe(no_mangle)]
pub extern "C" fn legacy_single_byte_check(tables: &mut IndexTables) -> Fault
    ensures fault { result ≡ table_fault_numbers tables.old }
    ensures accepted { result.kind ≡ 0 → tables.new.single_byte_checked ≡ 1 }
    ensures refused { result.kind ≢ 0 → tables.new.single_byte_checked ≡ 0 }
    ensures same { SameIndexes tables.old tables.new }
    ensures other { tables.new.checked ≡ tables.old.checked }
{
    check_table(tables)
}

/// Makes the numbers those of a new decoder of the codec.
///
/// They are refused by each call if no codec has the number.
#[unsafe(no_mangle)]
pub extern "C" fn legacy_decoder_init(decoder: &mut SavedDecoder, codec: u32)
    ensures { IsNewDecoder codec decoder.new }
{
    *decoder = SavedDecoder {
        codec,
        mode: 0,
        count: 0,
        held: [0; 5],
    };
}

/// Decodes to UTF-8, up to the first malformed sequence.
#[unsafe(no_mangle)]
pub extern "C" fn legacy_decode_to_utf8_raw(
    tables: &IndexTables,
    decoder: &mut SavedDecoder,
    source: &[u8],
    output: &mut [u8],
    last: bool,
) -> DecoderAnswer
    ensures call { result.status ≢ 3 → Changes tables.now decoder.old decoder.new (λ before after.
        RawCall Utf8 source.now last (length output.old) before after result (take result.written output.new)) }
    ensures written { result.written ≤ length output.new }
    ensures refused { result.status ≡ 3 → (result ≡ refusal) × (decoder.new ≡ decoder.old)
        × (output.new ≡ output.old) × IsRefused tables.now decoder.old }
{
    with_decoder(tables, decoder, &Raw { source, last }, output).unwrap_or(decoder_tasks::REFUSED)
}

/// Decodes to UTF-16, up to the first malformed sequence.
#[unsafe(no_mangle)]
pub extern "C" fn legacy_decode_to_utf16_raw(
    tables: &IndexTables,
    decoder: &mut SavedDecoder,
    source: &[u8],
    output: &mut [u16],
    last: bool,
) -> DecoderAnswer
    ensures call { result.status ≢ 3 → Changes tables.now decoder.old decoder.new (λ before after.
        RawCall Utf16 source.now last (length output.old) before after result (take result.written output.new)) }
    ensures written { result.written ≤ length output.new }
    ensures refused { result.status ≡ 3 → (result ≡ refusal) × (decoder.new ≡ decoder.old)
        × (output.new ≡ output.old) × IsRefused tables.now decoder.old }
{
    with_decoder(tables, decoder, &Raw { source, last }, output).unwrap_or(decoder_tasks::REFUSED)
}

/// Decodes to UTF-8, with U+FFFD for each malformed sequence.
#[unsafe(no_mangle)]
pub extern "C" fn legacy_decode_replacing_utf8(
    tables: &IndexTables,
    decoder: &mut SavedDecoder,
    source: &[u8],
    output: &mut [u8],
    last: bool,
) -> DecoderAnswer
    ensures call { result.status ≢ 3 → Changes tables.now decoder.old decoder.new (λ before after.
        ReplacingCall Utf8 source.now last (length output.old) before after result (take result.written output.new)) }
    ensures written { result.written ≤ length output.new }
    ensures refused { result.status ≡ 3 → (result ≡ refusal) × (decoder.new ≡ decoder.old)
        × (output.new ≡ output.old) × IsRefused tables.now decoder.old }
{
    with_decoder(tables, decoder, &Replacing { source, last }, output).unwrap_or(
        decoder_tasks::REFUSED,
    )
}

/// Decodes to UTF-16, with U+FFFD for each malformed sequence.
#[unsafe(no_mangle)]
pub extern "C" fn legacy_decode_replacing_utf16(
    tables: &IndexTables,
    decoder: &mut SavedDecoder,
    source: &[u8],
    output: &mut [u16],
    last: bool,
) -> DecoderAnswer
    ensures call { result.status ≢ 3 → Changes tables.now decoder.old decoder.new (λ before after.
        ReplacingCall Utf16 source.now last (length output.old) before after result (take result.written output.new)) }
    ensures written { result.written ≤ length output.new }
    ensures refused { result.status ≡ 3 → (result ≡ refusal) × (decoder.new ≡ decoder.old)
        × (output.new ≡ output.old) × IsRefused tables.now decoder.old }
{
    with_decoder(tables, decoder, &Replacing { source, last }, output).unwrap_or(
        decoder_tasks::REFUSED,
    )
}

/// Returns `max_utf8_buffer_length` of the decoder that the numbers are of.
#[unsafe(no_mangle)]
pub extern "C" fn legacy_decoder_utf8_length(
    tables: &IndexTables,
    decoder: &SavedDecoder,
    byte_length: usize,
) -> Length
    ensures length { result.status ≢ 3 → IsLength to_utf8 tables.now decoder.now byte_length result }
    ensures refused { result.status ≡ 3 → (result.length ≡ 0) × IsRefused tables.now decoder.now }
{
    ask(tables, decoder, Query::Utf8, byte_length)
}

/// Returns `max_utf8_buffer_length_without_replacement` of the decoder that the numbers are of.
#[unsafe(no_mangle)]
pub extern "C" fn legacy_decoder_utf8_length_without_replacement(
    tables: &IndexTables,
    decoder: &SavedDecoder,
    byte_length: usize,
) -> Length
    ensures length { result.status ≢ 3 → IsLength to_utf8_without_replacement tables.now decoder.now byte_length result }
    ensures refused { result.status ≡ 3 → (result.length ≡ 0) × IsRefused tables.now decoder.now }
{
    ask(tables, decoder, Query::Utf8WithoutReplacement, byte_length)
}

/// Returns `max_utf16_buffer_length` of the decoder that the numbers are of.
#[unsafe(no_mangle)]
pub extern "C" fn legacy_decoder_utf16_length(
    tables: &IndexTables,
    decoder: &SavedDecoder,
    byte_length: usize,
) -> Length
    ensures length { result.status ≢ 3 → IsLength to_utf16 tables.now decoder.now byte_length result }
    ensures refused { result.status ≡ 3 → (result.length ≡ 0) × IsRefused tables.now decoder.now }
{
    ask(tables, decoder, Query::Utf16, byte_length)
}

/// Checks whether the decoder that the numbers are of is in the state of a new one.
#[unsafe(no_mangle)]
pub extern "C" fn legacy_decoder_is_neutral(decoder: &SavedDecoder) -> bool
    ensures { (tables : IndexTables) (state : DecoderState) → Saves tables decoder.now state → result ≡ states.is_neutral state }
{
    decoder.count == 0 && (decoder.codec != 6 || decoder.mode == 0)
}

/// Returns the number of bytes that the decoder of the numbers holds back.
#[unsafe(no_mangle)]
pub extern "C" fn legacy_decoder_held_count(decoder: &SavedDecoder) -> usize
    ensures { (tables : IndexTables) (state : DecoderState) → Saves tables decoder.now state → result ≡ length state.held }
{
    usize::from(decoder.count)
}

/// Makes the numbers those of a new encoder of the codec.
///
/// They are refused by each call if no codec with an encoder has the number.
#[unsafe(no_mangle)]
pub extern "C" fn legacy_encoder_init(encoder: &mut SavedEncoder, codec: u32)
    ensures { IsNewEncoder codec encoder.new }
{
    *encoder = SavedEncoder { codec, mode: 0 };
}

/// Encodes a text in UTF-8, up to the first unmappable scalar or malformed sequence.
#[unsafe(no_mangle)]
pub extern "C" fn legacy_encode_from_utf8_raw(
    tables: &IndexTables,
    encoder: &mut SavedEncoder,
    source: &[u8],
    output: &mut [u8],
    last: bool,
) -> EncoderAnswer
    ensures call { result.status ≢ 3 → EncoderChanges tables.now encoder.old encoder.new (λ before after.
        RawUtf8Call source.now last (length output.old) before after result (take result.written output.new)) }
    ensures written { result.written ≤ length output.new }
    ensures refused { result.status ≡ 3 → (result ≡ encoder_refusal) × (encoder.new ≡ encoder.old)
        × (output.new ≡ output.old) × IsEncoderRefused tables.now encoder.old }
{
    with_encoder(tables, encoder, &RawUtf8 { source, last }, output).unwrap_or(
        encoder_tasks::REFUSED,
    )
}

/// Encodes a text in UTF-16, up to the first unmappable scalar.
#[unsafe(no_mangle)]
pub extern "C" fn legacy_encode_from_utf16_raw(
    tables: &IndexTables,
    encoder: &mut SavedEncoder,
    source: &[u16],
    output: &mut [u8],
    last: bool,
) -> EncoderAnswer
    ensures call { result.status ≢ 3 → EncoderChanges tables.now encoder.old encoder.new (λ before after.
        RawUtf16Call source.now last (length output.old) before after result (take result.written output.new)) }
    ensures written { result.written ≤ length output.new }
    ensures refused { result.status ≡ 3 → (result ≡ encoder_refusal) × (encoder.new ≡ encoder.old)
        × (output.new ≡ output.old) × IsEncoderRefused tables.now encoder.old }
{
    with_encoder(tables, encoder, &RawUtf16 { source, last }, output).unwrap_or(
        encoder_tasks::REFUSED,
    )
}

/// Encodes a text in UTF-8, with a reference for each unmappable scalar.
#[unsafe(no_mangle)]
pub extern "C" fn legacy_encode_replacing_utf8(
    tables: &IndexTables,
    encoder: &mut SavedEncoder,
    source: &[u8],
    output: &mut [u8],
    last: bool,
) -> EncoderAnswer
    ensures call { result.status ≢ 3 → EncoderChanges tables.now encoder.old encoder.new (λ before after.
        ReplacingUtf8Call source.now last (length output.old) before after result (take result.written output.new)) }
    ensures written { result.written ≤ length output.new }
    ensures refused { result.status ≡ 3 → (result ≡ encoder_refusal) × (encoder.new ≡ encoder.old)
        × (output.new ≡ output.old) × IsEncoderRefused tables.now encoder.old }
{
    with_encoder(tables, encoder, &ReplacingUtf8 { source, last }, output).unwrap_or(
        encoder_tasks::REFUSED,
    )
}

/// Encodes a text in UTF-16, with a reference for each unmappable scalar.
#[unsafe(no_mangle)]
pub extern "C" fn legacy_encode_replacing_utf16(
    tables: &IndexTables,
    encoder: &mut SavedEncoder,
    source: &[u16],
    output: &mut [u8],
    last: bool,
) -> EncoderAnswer
    ensures call { result.status ≢ 3 → EncoderChanges tables.now encoder.old encoder.new (λ before after.
        ReplacingUtf16Call source.now last (length output.old) before after result (take result.written output.new)) }
    ensures written { result.written ≤ length output.new }
    ensures refused { result.status ≡ 3 → (result ≡ encoder_refusal) × (encoder.new ≡ encoder.old)
        × (output.new ≡ output.old) × IsEncoderRefused tables.now encoder.old }
{
    with_encoder(tables, encoder, &ReplacingUtf16 { source, last }, output).unwrap_or(
        encoder_tasks::REFUSED,
    )
}

/// Returns `max_buffer_length_from_utf8_without_replacement` of the encoder that the numbers are of.
#[unsafe(no_mangle)]
pub extern "C" fn legacy_encoder_length_from_utf8(
    tables: &IndexTables,
    encoder: &SavedEncoder,
    byte_length: usize,
) -> Length
    ensures length { result.status ≢ 3 → IsEncoderLength Utf8 tables.now encoder.now byte_length result }
    ensures refused { result.status ≡ 3 → (result.length ≡ 0) × IsEncoderRefused tables.now encoder.now }
{
    ask_encoder(tables, encoder, TextForm::Utf8, byte_length)
}

/// Returns `max_buffer_length_from_utf16_without_replacement` of the encoder that the numbers are of.
#[unsafe(no_mangle)]
pub extern "C" fn legacy_encoder_length_from_utf16(
    tables: &IndexTables,
    encoder: &SavedEncoder,
    u16_length: usize,
) -> Length
    ensures length { result.status ≢ 3 → IsEncoderLength Utf16 tables.now encoder.now u16_length result }
    ensures refused { result.status ≡ 3 → (result.length ≡ 0) × IsEncoderRefused tables.now encoder.now }
{
    ask_encoder(tables, encoder, TextForm::Utf16, u16_length)
}

/// Checks whether the end of the text would write bytes.
#[unsafe(no_mangle)]
pub extern "C" fn legacy_encoder_has_pending_state(encoder: &SavedEncoder) -> bool
    ensures { (tables : IndexTables) (state : EncoderState) → SavesEncoder tables encoder.now state → result ≡ is_pending state }
{
    encoder.mode != 0
}
