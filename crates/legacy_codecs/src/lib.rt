//! The legacy codecs of the WHATWG Encoding Standard, under one name.
//!
//! The crate names what a user calls of `legacy_base`, and the decoders and encoders, each of which is
//! in the crate of its chapter of the Encoding Standard. It adds calls that replace what is malformed
//! or unmappable, calls for whole inputs and texts, runs that return events, and laws.
#![tactic(auto)]

mod character_references;
mod decode_run;
mod encode_run;
pub mod laws;
mod malformed;
mod replacing;
mod results;
mod scalar_buffer;
mod shared_by_runs;
mod source_texts;
mod whole;

pub use character_references::{encode_replacing_utf8, encode_replacing_utf16};
pub use decode_run::{DecodeRun, decode_run_utf8, decode_run_utf16};
pub use encode_run::{EncodeRun, encode_run_utf8, encode_run_utf16};
pub use legacy_base::{
    ByteSource, DecodeEvent, DecoderResult, Destination, EncodeEvent, EncoderResult,
    GB18030_2022_PUA, IndexName, Indexes, Packed, PackedPart, RawDecoder, RawEncoder, Run,
    SingleByteTable, Source, TableError, Tables, Utf8Destination, Utf8Source, Utf16Destination,
    Utf16Source,
};
pub use legacy_chinese::{Big5Decoder, Big5Encoder, Gb18030Decoder, Gb18030Encoder};
pub use legacy_encoder_engine::cached::{CachedEncoder, EncodesPairs, PAIR_ROOM};
pub use legacy_japanese::{
    CachedIso2022JpEncoder, EucJpDecoder, EucJpEncoder, Iso2022JpDecoder, Iso2022JpEncoder,
    ShiftJisDecoder, ShiftJisEncoder,
};
pub use legacy_korean::{EucKrDecoder, EucKrEncoder};
pub use legacy_miscellaneous::{
    ReplacementDecoder, UserDefinedDecoder, UserDefinedEncoder, Utf16Decoder,
};
pub use legacy_single_byte::{
    SingleByteDecoder, SingleByteEncoder, SingleByteRun, SingleByteRunError,
};
pub use malformed::{MalformedSequence, malformed_sequences};
pub use replacing::{decode_replacing_utf8, decode_replacing_utf16};
pub use results::CoderResult;
pub use scalar_buffer::{OutputForm, ScalarBuffer, Utf8Form, Utf16Form};
pub use shared_by_runs::RunError;
pub use whole::{SizedError, decode_piece, decode_whole, encode_whole, transcode};
