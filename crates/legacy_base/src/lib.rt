//! The common base of all legacy codecs of the WHATWG Encoding Standard.
//!
//! It defines the meaning of each encoding, the results and events, and the traits of decoders and
//! encoders with the law of each call. Sources, destinations and tables are in crates of their own.
//! What a user names of them is re-exported here; what only the coders' loops use is not.
#![tactic(auto)]

mod decoder;
mod encoder;
mod modes;
mod results;

pub use decoder::RawDecoder;
pub use encoder::RawEncoder;
pub use legacy_tables::{
    GB18030_2022_PUA, IndexName, Indexes, Packed, PackedPart, Run, SingleByteTable, TableError,
    Tables,
};
pub use legacy_text::{
    ByteSource, Destination, Source, Utf8Destination, Utf8Source, Utf16Destination, Utf16Source,
};
pub use modes::{DecoderMode, EncoderMode};
pub use results::{
    DecodeEvent, DecoderResult, DecoderStep, EncodeEvent, EncoderResult, EncoderStep,
};
