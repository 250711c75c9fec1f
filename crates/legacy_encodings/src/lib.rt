//! The Standard's encodings by label: index data that is read from files and checked once, and
//! coders.
//!
//! The encoding is chosen when the program runs. Each coder is itself a `RawDecoder` or a
//! `RawEncoder`, so every call of `legacy_codecs` takes it.
#![tactic(auto)]

mod read_indexes;
mod registry;
mod told;

pub use legacy_coders::{
    AnyDecoder, AnyEncoder, DecoderTask, EncoderTask, ListedEncoder, has_pairs, pair_room,
};
pub use read_indexes::ReadIndexes;
pub use registry::{
    Coders, Decoded, Encoded, EncodingTable, OutputEncoding, Registry, RegistryError,
    TranscodeError, Transcoded,
};
