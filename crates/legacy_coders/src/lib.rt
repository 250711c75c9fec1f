//! Coders of an encoding that is chosen when the program runs.
//!
//! Each coder is itself a `RawDecoder` or a `RawEncoder`, so every call of `legacy_codecs` takes it. The crate uses
//! the chapters alone, so that it is proved beside `legacy_codecs`.
#![tactic(auto)]

mod coders;
mod listed;
mod queries;
mod room;
mod tasks;

pub use coders::{AnyDecoder, AnyEncoder};
pub use listed::{ListedEncoder, has_pairs};
pub use room::pair_room;
pub use tasks::{DecoderTask, EncoderTask};
