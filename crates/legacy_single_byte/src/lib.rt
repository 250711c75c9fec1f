//! The legacy single-byte encodings (Encoding Standard, section "Legacy single-byte encodings").
#![tactic(auto)]

mod single_byte;

pub use single_byte::decoder::SingleByteDecoder;
pub use single_byte::encoder::SingleByteEncoder;
pub use single_byte::run::{SingleByteRun, SingleByteRunError};
