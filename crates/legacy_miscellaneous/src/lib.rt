//! The legacy miscellaneous encodings: replacement, UTF-16 in both byte orders, and x-user-defined.
//!
//! They are the section "Legacy miscellaneous encodings" of the Encoding Standard.
#![tactic(auto)]

mod replacement;
mod user_defined;
mod utf16;

pub use replacement::decoder::ReplacementDecoder;
pub use user_defined::decoder::UserDefinedDecoder;
pub use user_defined::encoder::UserDefinedEncoder;
pub use utf16::decoder::Utf16Decoder;
