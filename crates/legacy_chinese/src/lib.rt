//! The legacy multi-byte Chinese encodings: gb18030 with GBK, and Big5.
//!
//! See the Encoding Standard, sections "Legacy multi-byte Chinese (simplified) encodings" and
//! "Legacy multi-byte Chinese (traditional) encodings".
#![tactic(auto)]

mod big5;
mod gb18030;

pub use big5::decoder::{Big5, Big5Decoder};
pub use big5::encoder::Big5Encoder;
pub use gb18030::decoder::Gb18030Decoder;
pub use gb18030::encoder::Gb18030Encoder;
