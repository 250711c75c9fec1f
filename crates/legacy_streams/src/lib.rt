//! Decodes and encodes streams, piece by piece.
//!
//! Bytes are decoded to lines of events (`recode::recode`) or to text in UTF-8 (`text::recode_text`).
//! Text in UTF-8 is encoded to bytes (`encode::encode_text`).
#![tactic(auto)]

pub mod encode;
mod encoded;
mod line_parts;
mod lines;
mod pieces;
pub mod recode;
pub mod text;
