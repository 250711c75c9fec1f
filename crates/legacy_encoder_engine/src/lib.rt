//! The common parts of all encoders of the legacy encodings.
//!
//! They are the small moves of an encoder, the loop that makes calls of them, and the loops that
//! read common scalars ahead of them. There is one encoder for the codecs without modes.
//! That of the codecs with pairs is part of it.
#![tactic(auto)]

pub mod ahead_codes;
pub mod asked_pairs;
pub mod cached;
pub mod drive;
pub mod moves;
pub mod pair_encoder;
pub mod plain;
pub mod plain_codes;
pub mod read_ahead;
mod unit_codes;
