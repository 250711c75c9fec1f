//! The single-byte encodings, each by its table of 128 entries.
pub mod blocks;
pub mod decoder;
pub mod encoder;
pub mod run;
pub mod scalars;
