//! The replacement decoder.
pub mod decoder;
