//! x-user-defined.
mod blocks;
pub mod decoder;
pub mod encoder;
