//! ISO-2022-JP.
pub mod bytes;
pub mod cached;
pub mod decoder;
pub mod encoder;
pub mod places;
pub mod read_ahead;
