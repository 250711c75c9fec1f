//! Big5.
pub mod decoder;
pub mod encoder;
mod places;
