//! UTF-16, in either byte order.
pub mod decoder;
pub mod held_bytes;
pub mod near_surrogates;
pub mod unit_blocks;
pub mod unit_steps;
pub mod vectors;
