//! Shift_JIS.
pub mod decoder;
pub mod encoder;
pub mod held_lead;
pub mod places;
