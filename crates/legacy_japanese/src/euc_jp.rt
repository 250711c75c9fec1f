//! EUC-JP.
pub mod decoder;
pub mod encoder;
pub mod held_lead;
