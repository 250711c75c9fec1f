//! EUC-KR.
pub mod decoder;
pub mod encoder;
pub mod places;
