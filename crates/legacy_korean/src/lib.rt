//! The legacy multi-byte Korean encoding, EUC-KR.
//!
//! See the Encoding Standard, section "Legacy multi-byte Korean encodings".
#![tactic(auto)]

mod euc_kr;

pub use euc_kr::decoder::{EucKr, EucKrDecoder};
pub use euc_kr::encoder::EucKrEncoder;
