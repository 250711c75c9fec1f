//! The legacy multi-byte Japanese encodings: EUC-JP, ISO-2022-JP and Shift_JIS.
//!
//! See the Encoding Standard, section "Legacy multi-byte Japanese encodings".
#![tactic(auto)]

mod asked_scalars;
mod euc_jp;
mod folded_scalars;
mod iso_2022_jp;
mod shift_jis;

pub use euc_jp::decoder::{EucJp, EucJpDecoder};
pub use euc_jp::encoder::EucJpEncoder;
pub use iso_2022_jp::cached::CachedIso2022JpEncoder;
pub use iso_2022_jp::decoder::Iso2022JpDecoder;
pub use iso_2022_jp::encoder::Iso2022JpEncoder;
pub use shift_jis::decoder::{ShiftJis, ShiftJisDecoder};
pub use shift_jis::encoder::ShiftJisEncoder;
