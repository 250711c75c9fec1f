//! The places of the trails of EUC-KR in the rows of its index.
use legacy_decoder_engine::place_table;

/// The places of the trails 41 to FE.
pub static TRAILS: [u16; 256] = place_table!(65535, 1, 0x41 to 0xFE);
