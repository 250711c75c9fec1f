//! The places of the trails of GB18030 in the rows of its index.
use legacy_decoder_engine::place_table;

/// The places of the trails 40 to 7E and 80 to FE.
pub static TRAILS: [u16; 256] = place_table!(65535, 1, 0x40 to 0x7E, 0x80 to 0xFE);
