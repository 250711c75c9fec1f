//! The places of the leads and trails of Big5 in its index, whose rows have 157 entries.
use legacy_decoder_engine::place_table;

/// The places of the leads 81 to FE.
pub static ROWS_OF_157: [u16; 256] = place_table!(65535, 157, 0x81 to 0xFE);

/// The places of the trails 40 to 7E and A1 to FE.
pub static TRAILS: [u16; 256] = place_table!(65535, 1, 0x40 to 0x7E, 0xA1 to 0xFE);
