//! The places of the leads and trails of Shift_JIS in index jis0208.
use legacy_decoder_engine::place_table;

/// The places of the leads 81 to 9F and E0 to FC, whose rows have 188 entries.
pub static LEADS: [u16; 256] = place_table!(65535, 188, 0x81 to 0x9F, 0xE0 to 0xFC);

/// The places of the trails 40 to 7E and 80 to FC.
pub static TRAILS: [u16; 256] = place_table!(65535, 1, 0x40 to 0x7E, 0x80 to 0xFC);
