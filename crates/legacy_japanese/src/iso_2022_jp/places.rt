//! The places of the bytes of a pair in index jis0208, in two-byte mode of ISO-2022-JP.
use legacy_decoder_engine::place_table;

/// The places of the leads 21 to 7E, whose rows have 94 entries.
pub static LEADS: [u16; 256] = place_table!(65535, 94, 0x21 to 0x7E);

/// The places of the trails 21 to 7E.
pub static TRAILS: [u16; 256] = place_table!(65535, 1, 0x21 to 0x7E);
