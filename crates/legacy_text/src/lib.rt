//! The inputs and outputs of decoders and encoders: byte cursors, text sources and destinations.
//!
//! A source is UTF-8 or UTF-16, and is read one scalar at a time or by blocks.
#![tactic(auto)]

mod ascii_tail;
mod blocks;
mod byte_units;
mod destination;
mod eight_units;
pub mod past_ascii;
mod scalar_bytes;
mod scalar_turns;
mod short_scalars;
mod source;
mod text_cursor;
mod text_source;
mod unit_codes;
mod unit_rows;

pub use destination::{Destination, FillsBuffer, Utf8Destination, Utf16Destination};
pub use eight_units::{are_all_below, first_units, row_of};
pub use scalar_bytes::utf8_entry;
pub use source::ByteSource;
pub use text_cursor::{Next, ReadingLoop, TextCursor};
pub use text_source::{Source, Utf8Source, Utf16Source};
pub use unit_codes::UnitCodes;
