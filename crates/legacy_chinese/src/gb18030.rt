//! gb18030 and GBK, which have the same decoder.
pub mod decoder;
pub mod digit;
pub mod encoder;
pub mod four_byte_blocks;
pub mod four_places;
pub mod list;
pub mod pair_places;
