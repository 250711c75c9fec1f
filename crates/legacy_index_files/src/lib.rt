//! The index files of the WHATWG Encoding Standard ("Indexes") and the encodings that need them.
//!
//! - A reader returns the table of a file's lines, or its first malformed line.
//! - An owning set of indexes lends its tables.
//! - A packer makes packed indexes of flat ones.
//! - A list of the Standard's encodings has the name, the codec and the index files of each.
#![tactic(auto)]

mod codec;
mod encodings;
mod index_file;
mod index_line;
mod index_table;
mod labels;
mod owned_indexes;
mod packed_indexes;
mod packing;

pub use codec::Codec;
pub use encodings::{ENCODINGS, Encoding};
pub use index_file::{
    EncoderIndex, FileIndex, FileTable, IndexFileError, KATAKANA_FILE, read_index, read_katakana,
};
pub use owned_indexes::OwnedIndexes;
pub use packed_indexes::PackedIndexes;
pub use packing::{OwnedPacked, pack};
