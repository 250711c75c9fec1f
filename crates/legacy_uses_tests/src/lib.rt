//! Tests of the crates that use the codecs, by their public calls.
//!
//! They test index files and packing (`legacy_index_files`), recoding and the program
//! (`legacy_streams`, `legacy_command`), and the callers (`legacy_uses`). They are in their own
//! crate: the tests of a crate are proved beside all of that crate, and these do not need it.
//!
//! The crate also has a source and a destination as a user writes them, proved.
#![tactic(auto)]

pub mod beginning;
pub mod character_list;
pub mod letters;
#[cfg(test)]
mod tests;
