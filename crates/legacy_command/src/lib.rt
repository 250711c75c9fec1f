//! The command lines of the programs: words, index files, and the work on their streams.
#![tactic(auto)]

pub mod arguments;
pub mod encode_program;
mod given_indexes;
pub mod host;
pub mod program;
pub mod words;
