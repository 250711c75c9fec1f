//! The tests, and what they share.
mod callers;
mod compared;
mod encode_program;
mod encodings;
mod host;
mod index_file;
mod own_texts;
mod owned_indexes;
mod packing;
mod program;
mod programs;
mod recoding;
mod streams;
mod words;
