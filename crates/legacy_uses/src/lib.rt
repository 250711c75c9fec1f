//! Callers of the codecs: the code of `docs/USING.md`.
//!
//! Each is the core of a small program, proved by the contracts of the calls that it makes.
#![tactic(auto)]

pub mod browser;
pub mod checker;
pub mod code_pages;
pub mod decoded_events;
pub mod encoded_events;
pub mod mail;
pub mod transcoder;
