//! Tests of the libraries by their public calls.
//!
//! They are in their own crate: the tests of a crate are proved beside all of that crate, and
//! these do not need it.
//!
//! Each codec has one file for its decoder and, in its folder, one for its encoder, with rows of
//! calls and their wanted results. `rows` and `encoder_rows` follow the rows. `codecs` follows a
//! table of them with its codec over flat tables and packed ones, and `each_codec` all tables.
//! If a row does not hold, its result is printed beside the wanted one.
#![tactic(auto)]

#[cfg(test)]
mod big5;
#[cfg(test)]
mod called;
#[cfg(test)]
mod codecs;
#[cfg(test)]
mod compared;
#[cfg(test)]
mod cuts;
#[cfg(test)]
mod decoder_runs;
#[cfg(test)]
mod destinations;
#[cfg(test)]
mod each_codec;
#[cfg(test)]
mod encode_events;
#[cfg(test)]
mod encoder_rows;
#[cfg(test)]
mod euc_jp;
#[cfg(test)]
mod euc_kr;
#[cfg(test)]
mod events;
#[cfg(test)]
mod gb18030;
#[cfg(test)]
mod indexes;
#[cfg(test)]
mod iso_2022_jp;
#[cfg(test)]
mod listed_pairs;
#[cfg(test)]
mod packed;
#[cfg(test)]
mod pairs;
#[cfg(test)]
mod pointers;
#[cfg(test)]
mod replacement;
#[cfg(test)]
mod replacing;
#[cfg(test)]
mod rows;
#[cfg(test)]
mod shift_jis;
#[cfg(test)]
mod single_byte;
#[cfg(test)]
mod source_texts;
#[cfg(test)]
mod tables;
#[cfg(test)]
mod units;
#[cfg(test)]
mod user_defined;
#[cfg(test)]
mod utf16;
