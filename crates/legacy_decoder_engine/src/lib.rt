//! The shared parts of all legacy decoders: the small moves of a decoder, the one loop that makes calls of them, the
//! loops that read well-formed text ahead of it, and the one decoder of the codecs whose forms have a lead and a
//! trail.
#![tactic(auto)]

pub mod common_forms;
pub mod drive;
pub mod forms;
pub mod held_lead;
pub mod lane_blocks;
pub mod lane_codec;
pub mod lane_places;
pub mod lanes;
pub mod lead_and_trail;
pub mod lead_decoder;
pub mod moves;
pub mod pace;
pub mod picks;
pub mod places;
pub mod read_ahead;
