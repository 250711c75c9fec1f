//! Encoders that cache the pairs of another encoder.
use crate::encoder_rows::{EncoderRow, TestedEncoder, follow_encoder};
use legacy_codecs::{CachedEncoder, EncodesPairs, PAIR_ROOM};
use std::process::Abort;

impl<'a, E: EncodesPairs> TestedEncoder for CachedEncoder<'a, E> {
    type Of = CachedEncoder<'a, E>;

    fn made(_rt: &impl Abort, of: CachedEncoder<'a, E>) -> CachedEncoder<'a, E> {
        of
    }

    fn pending(&self) -> Option<bool> {
        None
    }
}

/// Returns room for pairs, in which each place has this value.
// It has no clause, because no test needs to know its entries.
pub(crate) fn pair_room(rt: &(impl AllocGlobal + Abort), value: u16) -> Vec<u16> {
    match vec![in rt.alloc(); value; PAIR_ROOM] {
        Ok(room) => room,
        Err(_) => panic!(rt; "memory"),
    }
}

/// Follows the rows with an encoder that lists the pairs of this one in `room`.
///
/// Returns `false` without that if `room` is too short.
pub(crate) fn encode_listed<E: EncodesPairs>(
    rt: &(impl AllocGlobal + Abort),
    encoder: &E,
    room: &mut [u16],
    rows: &[EncoderRow],
) -> bool {
    match CachedEncoder::new(encoder, room) {
        Some(cached) => {
            follow_encoder::<CachedEncoder<E>>(rt, cached, rows);
            true
        }
        None => false,
    }
}
