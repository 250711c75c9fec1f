//! Room for lists of pairs.
ghost use Rattle.std.specs.Prelude.{◌≡◌, replicate, IfOk};

use legacy_encoder_engine::cached::PAIR_ROOM;
use std::alloc::{AllocError, Global};

/// Allocates room for the pairs of a `ListedEncoder`: `PAIR_ROOM` entries, 128 KB.
///
/// All entries are 0. The only error is that the allocation failed.
pub fn pair_room(alloc: Global) -> Result<Vec<u16>, AllocError>
    ensures { IfOk result (λ room. room.items ≡ replicate 65536 0) }
{
    let room = vec![in alloc; 0; PAIR_ROOM]?;
    Ok(room)
}
