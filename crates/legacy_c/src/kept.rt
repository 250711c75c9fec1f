//! The last bytes of those held back and of the source.
ghost use Rattle.std.specs.Prelude.{◌≡◌, ◌+◌, ◌-◌, ◌≤◌, ◌++◌, drop, length, take, slice_index_or};

/// Returns the byte at a place in two lists, or 0 past their end.
fn byte_at(held: &[u8], source: &[u8], place: usize) -> u8
    ensures { result ≡ slice_index_or (held.now ++ source.now) place 0 }
{
    if place < held.len() {
        return held[place];
    }
    let place = place - held.len();
    if place < source.len() {
        return source[place];
    }
    0
}

/// Returns the last `count` bytes of two lists.
pub fn kept(held: &[u8], source: &[u8], count: usize) -> [u8; 5]
    requires few { count ≤ 5 }
    requires short { length held.now ≤ 5 }
    requires enough { count ≤ length held.now + length source.now }
    ensures { take count result ≡ drop (length held.now + length source.now - count) (held.now ++ source.now) }
{
    let first = held.len() + source.len() - count;
    [
        byte_at(held, source, first),
        byte_at(held, source, first + 1),
        byte_at(held, source, first + 2),
        byte_at(held, source, first + 3),
        byte_at(held, source, first + 4),
    ]
}
