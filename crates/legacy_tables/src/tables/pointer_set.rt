//! Sets of pointers.
ghost use Rattle.std.specs.Prelude.{◌≡◌, true};
ghost use Rattle.legacy_tables.specs.PointerSets.{HasOnly, is_in_blocks};

/// A set of pointers below 24,000, with a bit for each. Each index has fewer pointers.
#[derive(Drop)]
pub(super) struct PointerSet {
    blocks: [u64; 375],
}

impl PointerSet {
    /// Makes the set of an order's pointers.
    pub(super) fn of(order: &[u16]) -> PointerSet
        ensures { HasOnly result.blocks order.now }
    {
        let mut blocks = [0u64; 375];
        for entry in order {
            let pointer = usize::from(*entry);
            if pointer < 24000 {
                blocks[pointer / 64] |= 1u64 << (pointer % 64);
            }
        }
        PointerSet { blocks }
    }

    /// Checks whether a pointer is in the set.
    #[inline(always)]
    pub(super) fn contains(&self, pointer: usize) -> bool
        ensures { result ≡ true → is_in_blocks self.now.blocks pointer ≡ true }
    {
        pointer < 24000 && (self.blocks[pointer / 64] >> (pointer % 64)) & 1 == 1
    }
}
