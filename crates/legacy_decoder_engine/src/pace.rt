//! When a decoder tries lanes: only while they read whole blocks, so that no input is read twice for long.
use std::cell::Cell;

/// The number of bytes that are read form by form after lanes first read less than a block, and after a malformed sequence.
const NEAR: usize = 64;

/// The least number of bytes for which lanes are worth their beginning.
const ENOUGH: usize = 32;

/// The most bytes that are read form by form before lanes are tried again.
const FAR: usize = 4096;

/// The number of bytes that are read form by form after long ASCII.
const AFTER_ASCII: usize = 512;

/// The number of bytes that are read form by form after a block of lanes.
const AFTER_LANES: usize = 12;

/// The least number of bytes of ASCII between tags.
const LONG_ASCII: usize = 32;

/// The number of bytes that a decoder reads form by form before it tries lanes.
#[derive(Drop)]
pub struct Pace {
    /// The number of bytes still to be read.
    left: Cell<usize>,
    /// The number of bytes after lanes next read less than a block.
    next: Cell<usize>,
}

impl Pace {
    /// Returns the pace at the beginning of a text, where lanes are tried at once.
    #[inline(always)]
    pub fn new() -> Pace {
        Pace {
            left: Cell::new(0),
            next: Cell::new(NEAR),
        }
    }

    /// Returns the number of bytes to read before lanes.
    #[inline(always)]
    pub(crate) fn left(&self) -> usize {
        self.left.get()
    }

    /// Is told that a malformed sequence was reported. Others often follow it.
    #[inline(always)]
    pub fn after_malformed(&self) {
        self.left.set(self.left.get().max(NEAR));
    }

    /// Is told that this number of bytes of ASCII was read by blocks.
    // Text with tags has long ASCII between its rows of pairs, and most of these are too short for lanes.
    #[inline(always)]
    pub(crate) fn after_ascii(&self, count: usize) {
        if count >= LONG_ASCII {
            self.left.set(self.left.get().max(AFTER_ASCII));
        }
    }

    /// Is told that this number of bytes was read form by form.
    #[inline(always)]
    pub(crate) fn after_forms(&self, count: usize) {
        self.left.set(self.left.get().saturating_sub(count));
    }

    /// Is told that too few bytes past ASCII follow for lanes.
    #[inline(always)]
    pub(crate) fn after_few(&self) {
        self.left.set(NEAR);
    }

    /// Is told that lanes were tried, and read this number of bytes.
    #[inline(always)]
    pub(crate) fn after_lanes(&self, count: usize) {
        if count >= ENOUGH {
            self.left.set(AFTER_LANES);
            self.next.set(NEAR);
            return;
        }
        let next = self.next.get();
        self.left.set(next);
        self.next.set(next.saturating_mul(2).min(FAR));
    }
}
