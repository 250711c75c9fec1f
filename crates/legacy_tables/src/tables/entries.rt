//! The entries of flat indexes.
ghost use Rattle.std.specs.Prelude.{◌≡◌, ◌≢◌, ℕ, ◌+◌, ◌<◌, ◌≤◌, List, true, length, slice_index, slice_set};

/// An entry of a flat index, narrow or wide.
pub trait Entry: Sized {
    /// The numbers of a list of entries.
    ghost numbers: { List Self → List ℕ };

    /// All numbers of entries are below this one.
    ghost limit: { ℕ };

    /// Returns the number at a place.
    fn number(entries: &[Self], at: usize) -> usize
        requires { at < length (numbers entries.now) }
        ensures value { result ≡ slice_index (numbers entries.now) at }
        ensures small { result < 0x1_0000_0000 };

    /// Checks whether none of the 32 entries from a place on has the number.
    ///
    /// The result may be `false` too if none has it. The library compares the entries as vectors.
    fn lacks(entries: &[Self], from: usize, number: usize) -> bool
        requires { from + 32 ≤ length (numbers entries.now) }
        ensures { result ≡ true → (k : ℕ) → from ≤ k → k < from + 32 →
            slice_index (numbers entries.now) k ≢ number };

    /// Writes a number at a place.
    fn put(entries: &mut [Self], at: usize, number: usize)
        requires within { at < length entries.old }
        requires small { number < limit }
        ensures { numbers entries.new ≡ slice_set (numbers entries.old) at number };

    /// Writes 0 at each place.
    fn clear(entries: &mut [Self])
        ensures { (k : ℕ) → slice_index (numbers entries.new) k ≡ 0 };

    /// Each entry has one number.
    ghost all: { (entries : List Self) → length (numbers entries) ≡ length entries };
}

impl Entry for u16 {
    ghost use Rattle.std.proofs.Common.{refl};

    ghost numbers = { λ entries. entries };

    ghost limit = { 0x1_0000 };

    #[inline(always)]
    fn number(entries: &[u16], at: usize) -> usize {
        usize::from(entries[at])
    }

    #[inline(always)]
    fn lacks(entries: &[u16], from: usize, number: usize) -> bool {
        if number > 0xFFFF {
            return true;
        }
        !entries[from..from + 32].contains(&(number as u16))
    }

    #[inline(always)]
    fn put(entries: &mut [u16], at: usize, number: usize) {
        entries[at] = number as u16;
    }

    #[inline(always)]
    fn clear(entries: &mut [u16]) {
        entries.fill(0);
    }

    ghost all = { λ _. refl };
}

impl Entry for u32 {
    ghost use Rattle.std.proofs.Common.{refl};

    ghost numbers = { λ entries. entries };

    ghost limit = { 0x1_0000_0000 };

    #[inline(always)]
    fn number(entries: &[u32], at: usize) -> usize {
        entries[at] as usize
    }

    #[inline(always)]
    fn lacks(entries: &[u32], from: usize, number: usize) -> bool {
        if number > 0xFFFF_FFFF {
            return true;
        }
        // The library compares 16 entries as vectors.
        if entries[from..from + 16].contains(&(number as u32)) {
            return false;
        }
        !entries[from + 16..from + 32].contains(&(number as u32))
    }

    #[inline(always)]
    fn put(entries: &mut [u32], at: usize, number: usize) {
        entries[at] = number as u32;
    }

    #[inline(always)]
    fn clear(entries: &mut [u32]) {
        entries.fill(0);
    }

    ghost all = { λ _. refl };
}
