//! Lists of numbers in any form.
ghost use Rattle.std.specs.Prelude.{◌≡◌, ℕ, ◌+◌, ◌<◌, ◌≤◌, List, length, slice_index};

use super::entries::Entry;

/// Consecutive numbers at consecutive positions, as a walk over a list finds them.
#[derive(Clone, Copy)]
pub(super) struct Row {
    /// The position of the first number.
    pub(super) pointer: usize,
    /// The first number.
    pub(super) scalar: usize,
    /// How many there are.
    pub(super) count: usize,
    /// The walk's next place.
    pub(super) next: usize,
}

/// A list of numbers, read one at a time.
pub(super) trait Numbers {
    ghost numbers: { Self → List ℕ };

    /// Says when a walk that has reached position `at` (the second number) is at a place (the first number).
    ghost is_at: { Self → ℕ → ℕ → Type 0 } = { λ _ _ _. Unit {0} };

    /// A walk begins at place 0.
    ghost begins: { (s : Self) → is_at s 0 0 };

    /// Returns the length of the list.
    fn count(&self) -> usize
        ensures { result ≡ length (numbers self.now) };

    /// Returns the number at a position.
    fn number(&self, at: usize) -> usize
        requires { at < length (numbers self.now) }
        ensures { result ≡ slice_index (numbers self.now) at };

    /// Returns the next consecutive numbers of a walk that has reached position `at`. The numbers before them are 0.
    fn row(&self, place: usize, at: usize) -> Row
        requires within { at < length (numbers self.now) }
        requires place { is_at self.now place at }
        ensures from { at ≤ result.pointer }
        ensures gap { (k : ℕ) → at ≤ k → k < result.pointer → slice_index (numbers self.now) k ≡ 0 }
        ensures some { 0 < result.count }
        ensures within { result.pointer + result.count ≤ length (numbers self.now) }
        ensures small { result.scalar + result.count ≤ 0x1_0000_0000 }
        ensures numbers { (k : ℕ) → k < result.count →
            slice_index (numbers self.now) (result.pointer + k) ≡ result.scalar + k }
        ensures place { is_at self.now result.next (result.pointer + result.count) };
}

/// A flat index.
impl<'a, E: Entry> Numbers for &'a [E] {
    ghost numbers = { λ s. E.numbers s.now };

    ghost begins = { λ _. tt };

    fn count(&self) -> usize {
        self.len()
    }

    #[inline(always)]
    fn number(&self, at: usize) -> usize {
        E::number(self, at)
    }

    #[inline(always)]
    fn row(&self, place: usize, at: usize) -> Row {
        Row {
            pointer: at,
            scalar: E::number(self, at),
            count: 1,
            next: place,
        }
    }
}

/// Returns the number at a position, or 0 past the end.
#[inline]
pub(super) fn number_at<N: Numbers>(list: &N, at: usize) -> usize
    ensures { result ≡ slice_index (N.numbers list.now) at }
{
    if at < list.count() {
        list.number(at)
    } else {
        0
    }
}
