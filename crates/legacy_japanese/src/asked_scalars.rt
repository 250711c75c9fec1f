//! The scalars whose codes in Japanese encodings are not those of their own pointers.
ghost use Rattle.std.specs.Prelude.{◌≡◌, ◌<◌, ℕ, length, slice_index};
ghost use Rattle.legacy_japanese.specs.ByPointer.{GoesByPointer};

use legacy_encoder_engine::asked_pairs::{PairEntries, ask_pairs};

/// Looks up the codes of these scalars, and writes their entries into the list.
///
/// The list already has the entries of all other scalars.
pub(crate) fn ask_others<E: PairEntries>(entries: &E, pairs: &mut [u16])
    requires { length pairs.old ≡ 65536 }
    ensures { ((c : ℕ) → c < 65536 → GoesByPointer c → E.right entries.now c (slice_index pairs.old c)) →
        (c : ℕ) → c < 65536 → E.right entries.now c (slice_index pairs.new c) }
{
    ask_pairs(entries, pairs, 0, 0x81);
    ask_pairs(entries, pairs, 0xA5, 0xA6);
    ask_pairs(entries, pairs, 0x203E, 0x203F);
    ask_pairs(entries, pairs, 0x2212, 0x2213);
    ask_pairs(entries, pairs, 0xFF61, 0xFFA0);
}
