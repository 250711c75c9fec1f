//! What a codec of pairs gives, so that eight pairs are looked up at once.
ghost use Rattle.std.specs.Prelude.{◌≡◌, ℕ, ◌<◌, ◌≤◌, List, false};
ghost use Rattle.legacy_tables.specs.{AcceptedTables.AcceptedIndexes, Indexes.FlatIndexes, Tables.{index_list, is_narrow_index}};
ghost use Rattle.legacy_base.specs.Grammar.{Grammar};
ghost use Rattle.legacy_decoder_engine.specs.ReadAhead.{HasAscii, IsFrontForm};
ghost use Rattle.legacy_decoder_engine.specs.LaneCodes.{ArePairs, ArePlaces};
ghost use Rattle.legacy_tables.specs.declared.tables.IndexName.TheVariants as names;

use crate::forms::Form;
use legacy_tables::{FlatTables, IndexName};
use std::cell::Cell;
use std::simd::prelude::*;

/// A codec with ASCII and pairs whose scalars are entries of one index, so that eight pairs are looked up at once.
pub trait LaneCodec {
    /// The grammar, given the flat indexes.
    ghost grammar: { FlatIndexes → Grammar };

    /// The index.
    ghost entries: { FlatIndexes → List ℕ };

    /// The place in the index of a code of two bytes, the first one low, or a number past the end of the index.
    ghost place: { ℕ → ℕ };

    /// The number of pointers of a lead and a trail. They are below it.
    ghost pointers: { ℕ };

    /// Returns the form that four bytes begin with, of which the first is past ASCII.
    ///
    /// `guess` is what the codec keeps from one form of four bytes to the next.
    fn form_at(
        tables: &FlatTables<'_>,
        guess: &Cell<usize>,
        first: u8,
        second: u8,
        third: u8,
        fourth: u8,
    ) -> Form
        requires { 0x80 ≤ first }
        ensures { IsFrontForm (grammar tables.now.flat) first second third fourth result };

    /// Returns the name of the index. An entry from U+0001 to U+FFFF is the scalar of its pair.
    fn index() -> IndexName
        ensures list { (flat : FlatIndexes) → index_list flat result ≡ entries flat }
        ensures pairs { (tables : AcceptedIndexes) → ArePairs (grammar tables.flat) (entries tables.flat) place }
        ensures wide { is_narrow_index result ≡ false → result ≡ names.Big5 };

    /// Returns the number of pointers of a lead and a trail.
    // A place from it on is as good as none, so lanes need not test the lead.
    fn pointer_count() -> usize
        ensures count { result ≡ pointers }
        ensures small { pointers < 0x1_0000 };

    /// Returns the places of eight codes, which are exact below the number of pointers.
    fn places(codes: u16x8) -> u16x8
        ensures { ArePlaces pointers place codes result };

    /// Returns whether `past` bytes past ASCII among these bytes are enough to read them eight codes at a time.
    // Fewer are enough for a codec with many trails in ASCII.
    #[inline(always)]
    fn are_many(past: u32, bytes: usize) -> bool
        requires { bytes ≤ 64 }
    {
        16 * past as usize > 9 * bytes
    }

    /// Returns whether a quick test shows forms of one byte past ASCII in a block. Such a block is read form by form.
    #[inline(always)]
    fn has_singles(block: u8x64) -> bool {
        false
    }

    /// An ASCII byte is its own scalar.
    ghost ascii: { (tables : AcceptedIndexes) → HasAscii (grammar tables.flat) };
}
