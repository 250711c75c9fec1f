//! The encoder of ISO-2022-JP that reads pairs from a list, in memory that the caller lends.
ghost use Rattle.std.specs.Prelude.{◌≡◌, ◌≢◌, ◌<◌, ◌≤◌, ℕ, length, slice_index, MatchOption};
ghost use Rattle.legacy_japanese.specs.Iso2022JpEncoder.{HasNoPair, IsListedEntry, IsWholeEntry, iso_2022_jp_mark, iso_2022_jp_mark-some, state_in};
ghost use Rattle.std.specs.Char.{IsScalar};
ghost use Rattle.legacy_base.specs.declared.modes.EncoderMode.TheVariants.{TwoByte};

use crate::asked_scalars::ask_others;
use crate::iso_2022_jp::encoder::{
    EncoderBy, FindsPairs, Iso2022JpEncoder, TablePairs, asked_past_pairs, pair_of,
};
use legacy_base::{EncoderMode, PackedPart, Source};
use legacy_encoder_engine::ahead_codes::AheadCodes;
use legacy_encoder_engine::asked_pairs::PairEntries;
use legacy_encoder_engine::cached::PAIR_ROOM;
use legacy_encoder_engine::drive::put_two;
use legacy_encoder_engine::moves::EncoderMove;
use legacy_encoder_engine::read_ahead::read_common;
use legacy_tables::{EncoderTables, Marks, RangePart};

// The entries of a list of pairs, each looked up in the tables.
impl PairEntries for TablePairs<'_> {
    ghost use Rattle.std.proofs.Common.{refl};

    ghost right = { λ pairs. IsWholeEntry pairs.tables.now.flat };

    fn pair_entry(&self, c: char) -> u16 {
        match pair_of(self.tables, c) {
            Some((lead, trail)) => u16::from(lead) + 256 * u16::from(trail),
            None => 0,
        }
    }

    ghost others = { λ _ _ never. record {
      told = λ n. absurd (n refl);
      whole = λ scalar. absurd (never scalar);
    } };
}

// The lead and the trail of a pointer, as one number.
impl Marks for TablePairs<'_> {
    ghost mark = { iso_2022_jp_mark };

    #[inline(always)]
    fn mark(&self, pointer: usize) -> u16 {
        (pointer / 94 + 0x21) as u16 + 256 * (pointer % 94 + 0x21) as u16
    }

    ghost some = { iso_2022_jp_mark-some };
}

/// The pairs of all scalars below U+10000 in a list, which is right for the tables.
#[derive(Clone, Copy)]
pub struct ListedPairs<'a, 'b> {
    found: TablePairs<'a>,
    listed: &'b [u16],
    ghost all: { length listed.now ≡ 65536 },
    ghost told: { (c : ℕ) → c < 65536 →
        IsListedEntry found.tables.now.flat c (slice_index listed.now c) },
    ghost whole: { (c : ℕ) → c < 65536 → IsScalar c → slice_index listed.now c ≡ 0 →
        HasNoPair found.tables.now.flat c },
}

impl ListedPairs<'_, '_> {
    /// Returns the listed pair of a scalar as one number, the lead in the low byte, or 0.
    #[inline(always)]
    fn entry_of(&self, c: char) -> u16
        ensures told { IsListedEntry self.now.found.tables.now.flat c result }
        ensures whole { c < 65536 → result ≡ 0 → HasNoPair self.now.found.tables.now.flat c }
    {
        let scalar = c as usize;
        if scalar >= PAIR_ROOM {
            return 0;
        }
        self.listed[scalar]
    }
}

impl FindsPairs for ListedPairs<'_, '_> {
    ghost flat = { λ pairs. pairs.found.tables.now.flat };

    #[inline]
    #[tactic(auto, using(crate::proofs::Iso2022JpEncoderMoves::asks_listed))]
    fn asked(&self, mode: EncoderMode, c: char) -> (EncoderMode, EncoderMove) {
        if c > '\u{FFFF}' {
            return self.found.asked(mode, c);
        }
        let entry = self.entry_of(c);
        if entry == 0 {
            return asked_past_pairs(mode, c);
        }
        let pair = EncoderMove::Two((entry % 256) as u8, (entry / 256) as u8);
        (EncoderMode::TwoByte, pair)
    }

    // The list is copied, so that nothing else refers to it.
    #[inline]
    fn read<S: Source>(&self, mode: EncoderMode, src: &mut S, dst: &mut [u8], at: usize) -> usize {
        if let EncoderMode::TwoByte = mode {
            let own = *self;
            return read_common(&own, src, dst, at);
        }
        self.found.read(mode, src, dst, at)
    }
}

/// The codes of the pairs in the list, in two-byte mode.
impl AheadCodes for ListedPairs<'_, '_> {
    ghost state = { λ pairs. state_in pairs.found.tables.now.flat TwoByte };

    ghost need = { 3 };

    #[inline(always)]
    #[tactic(auto, using(crate::proofs::Iso2022JpEncoderMoves::serves))]
    fn widest(&self) -> usize {
        3
    }

    #[inline(always)]
    #[tactic(auto, using(crate::proofs::Iso2022JpEncoderMoves::puts_listed))]
    fn put_code(&self, _part: &mut RangePart, dst: &mut [u8], at: usize, c: char) -> Option<usize> {
        let entry = self.entry_of(c);
        if entry == 0 {
            return None;
        }
        put_two(dst, at, (entry % 256) as u8, (entry / 256) as u8);
        Some(at + 2)
    }

    const BEGINS_BY_TENS: bool = true;

    #[inline(always)]
    #[tactic(auto, using(crate::proofs::Iso2022JpEncoderMoves::reads_listed))]
    fn unit_bytes(&self, unit: u16) -> (u16, usize, bool) {
        let both = self.listed[usize::from(unit)];
        (both, 2, both != 0)
    }
}

/// The encoder of ISO-2022-JP with a list of pairs: it writes what `Iso2022JpEncoder` writes.
///
/// The list has the pairs of all scalars below U+10000, in memory that the caller lends. `new` makes
/// it in one walk over index jis0208, flat or packed, and looks up the scalars that have another
/// pair than their pointer's. Each pair is then one load. After the last call of a text the mode is
/// ASCII, so the encoder can encode any number of texts. Each copy has its own mode.
pub type CachedIso2022JpEncoder<'a, 'b> = EncoderBy<ListedPairs<'a, 'b>>;

impl<'a, 'b> EncoderBy<ListedPairs<'a, 'b>> {
    /// Returns an encoder that continues in the mode of `encoder` and writes what it would write.
    ///
    /// The result is `None` exactly if `room` is shorter than `PAIR_ROOM` entries. The entries of
    /// `room` may have any values before, and are overwritten. `encoder` is unchanged.
    pub fn new(
        encoder: &Iso2022JpEncoder<'a>,
        room: &'b mut [u16],
    ) -> Option<CachedIso2022JpEncoder<'a, 'b>>
        ensures { MatchOption result (length room.old < 65536)
            (λ cached. (65536 ≤ length room.old)
            × (state_in cached.pairs.found.tables.now.flat cached.mode
            ≡ state_in encoder.now.pairs.tables.now.flat encoder.now.mode)) }
    {
        if room.len() < PAIR_ROOM {
            return None;
        }
        let found = encoder.pairs;
        let listed = &mut room[..PAIR_ROOM];
        found.tables.fill(PackedPart::EucJpOrder, &found, listed);
        ask_others(&found, listed);
        Some(EncoderBy {
            pairs: ListedPairs { found, listed },
            mode: encoder.mode,
        })
    }
}
