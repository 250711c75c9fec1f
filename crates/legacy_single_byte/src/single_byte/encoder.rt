//! The encoder of the single-byte encodings.
ghost use Rattle.std.specs.Prelude.{◌≡◌, ◌+◌, ◌-◌, ◌<◌, ◌≤◌, [], ◌∷◌, MatchResult, Some, None, IfSome, option_map};
ghost use Rattle.legacy_base.specs.Encoders.{single_byte, new_encoder};
ghost use Rattle.legacy_base.specs.SingleByte.{single_byte_code};
ghost use Rattle.legacy_single_byte.specs.SingleByteRun.{IsSingleByteRun, IsLongestRun, single_byte_run_fault};
ghost use Rattle.{legacy_single_byte.specs.SingleByteCodes.single_byte_plain, legacy_encoder_engine.specs.Moves.IsCode};

use super::run::{SingleByteRun, SingleByteRunError, check_run};
use legacy_base::{EncoderStep, RawEncoder, SingleByteTable, Source};
use legacy_encoder_engine::drive::drive_encoder;
use legacy_encoder_engine::moves::EncoderMove;
use legacy_encoder_engine::plain_codes::PlainCodes;

/// The encoder of a single-byte encoding (Encoding Standard, "single-byte encoder").
///
/// An ASCII scalar is encoded as itself, and the scalar at place `p` of the table as byte 0x80 +
/// `p`. All other scalars are unmappable. The encoder knows a run of the table in which the scalars
/// are consecutive: it does not search for these.
#[derive(Clone, Copy)]
pub struct SingleByteEncoder<'a> {
    table: &'a SingleByteTable,
    run_bmp_offset: u16,
    run_byte_offset: u8,
    run_length: u8,
    ghost within: { run_byte_offset + run_length ≤ 128 },
    ghost in_plane: { run_bmp_offset + run_length ≤ 0x1_0000 },
    ghost is_run: { IsSingleByteRun table.now.entries run_bmp_offset run_byte_offset run_length },
}

/// Returns the place of a scalar past ASCII, if it is in the table.
fn place_of(table: &SingleByteTable, c: char) -> Option<usize>
    requires { 0x80 ≤ c }
    ensures bound { IfSome result (λ place. place < 128) }
    ensures code { single_byte_code table.now.entries c ≡ option_map (λ place. (0x80 + place) ∷ []) result }
{
    table.place(c)
}

/// Returns the byte of a scalar past ASCII by a search of the table, or the scalar itself as unmappable.
#[inline(always)]
fn searched(table: &SingleByteTable, c: char) -> EncoderMove
    requires { 0x80 ≤ c }
    ensures { IsCode (single_byte_code table.now.entries c) c result }
{
    match place_of(table, c) {
        Some(place) => EncoderMove::One((0x80 + place) as u8),
        None => EncoderMove::Unmappable(c),
    }
}

impl<'a> SingleByteEncoder<'a> {
    ghost use Rattle.legacy_single_byte.specs.SingleByteEncoder.{single_byte_encoder_state};

    /// Returns an encoder before its first scalar, which writes by the table and knows this run.
    ///
    /// The `run_length` places from `run_byte_offset` on must contain the scalars from
    /// `run_bmp_offset` upwards. Otherwise the result is the first fault of these:
    ///
    /// - `RunStart`: the run starts before place 32.
    /// - `RunPastEnd`: the run ends past place 128.
    /// - `RunMismatch(place)`: the table has another value at the place, which is the first such
    ///   one.
    pub fn new(
        table: &'a SingleByteTable,
        run_bmp_offset: u16,
        run_byte_offset: u8,
        run_length: u8,
    ) -> Result<SingleByteEncoder<'a>, SingleByteRunError>
        ensures fault { let found = single_byte_run_fault table.now.entries run_bmp_offset
            run_byte_offset run_length in
            MatchResult result (λ _. found ≡ None) (λ e. found ≡ Some e) }
        ensures state { MatchResult result
            (λ e. single_byte_encoder_state e ≡ new_encoder (single_byte table.now.entries))
            (λ _. Unit {0}) }
    {
        check_run(table, run_bmp_offset, run_byte_offset, run_length)?;
        Ok(SingleByteEncoder {
            table,
            run_bmp_offset,
            run_byte_offset,
            run_length,
        })
    }

    /// Returns an encoder before its first scalar, which writes by the table.
    ///
    /// Its run is the one that `SingleByteRun::longest` finds. It allocates nothing.
    pub fn with_longest_run(table: &'a SingleByteTable) -> SingleByteEncoder<'a>
        ensures state { single_byte_encoder_state result
            ≡ new_encoder (single_byte table.now.entries) }
        ensures run { IsLongestRun table.now.entries
            result.run_bmp_offset result.run_byte_offset result.run_length }
    {
        let run = SingleByteRun::longest(table);
        SingleByteEncoder {
            table,
            run_bmp_offset: run.scalar,
            run_byte_offset: run.start,
            run_length: run.count,
        }
    }

    /// Returns the place of a scalar in the run, or a number past the run's end if it is not in it.
    #[inline(always)]
    fn run_place(&self, scalar: u32) -> u32
        ensures { result < self.now.run_length → (self.now.run_bmp_offset ≤ scalar)
            × (result ≡ scalar - self.now.run_bmp_offset) }
    {
        let first = u32::from(self.run_bmp_offset);
        if scalar >= first {
            scalar - first
        } else {
            0xFFFF
        }
    }

    /// Returns the place of a code unit in the run, or a number past the run's end.
    // There is no test: no run goes past U+FFFF, so a difference that wraps around is past the run's end.
    #[inline(always)]
    fn unit_place(&self, unit: u16) -> u16
        ensures { result < self.now.run_length → (self.now.run_bmp_offset ≤ unit)
            × (result ≡ unit - self.now.run_bmp_offset) }
    {
        unit.wrapping_sub(self.run_bmp_offset)
    }

    /// Returns the byte of a place in the run, or any byte if the place is past its end.
    #[inline(always)]
    fn run_byte(&self, place: u16) -> u8
        ensures { place < self.now.run_length → result ≡ 0x80 + (self.now.run_byte_offset + place) }
    {
        let first = 0x80 + u16::from(self.run_byte_offset);
        (place.wrapping_add(first) % 0x100) as u8
    }
}

impl PlainCodes for SingleByteEncoder<'_> {
    ghost codec = { λ encoder. single_byte encoder.table.now.entries };

    ghost past = { 1 };

    ghost plain = { λ encoder. single_byte_plain encoder.table.now.entries };

    #[inline]
    fn past_need(&self) -> usize {
        1
    }

    // One test covers ASCII and the run: no pattern predicts which of them the next scalar is in.
    #[inline(always)]
    #[tactic(auto, unfolding(legacy_base::specs::SingleByte::single_byte_code))]
    fn code_of(&self, c: char) -> EncoderMove {
        let scalar = c as u32;
        let place = self.run_place(scalar);
        if (scalar < 0x80) | (place < u32::from(self.run_length)) {
            return EncoderMove::One(if scalar < 0x80 {
                scalar as u8
            } else {
                self.run_byte(place as u16)
            });
        }
        searched(self.table, c)
    }

    const GOES_PAST_PAIRS: bool = true;

    const GOES_BY_UNITS: bool = true;

    // There is no branch, so that the compiler makes vectors of it.
    #[inline(always)]
    fn byte_of(&self, unit: u16) -> (u8, bool) {
        let place = self.unit_place(unit);
        let past = self.run_byte(place);
        let is_in_run = place < u16::from(self.run_length);
        (
            if unit < 0x80 { unit as u8 } else { past },
            (unit < 0x80) | is_in_run,
        )
    }
}

impl RawEncoder for SingleByteEncoder<'_> {
    ghost state = { λ encoder. new_encoder (single_byte encoder.table.now.entries) };

    fn step<S: Source>(&mut self, src: &mut S, dst: &mut [u8], last: bool) -> EncoderStep {
        drive_encoder(self, src, dst, last)
    }

    fn max_buffer_length_from_utf16_without_replacement(&self, u16_length: usize) -> Option<usize> {
        Some(u16_length)
    }

    fn max_buffer_length_from_utf8_without_replacement(&self, byte_length: usize) -> Option<usize> {
        Some(byte_length)
    }
}
