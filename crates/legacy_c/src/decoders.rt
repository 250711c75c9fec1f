//! A decoder that is made of its numbers, does one task, and is kept as numbers again.
ghost use Rattle.std.specs.Prelude.{◌≡◌, ◌≢◌, ◌+◌, ◌-◌, ◌≤◌, ◌++◌, drop, length, map, take, true, Some, IfNone, IfSome, MatchOption};
ghost use Rattle.legacy_base.specs.Grammar.{gb18030};
ghost use Rattle.legacy_c.specs.Lists.{range_pair};
ghost use Rattle.legacy_c.specs.Saved.{Changes, IsRefused, Saves, SavesNone, decoder_mode, grammar_of, uses_indexes};

use crate::decoder_tasks::DecoderTask;
use crate::held_decoder::HeldDecoder;
use crate::index_tables::IndexTables;
use crate::kept::kept;
use crate::saved::SavedDecoder;
use crate::tables::{pairs_of, table_of, tables_of, tables_with};
use legacy_base::DecoderMode;
use legacy_chinese::{Big5Decoder, Gb18030Decoder};
use legacy_japanese::{EucJpDecoder, Iso2022JpDecoder, ShiftJisDecoder};
use legacy_korean::EucKrDecoder;
use legacy_miscellaneous::{ReplacementDecoder, UserDefinedDecoder, Utf16Decoder};
use legacy_single_byte::SingleByteDecoder;

/// Keeps a mode, and the last `count` bytes of those kept and those read.
fn keep(saved: &mut SavedDecoder, source: &[u8], mode: u8, count: usize)
    requires few { count ≤ 5 }
    requires were_few { saved.old.count ≤ 5 }
    requires enough { count ≤ saved.old.count + length source.now }
    ensures long { length saved.old.held ≡ 5 }
    ensures codec { saved.new.codec ≡ saved.old.codec }
    ensures mode { saved.new.mode ≡ mode }
    ensures count { saved.new.count ≡ count }
    ensures held { take count saved.new.held ≡ drop (saved.old.count + length source.now - count)
        (take saved.old.count saved.old.held ++ source.now) }
{
    let held = kept(&saved.held[..usize::from(saved.count)], source, count);
    *saved = SavedDecoder {
        codec: saved.codec,
        mode,
        count: count as u8,
        held,
    };
}

/// Does a task with a decoder, and keeps the decoder's state.
#[inline]
fn run<D: HeldDecoder + Drop, U, R, T: DecoderTask<U, R>>(
    mut decoder: D,
    tables: &IndexTables,
    saved: &mut SavedDecoder,
    task: &T,
    output: &mut [U],
) -> R
    requires { Saves tables.now saved.old (D.state decoder) }
    ensures { Changes tables.now saved.old saved.new (λ before after.
        T.gives task.now before output.old after result output.new) }
{
    let _ = tables;
    let (result, read) = task.run(&mut decoder, output);
    keep(
        saved,
        &task.source()[..read],
        decoder.mode_number(),
        decoder.held_count(),
    );
    result
}

/// Does a task with the decoder that was made of the numbers, and keeps its state.
///
/// Returns `None`, and nothing changes, if there is no decoder.
#[inline]
fn run_if<D: HeldDecoder + Drop, U, R, T: DecoderTask<U, R>>(
    decoder: Option<D>,
    tables: &IndexTables,
    saved: &mut SavedDecoder,
    task: &T,
    output: &mut [U],
) -> Option<R>
    requires { MatchOption decoder (SavesNone tables.now saved.old) (λ d. Saves tables.now saved.old (D.state d)) }
    ensures done { IfSome result (λ answer. Changes tables.now saved.old saved.new (λ before after.
        T.gives task.now before output.old after answer output.new)) }
    ensures none { IfNone result (SavesNone tables.now saved.old) }
    ensures unchanged { IfNone result ((saved.new ≡ saved.old) × (output.new ≡ output.old)) }
{
    match decoder {
        Some(decoder) => Some(run(decoder, tables, saved, task, output)),
        None => None,
    }
}

/// Returns the mode of ISO-2022-JP of a number.
fn mode_of(number: u8) -> Option<DecoderMode>
    ensures { result ≡ decoder_mode number }
{
    match number {
        0 => Some(DecoderMode::Ascii),
        1 => Some(DecoderMode::Roman),
        2 => Some(DecoderMode::Katakana),
        3 => Some(DecoderMode::TwoByte),
        _ => None,
    }
}

/// Does a task with a decoder of GBK and gb18030.
#[tactic(auto, using(crate::proofs::SavedStates::saves, crate::proofs::SavedStates::saves_none, crate::proofs::SavedStates::no_grammar))]
fn with_gb18030<U, R, T: DecoderTask<U, R>>(
    tables: &IndexTables,
    saved: &mut SavedDecoder,
    held: &[u8],
    task: &T,
    output: &mut [U],
) -> Option<R>
    requires held { (saved.old.count ≤ 5) × (held.now ≡ take saved.old.count saved.old.held) }
    requires codec { grammar_of tables.now saved.old.codec saved.old.mode
        ≡ Some (gb18030 tables.now.gb18030.now (map range_pair tables.now.ranges.now)) }
    requires uses { uses_indexes saved.old.codec ≡ true }
    ensures done { IfSome result (λ answer. Changes tables.now saved.old saved.new (λ before after.
        T.gives task.now before output.old after answer output.new)) }
    ensures none { IfNone result (IsRefused tables.now saved.old) }
    ensures unchanged { IfNone result ((saved.new ≡ saved.old) × (output.new ≡ output.old)) }
{
    let Some(pairs) = pairs_of(tables) else {
        return None;
    };
    let lists = tables_with(tables, &pairs);
    let decoder = Gb18030Decoder::resume(&lists, held);
    run_if(decoder, tables, saved, task, output)
}

/// Does a task with a decoder of a single-byte encoding.
#[tactic(auto, using(crate::proofs::SavedStates::saves, crate::proofs::SavedStates::saves_none, crate::proofs::SavedStates::no_grammar))]
fn with_single_byte<U, R, T: DecoderTask<U, R>>(
    tables: &IndexTables,
    saved: &mut SavedDecoder,
    held: &[u8],
    task: &T,
    output: &mut [U],
) -> Option<R>
    requires held { (saved.old.count ≤ 5) × (held.now ≡ take saved.old.count saved.old.held) }
    requires codec { (saved.old.codec ≡ 1) × (saved.old.mode ≡ 0) }
    ensures done { IfSome result (λ answer. Changes tables.now saved.old saved.new (λ before after.
        T.gives task.now before output.old after answer output.new)) }
    ensures none { IfNone result (IsRefused tables.now saved.old) }
    ensures unchanged { IfNone result ((saved.new ≡ saved.old) × (output.new ≡ output.old)) }
{
    let Some(table) = table_of(tables) else {
        return None;
    };
    let decoder = SingleByteDecoder::resume(&table, held);
    run_if(decoder, tables, saved, task, output)
}

/// Does a task with a decoder that reads the indexes, and no ranges.
#[tactic(auto, using(crate::proofs::SavedStates::saves, crate::proofs::SavedStates::saves_none, crate::proofs::SavedStates::no_grammar))]
fn with_indexes<U, R, T: DecoderTask<U, R>>(
    tables: &IndexTables,
    saved: &mut SavedDecoder,
    held: &[u8],
    task: &T,
    output: &mut [U],
) -> Option<R>
    requires held { (saved.old.count ≤ 5) × (held.now ≡ take saved.old.count saved.old.held) }
    requires codec { (4 ≤ saved.old.codec) × (saved.old.codec ≤ 8) }
    requires mode { saved.old.codec ≢ 6 → saved.old.mode ≡ 0 }
    ensures done { IfSome result (λ answer. Changes tables.now saved.old saved.new (λ before after.
        T.gives task.now before output.old after answer output.new)) }
    ensures none { IfNone result (IsRefused tables.now saved.old) }
    ensures unchanged { IfNone result ((saved.new ≡ saved.old) × (output.new ≡ output.old)) }
{
    let Some(lists) = tables_of(tables) else {
        return None;
    };
    match saved.codec {
        4 => run_if(
            Big5Decoder::resume(&lists, held),
            tables,
            saved,
            task,
            output,
        ),
        5 => run_if(
            EucJpDecoder::resume(&lists, held),
            tables,
            saved,
            task,
            output,
        ),
        7 => run_if(
            ShiftJisDecoder::resume(&lists, held),
            tables,
            saved,
            task,
            output,
        ),
        8 => run_if(
            EucKrDecoder::resume(&lists, held),
            tables,
            saved,
            task,
            output,
        ),
        _ => match mode_of(saved.mode) {
            Some(mode) => {
                let decoder = Iso2022JpDecoder::resume(&lists, mode, held);
                run_if(decoder, tables, saved, task, output)
            }
            None => None,
        },
    }
}

/// Does a task with a decoder that reads no index.
#[tactic(auto, using(crate::proofs::SavedStates::saves, crate::proofs::SavedStates::saves_none, crate::proofs::SavedStates::no_grammar))]
fn without_indexes<U, R, T: DecoderTask<U, R>>(
    tables: &IndexTables,
    saved: &mut SavedDecoder,
    held: &[u8],
    task: &T,
    output: &mut [U],
) -> Option<R>
    requires held { (saved.old.count ≤ 5) × (held.now ≡ take saved.old.count saved.old.held) }
    requires codec { (9 ≤ saved.old.codec) × (saved.old.codec ≤ 12) }
    requires mode { saved.old.codec ≢ 9 → saved.old.mode ≡ 0 }
    ensures done { IfSome result (λ answer. Changes tables.now saved.old saved.new (λ before after.
        T.gives task.now before output.old after answer output.new)) }
    ensures none { IfNone result (SavesNone tables.now saved.old) }
    ensures unchanged { IfNone result ((saved.new ≡ saved.old) × (output.new ≡ output.old)) }
{
    match saved.codec {
        10 => run_if(
            Utf16Decoder::resume(true, held),
            tables,
            saved,
            task,
            output,
        ),
        11 => run_if(
            Utf16Decoder::resume(false, held),
            tables,
            saved,
            task,
            output,
        ),
        12 => run_if(
            UserDefinedDecoder::resume(held),
            tables,
            saved,
            task,
            output,
        ),
        _ => {
            if saved.mode > 1 {
                return None;
            }
            let decoder = ReplacementDecoder::resume(saved.mode == 1, held);
            run_if(decoder, tables, saved, task, output)
        }
    }
}

/// Makes the decoder that the numbers are of, does a task with it, and keeps its state.
///
/// Returns `None`, and nothing changes, if the indexes that the codec reads were not checked or the
/// numbers are those of no decoder.
#[tactic(auto, using(crate::proofs::SavedStates::no_grammar, crate::proofs::SavedStates::too_many))]
pub fn with_decoder<U, R, T: DecoderTask<U, R>>(
    tables: &IndexTables,
    saved: &mut SavedDecoder,
    task: &T,
    output: &mut [U],
) -> Option<R>
    ensures done { IfSome result (λ answer. Changes tables.now saved.old saved.new (λ before after.
        T.gives task.now before output.old after answer output.new)) }
    ensures none { IfNone result (IsRefused tables.now saved.old) }
    ensures unchanged { IfNone result ((saved.new ≡ saved.old) × (output.new ≡ output.old)) }
{
    let has_mode = saved.codec == 6 || saved.codec == 9;
    if saved.count > 5 || (saved.mode != 0 && !has_mode) {
        return None;
    }
    let bytes = saved.held;
    let held = &bytes[..usize::from(saved.count)];
    match saved.codec {
        1 => with_single_byte(tables, saved, held, task, output),
        2 | 3 => with_gb18030(tables, saved, held, task, output),
        4..=8 => with_indexes(tables, saved, held, task, output),
        9..=12 => without_indexes(tables, saved, held, task, output),
        _ => None,
    }
}
