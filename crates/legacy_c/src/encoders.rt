//! An encoder that is made of its numbers, does one task, and is kept as numbers again.
ghost use Rattle.std.specs.Prelude.{◌≡◌, ◌≢◌, ◌⊎◌, ◌≤◌, IfNone, IfSome};
ghost use Rattle.legacy_c.specs.SavedEncoder.{EncoderChanges, IsEncoderRefused, SavesEncoder, encoder_mode};

use crate::encoder_tasks::EncoderTask;
use crate::index_tables::IndexTables;
use crate::kept_encoder::KeptEncoder;
use crate::saved::SavedEncoder;
use crate::tables::{pairs_of, table_of, tables_of, tables_with};
use legacy_base::EncoderMode;
use legacy_chinese::{Big5Encoder, Gb18030Encoder};
use legacy_japanese::{EucJpEncoder, Iso2022JpEncoder, ShiftJisEncoder};
use legacy_korean::EucKrEncoder;
use legacy_miscellaneous::UserDefinedEncoder;
use legacy_single_byte::SingleByteEncoder;

/// Does a task with an encoder, and keeps the encoder's mode.
#[inline]
#[tactic(auto, using(crate::proofs::SavedEncoders::encoder_after))]
fn run<E: KeptEncoder + Drop, R, T: EncoderTask<R>>(
    mut encoder: E,
    tables: &IndexTables,
    saved: &mut SavedEncoder,
    task: &T,
    output: &mut [u8],
) -> R
    requires { SavesEncoder tables.now saved.old (E.state encoder) }
    ensures { EncoderChanges tables.now saved.old saved.new (λ before after.
        T.gives task.now before output.old after result output.new) }
{
    let _ = tables;
    let result = task.run(&mut encoder, output);
    *saved = SavedEncoder {
        codec: saved.codec,
        mode: encoder.mode_number(),
    };
    result
}

/// Returns the mode of a number.
fn mode_of(number: u8) -> Option<EncoderMode>
    ensures { result ≡ encoder_mode number }
{
    match number {
        0 => Some(EncoderMode::Ascii),
        1 => Some(EncoderMode::Roman),
        2 => Some(EncoderMode::TwoByte),
        _ => None,
    }
}

/// Does a task with an encoder of GBK or gb18030.
fn with_gb18030<R, T: EncoderTask<R>>(
    tables: &IndexTables,
    saved: &mut SavedEncoder,
    task: &T,
    output: &mut [u8],
) -> Option<R>
    requires { ((saved.old.codec ≡ 2) ⊎ (saved.old.codec ≡ 3)) × (saved.old.mode ≡ 0) }
    ensures done { IfSome result (λ answer. EncoderChanges tables.now saved.old saved.new (λ before after.
        T.gives task.now before output.old after answer output.new)) }
    ensures none { IfNone result (IsEncoderRefused tables.now saved.old) }
    ensures unchanged { IfNone result ((saved.new ≡ saved.old) × (output.new ≡ output.old)) }
{
    let Some(pairs) = pairs_of(tables) else {
        return None;
    };
    let lists = tables_with(tables, &pairs);
    let encoder = Gb18030Encoder::new(&lists, saved.codec == 3);
    Some(run(encoder, tables, saved, task, output))
}

/// Does a task with an encoder of a single-byte encoding.
fn with_single_byte<R, T: EncoderTask<R>>(
    tables: &IndexTables,
    saved: &mut SavedEncoder,
    task: &T,
    output: &mut [u8],
) -> Option<R>
    requires { (saved.old.codec ≡ 1) × (saved.old.mode ≡ 0) }
    ensures done { IfSome result (λ answer. EncoderChanges tables.now saved.old saved.new (λ before after.
        T.gives task.now before output.old after answer output.new)) }
    ensures none { IfNone result (IsEncoderRefused tables.now saved.old) }
    ensures unchanged { IfNone result ((saved.new ≡ saved.old) × (output.new ≡ output.old)) }
{
    let Some(table) = table_of(tables) else {
        return None;
    };
    let encoder = SingleByteEncoder::with_longest_run(&table);
    Some(run(encoder, tables, saved, task, output))
}

/// Does a task with an encoder that reads the indexes, and no ranges.
fn with_indexes<R, T: EncoderTask<R>>(
    tables: &IndexTables,
    saved: &mut SavedEncoder,
    task: &T,
    output: &mut [u8],
) -> Option<R>
    requires codec { (4 ≤ saved.old.codec) × (saved.old.codec ≤ 8) }
    requires mode { saved.old.codec ≢ 6 → saved.old.mode ≡ 0 }
    ensures done { IfSome result (λ answer. EncoderChanges tables.now saved.old saved.new (λ before after.
        T.gives task.now before output.old after answer output.new)) }
    ensures none { IfNone result (IsEncoderRefused tables.now saved.old) }
    ensures unchanged { IfNone result ((saved.new ≡ saved.old) × (output.new ≡ output.old)) }
{
    let Some(lists) = tables_of(tables) else {
        return None;
    };
    match saved.codec {
        4 => Some(run(Big5Encoder::new(&lists), tables, saved, task, output)),
        5 => Some(run(EucJpEncoder::new(&lists), tables, saved, task, output)),
        7 => Some(run(ShiftJisEncoder::new(&lists), tables, saved, task, output)),
        8 => Some(run(EucKrEncoder::new(&lists), tables, saved, task, output)),
        _ => match mode_of(saved.mode) {
            Some(mode) => {
                let encoder = Iso2022JpEncoder::resume(&lists, mode);
                Some(run(encoder, tables, saved, task, output))
            }
            None => None,
        },
    }
}

/// Makes the encoder that the numbers are of, does a task with it, and keeps its mode.
///
/// Returns `None`, and nothing changes, if the indexes that the codec reads were not checked or the
/// numbers are those of no encoder.
pub fn with_encoder<R, T: EncoderTask<R>>(
    tables: &IndexTables,
    saved: &mut SavedEncoder,
    task: &T,
    output: &mut [u8],
) -> Option<R>
    ensures done { IfSome result (λ answer. EncoderChanges tables.now saved.old saved.new (λ before after.
        T.gives task.now before output.old after answer output.new)) }
    ensures none { IfNone result (IsEncoderRefused tables.now saved.old) }
    ensures unchanged { IfNone result ((saved.new ≡ saved.old) × (output.new ≡ output.old)) }
{
    if saved.mode != 0 && saved.codec != 6 {
        return None;
    }
    match saved.codec {
        1 => with_single_byte(tables, saved, task, output),
        2 | 3 => with_gb18030(tables, saved, task, output),
        4..=8 => with_indexes(tables, saved, task, output),
        12 => {
            let encoder = UserDefinedEncoder::new();
            Some(run(encoder, tables, saved, task, output))
        }
        _ => None,
    }
}
