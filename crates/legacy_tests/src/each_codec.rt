//! The rows of each codec, followed.
// The proof of a call grows with the square of the constants in its arguments, so each table of rows has its own call.
use crate::big5::encoder::{FIRST, FIRST_POINTERS, TWICE};
use crate::codecs::follow_rows;
use crate::decoder_runs::encoders;
use crate::euc_jp::encoder::FIRST_OF_TWO;
use crate::euc_kr::ONE_ENTRY;
use crate::euc_kr::encoder::LAST_ENTRY;
use crate::gb18030::encoder::{
    BESIDE_7457, BOTH, GBK_WITH_RANGE, GBK_WITHOUT_ENTRIES, IN_THE_INDEX, LAST_RANGE, NO_ROWS,
    OTHER_ROW, PRIVATE_USE, RANGE_FROM_7457, ROW_AND_ENTRY, ROW_OF_E000, WITH_RANGE, WITHOUT_ROWS,
};
use crate::indexes::EMPTY;
use crate::rows::NO_INPUT;
use crate::shift_jis::encoder::{A_DUPLICATE, ONLY_THERE, SECOND_OF_TWO};
use crate::single_byte::encoder::{RUN_ALONE, WITH_RUN, WITHOUT_RUN, WITHOUT_SCALARS};
use crate::{
    big5, decoder_runs, euc_jp, euc_kr, gb18030, iso_2022_jp, pairs, replacement, shift_jis,
    single_byte, user_defined, utf16,
};
use legacy_index_files::Codec::{
    Big5, EucJp, EucKr, Gb18030, Gbk, Iso2022Jp, Replacement, ShiftJis, SingleByte, UserDefined,
    Utf16Be, Utf16Le,
};
use std::process::Abort;

#[test]
fn decoders_of_chinese_and_korean_follow_their_rows(rt: HostRuntime) {
    follow_rows(&rt, &[Big5], EMPTY, big5::WITHOUT_ENTRIES);
    follow_rows(&rt, &[Big5], big5::LAST, big5::THE_LAST_POINTER);
    follow_rows(&rt, &[EucKr], ONE_ENTRY, euc_kr::ROWS);
    follow_rows(&rt, &[Gb18030], EMPTY, gb18030::WITHOUT_ENTRIES);
    follow_rows(&rt, &[Gb18030], EMPTY, gb18030::LENGTHS_AND_FORMS);
    follow_rows(&rt, &[Gb18030], gb18030::BESIDE_7F, gb18030::PAIRS);
    follow_rows(&rt, &[Gb18030], gb18030::TWO_RANGES, gb18030::RANGES);
    follow_rows(&rt, &[Gb18030], ROW_AND_ENTRY, gb18030::DECODED);
}

#[test]
fn decoders_of_japanese_follow_their_rows(rt: HostRuntime) {
    follow_rows(&rt, &[EucJp], EMPTY, euc_jp::WITHOUT_ENTRIES);
    follow_rows(&rt, &[Iso2022Jp], EMPTY, iso_2022_jp::WITHOUT_ENTRIES);
    follow_rows(&rt, &[Iso2022Jp], EMPTY, iso_2022_jp::ENDS_AND_LENGTHS);
    follow_rows(&rt, &[ShiftJis], EMPTY, shift_jis::WITHOUT_ENTRIES);
    follow_rows(&rt, &[EucJp], euc_jp::ENTRIES, euc_jp::PAIRS);
    follow_rows(&rt, &[Iso2022Jp], iso_2022_jp::ENTRIES, iso_2022_jp::PAIRS);
}

#[test]
fn decoders_without_pairs_follow_their_rows(rt: HostRuntime) {
    follow_rows(&rt, &[Replacement, UserDefined], EMPTY, NO_INPUT);
    follow_rows(&rt, &[Replacement], EMPTY, replacement::ROWS);
    follow_rows(&rt, &[SingleByte], EMPTY, single_byte::WITHOUT_ENTRIES);
    follow_rows(&rt, &[SingleByte], single_byte::LETTERS, single_byte::GREEK);
    follow_rows(&rt, &[UserDefined], EMPTY, user_defined::ROWS);
    follow_rows(&rt, &[Utf16Le], EMPTY, utf16::LITTLE_ENDIAN);
    follow_rows(&rt, &[Utf16Le], EMPTY, utf16::CUT_UNITS);
    follow_rows(&rt, &[Utf16Be], EMPTY, utf16::BIG_ENDIAN);
}

/// Follows the rows of the encoders of gb18030 and GBK.
fn follow_gb18030(rt: &(impl AllocGlobal + Abort)) {
    follow_rows(rt, &[Gb18030], EMPTY, gb18030::encoder::WITHOUT_ENTRIES);
    follow_rows(rt, &[Gbk], EMPTY, GBK_WITHOUT_ENTRIES);
    follow_rows(rt, &[Gb18030], LAST_RANGE, WITH_RANGE);
    follow_rows(rt, &[Gbk], LAST_RANGE, GBK_WITH_RANGE);
    follow_rows(rt, &[Gb18030], RANGE_FROM_7457, BESIDE_7457);
    follow_rows(rt, &[Gb18030, Gbk], ROW_OF_E000, OTHER_ROW);
    follow_rows(rt, &[Gb18030], WITHOUT_ROWS, NO_ROWS);
    follow_rows(rt, &[Gb18030], PRIVATE_USE, IN_THE_INDEX);
    follow_rows(rt, &[Gb18030], ROW_AND_ENTRY, BOTH);
}

// The encoder of ISO-2022-JP has tests of its own, which also list its pairs.
#[test]
fn encoders_of_pairs_follow_their_rows(rt: HostRuntime) {
    let codecs = [Big5, EucJp, EucKr, ShiftJis];
    follow_rows(&rt, &codecs, EMPTY, pairs::WITHOUT_ENTRIES);
    follow_rows(&rt, &[EucJp, ShiftJis], EMPTY, pairs::JAPANESE);
    follow_rows(&rt, &[Big5], TWICE, big5::encoder::WITH_ENTRIES);
    follow_rows(&rt, &[Big5], FIRST, FIRST_POINTERS);
    follow_rows(&rt, &[EucJp], EMPTY, euc_jp::encoder::WITHOUT_ENTRIES);
    follow_rows(&rt, &[EucJp], FIRST_OF_TWO, euc_jp::encoder::WITH_ENTRIES);
    follow_rows(&rt, &[EucKr], ONE_ENTRY, euc_kr::encoder::ROWS);
    follow_rows(&rt, &[EucKr], LAST_ENTRY, euc_kr::encoder::LAST);
    follow_gb18030(&rt);
    follow_rows(&rt, &[ShiftJis], EMPTY, shift_jis::encoder::WITHOUT_ENTRIES);
    follow_rows(
        &rt,
        &[ShiftJis],
        SECOND_OF_TWO,
        shift_jis::encoder::WITH_ENTRIES,
    );
    follow_rows(&rt, &[ShiftJis], A_DUPLICATE, ONLY_THERE);
}

#[test]
fn encoders_of_bytes_follow_their_rows(rt: HostRuntime) {
    for flat in [WITH_RUN, WITHOUT_RUN] {
        follow_rows(&rt, &[SingleByte], flat, single_byte::encoder::GREEK);
    }
    follow_rows(&rt, &[SingleByte], RUN_ALONE, WITHOUT_SCALARS);
    follow_rows(&rt, &[UserDefined], EMPTY, user_defined::encoder::ROWS);
}

#[test]
fn runs_of_decoders_give_their_events(rt: HostRuntime) {
    follow_rows(&rt, &[Big5], EMPTY, decoder_runs::OF_BIG5);
    follow_rows(&rt, &[Utf16Le], EMPTY, decoder_runs::OF_UTF_16LE);
    follow_rows(&rt, &[UserDefined], EMPTY, decoder_runs::OF_USER_DEFINED);
}

#[test]
fn runs_of_encoders_give_the_same_events_in_every_cut(rt: HostRuntime) {
    follow_rows(&rt, &[Iso2022Jp], ONE_ENTRY, encoders::OF_ISO_2022_JP);
    follow_rows(&rt, &[Gb18030], ONE_ENTRY, encoders::OF_GB18030);
    for (codec, rows) in encoders::OF_PAIRS {
        follow_rows(&rt, &[*codec], ONE_ENTRY, rows);
    }
    follow_rows(&rt, &[UserDefined], ONE_ENTRY, encoders::OF_USER_DEFINED);
    follow_rows(&rt, &[SingleByte], WITH_RUN, encoders::OF_SINGLE_BYTE);
}
