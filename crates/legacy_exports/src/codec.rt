//! The numbers of the codecs.
ghost use Rattle.std.specs.Prelude.{◌≡◌, ◌≢◌, MatchOption};
ghost use Rattle.legacy_exports.specs.Numbers.{number_of};

use legacy_index_files::Codec;

/// Returns the codec of this number, or `None` if no codec has it.
///
/// `bench/legacy_codecs.h` has the same numbers.
pub fn codec_of_number(number: u32) -> Option<Codec>
    ensures { MatchOption result ((c : Codec) → number_of c ≢ number) (λ c. number_of c ≡ number) }
{
    match number {
        1 => Some(Codec::SingleByte),
        2 => Some(Codec::Gbk),
        3 => Some(Codec::Gb18030),
        4 => Some(Codec::Big5),
        5 => Some(Codec::EucJp),
        6 => Some(Codec::Iso2022Jp),
        7 => Some(Codec::ShiftJis),
        8 => Some(Codec::EucKr),
        9 => Some(Codec::Replacement),
        10 => Some(Codec::Utf16Be),
        11 => Some(Codec::Utf16Le),
        12 => Some(Codec::UserDefined),
        _ => None,
    }
}
