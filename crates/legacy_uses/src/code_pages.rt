//! The code pages of an old program: index files, and decoding by them.
ghost use Rattle.std.specs.Prelude.{◌⊎◌, string_bytes, IfErr, IfOk, MatchResult};
ghost use Rattle.std.specs.Str.{chars};
ghost use Rattle.legacy_uses.specs.IndexData.{IsTextByFile, IsFaultByFile, IsWellFormedEucKr};
ghost use Rattle.legacy_uses.specs.IndexData.{IsTextBySingleByteFile, IsFaultBySingleByteFile};

use legacy_codecs::{EucKrDecoder, decode_whole};
use legacy_encodings::{Registry, RegistryError};
use legacy_index_files::{Encoding, FileIndex, OwnedIndexes};
use std::alloc::Global;

/// Decodes an input in EUC-KR by what the text of its index file says.
pub fn decode_by_file(alloc: Global, file: &[u8], input: &[u8]) -> Result<String, RegistryError>
    ensures { MatchResult result
        (λ text. IsTextByFile file.now input.now (chars (string_bytes text)))
        (λ error. IsFaultByFile file.now input.now error) }
{
    let mut owned = OwnedIndexes::new(alloc);
    owned.read(alloc, FileIndex::EucKr, file)?;
    let tables = owned.tables()?;
    let mut decoder = EucKrDecoder::new(&tables);
    Ok(decode_whole(alloc, &mut decoder, input)?)
}

/// The index files of two encodings.
#[derive(Drop)]
pub struct TwoFiles<'a> {
    pub euc_kr: &'a [u8],
    pub windows_1252: &'a [u8],
}

/// Decodes an input in EUC-KR and one in windows-1252, by a registry of both index files.
pub fn decode_two(
    alloc: Global,
    files: &TwoFiles,
    korean: &[u8],
    western: &[u8],
) -> Result<(String, String), RegistryError>
    ensures korean { IfOk result (λ texts.
        IsTextByFile files.now.euc_kr.now korean.now (chars (string_bytes texts.0))) }
    ensures western { IfOk result (λ texts.
        IsTextBySingleByteFile files.now.windows_1252.now western.now (chars (string_bytes texts.1))) }
    ensures fault { IfErr result (λ error.
        IsFaultByFile files.now.euc_kr.now korean.now error
        ⊎ (IsWellFormedEucKr files.now.euc_kr.now
        × IsFaultBySingleByteFile files.now.windows_1252.now western.now error)) }
{
    let mut registry = Registry::new(alloc);
    registry.read_index(alloc, FileIndex::EucKr, files.euc_kr)?;
    registry.read_single_byte(alloc, Encoding::Windows1252, files.windows_1252)?;
    let coders = registry.coders()?;
    let korean_text = coders.decode(alloc, "EUC-KR", korean)?;
    let western_text = coders.decode(alloc, "windows-1252", western)?;
    Ok((korean_text.text, western_text.text))
}
