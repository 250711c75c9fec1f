//! The first crate of a user, as the README has it.
use legacy_codecs::{EucKrDecoder, decode_whole};
use legacy_encodings::RegistryError;
use legacy_index_files::{FileIndex, OwnedIndexes};
use std::alloc::Global;

/// Decodes a letter in EUC-KR by what the text of its index file says.
pub fn decode_letter(alloc: Global, file: &[u8], letter: &[u8]) -> Result<String, RegistryError> {
    let mut owned = OwnedIndexes::new(alloc);
    owned.read(alloc, FileIndex::EucKr, file)?;
    let tables = owned.tables()?;
    let mut decoder = EucKrDecoder::new(&tables);
    Ok(decode_whole(alloc, &mut decoder, letter)?)
}

#[test]
fn a_letter_is_decoded(rt: HostRuntime) {
    let text = decode_letter(rt.alloc(), b"0 0xAC02", b"\x81\x41").expect(&rt, "no text");
    assert!(rt; text.as_str() == "\u{AC02}");
}
