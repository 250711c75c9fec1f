//! A page that a browser shows while it arrives.
ghost use Rattle.std.specs.Prelude.{◌≡◌, ◌↔◌, List, ℕ, ◌++◌, [], Err, OnOk, OnErr, IsTrue};
ghost use Rattle.legacy_base.specs.Lengths.{query_form, to_utf8};
ghost use Rattle.legacy_codecs.specs.WholeTexts.{text_of, IsSettled, TextGoesOn};
ghost use Rattle.legacy_uses.specs.Pages.{IsPageTooLong};

use legacy_codecs::{RawDecoder, SizedError, decode_piece};

/// Decodes the next piece of a page, and appends its text in UTF-8 to the page.
///
/// Each malformed sequence becomes U+FFFD. Set `last` if no piece follows. After an error the page and
/// the decoder are unchanged. `TooLong` is returned if the page could exceed `usize::MAX` bytes.
pub fn show_piece<D: RawDecoder>(
    decoder: &mut D,
    piece: &[u8],
    last: bool,
    page: &mut Vec<u8>,
) -> Result<(), SizedError>
    ensures text { OnOk result ((written : List ℕ)
        × TextGoesOn (query_form to_utf8) last (D.state decoder.old) piece.now (D.state decoder.new) written
        × (page.new.items ≡ page.old.items ++ written)) }
    ensures settled { OnOk result (IsSettled (D.state decoder.new)) }
    ensures end { OnOk result (IsTrue last → text_of (D.state decoder.new) [] ≡ []) }
    ensures too_long { (result ≡ Err SizedError.TooLong)
        ↔ IsPageTooLong (D.state decoder.old) piece.now page.old.items }
    ensures unchanged { OnErr result ((decoder.new ≡ decoder.old) × (page.new.items ≡ page.old.items)) }
{
    let Some(length) = decoder.max_utf8_buffer_length(piece.len()) else {
        return Err(SizedError::TooLong);
    };
    let start = page.len();
    let Some(end) = start.checked_add(length) else {
        return Err(SizedError::TooLong);
    };
    page.resize(end, 0)?;
    let written = decode_piece(decoder, piece, &mut page.as_mut_slice()[start..], last);
    page.truncate(start + written);
    Ok(())
}
