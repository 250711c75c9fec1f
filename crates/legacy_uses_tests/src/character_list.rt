//! A user's own destination with the members that `Destination` requires: a list of characters.
ghost use Rattle.std.specs.Prelude.{◌≡◌, ◌+◌, ◌^◌, ◌<◌, ◌≤◌, [], length, take, All};
ghost use Rattle.std.specs.Char.{IsScalar};
ghost use Rattle.legacy_text.specs.EncodingForm.{Utf16, unit_count, total_unit_count};
ghost use Rattle.legacy_base.specs.Calls.{DecoderCall};

use legacy_codecs::{DecoderResult, Destination, RawDecoder};

/// Returns the number of UTF-16 code units of a character.
fn length_of(c: char) -> usize
    ensures value { result ≡ unit_count Utf16 c }
    ensures some { 1 ≤ result }
{
    c.len_utf16()
}

/// A destination that keeps each character in a lent slice. To a decoder it is an output in UTF-16.
#[derive(Drop)]
pub struct CharacterList<'a> {
    characters: &'a mut [char],
    count: usize,
    written: usize,
    room: usize,
    ghost fits: { count + room ≤ length characters.now },
    ghost small: { written + room < 2 ^ 64 },
    ghost scalars: { All IsScalar (take count characters.now) },
    ghost counted: { written ≡ total_unit_count Utf16 (take count characters.now) },
}

impl<'a> CharacterList<'a> {
    ghost use Rattle.legacy_uses_tests.specs.CharacterLists.{listed_count, listed_loan, listed_room, listed_scalars};

    /// Returns an empty list with room for as many UTF-16 code units as the slice has places.
    pub fn new(characters: &'a mut [char]) -> CharacterList<'a>
        ensures loan { listed_loan result ≡ characters.entry.ghost_name }
        ensures kept { listed_scalars result ≡ [] }
        ensures free { listed_room result ≡ length characters.old }
    {
        let room = characters.len();
        CharacterList {
            characters,
            count: 0,
            written: 0,
            room,
        }
    }

    /// Returns the number of characters written to the beginning of the slice.
    pub fn count(&self) -> usize
        ensures { result ≡ listed_count self.now }
    {
        self.count
    }

    /// Decodes bytes from the front of `src` into the list, which is empty.
    ///
    /// Returns how the call ended, and the number of bytes read.
    fn decode<D: RawDecoder>(
        &mut self,
        decoder: &mut D,
        src: &[u8],
        last: bool,
    ) -> (DecoderResult, usize)
        requires { listed_scalars self.old ≡ [] }
        ensures call { DecoderCall Utf16 (D.state decoder.old) src.now last (listed_room self.old)
            (D.state decoder.new) result.0 result.1 (listed_scalars self.new) }
        ensures loan { listed_loan self.new ≡ listed_loan self.old }
    {
        decoder.step(src, self, last)
    }
}

impl Destination for CharacterList<'_> {
    ghost use Rattle.legacy_uses_tests.specs.CharacterLists.{listed_units, listed_room, listed_loan};

    ghost form = { Utf16 };

    ghost contents = { listed_units };

    ghost room = { listed_room };

    ghost loan = { listed_loan };

    const BMP_ROOM: usize = 1;

    const WIDE_ROOM: usize = 2;

    fn narrow() -> usize
        ensures { result ≡ 1 }
    {
        Self::BMP_ROOM
    }

    fn wide() -> usize
        ensures { result ≡ 2 }
    {
        Self::WIDE_ROOM
    }

    fn free(&self) -> usize {
        self.room
    }

    fn written(&self) -> usize {
        self.written
    }

    fn put(&mut self, c: char) {
        let length = length_of(c);
        self.characters[self.count] = c;
        self.count += 1;
        self.written += length;
        self.room -= length;
    }
}

/// Decodes bytes from the front of `src` into a slice of characters.
///
/// The slice has room for as many UTF-16 code units as it has places. Returns how the call ended,
/// the number of bytes read, and the number of characters written to the beginning of the slice.
pub fn decode_to_characters<D: RawDecoder>(
    decoder: &mut D,
    src: &[u8],
    characters: &mut [char],
    last: bool,
) -> (DecoderResult, usize, usize)
    ensures call { DecoderCall Utf16 (D.state decoder.old) src.now last (length characters.old)
        (D.state decoder.new) result.0 result.1 (take result.2 characters.new) }
    ensures written { result.2 ≤ length characters.new }
{
    let mut list = CharacterList::new(characters);
    let (answer, read) = list.decode(decoder, src, last);
    let written = list.count();
    (answer, read, written)
}
