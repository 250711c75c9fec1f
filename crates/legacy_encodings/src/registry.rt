//! A registry that owns index data, and decodes and encodes by a label of the encoding.
ghost use Rattle.std.specs.Prelude.{◌≡◌, ◌≢◌, ℕ, List, [], string_bytes, Err, Some, None, true, IfOk, OnErr, MatchResult};
ghost use Rattle.std.specs.Prelude.{find, bytes_eq, length, vec_capacity};
ghost use Rattle.std.specs.Option.{option_copied, option_map};
ghost use Rattle.std.specs.List.{list_all};
ghost use Rattle.std.specs.Str.{chars};
ghost use Rattle.legacy_base.specs.Encoders.{encoded};
ghost use Rattle.legacy_codecs.specs.References.{referenced_bytes, has_unmappable};
ghost use Rattle.legacy_tables.specs.TableChecks.{table_fault};
ghost use Rattle.legacy_index_files.specs.Encodings.{encoding_name, codec_of};
ghost use Rattle.legacy_index_files.specs.Labels.{encoding_labelled};
ghost use Rattle.legacy_index_files.specs.IndexTexts.{no_text, with_text};
ghost use Rattle.legacy_index_files.specs.OwnedIndexes.{owned_lists, HoldsTexts, IsUnallocated};
ghost use Rattle.legacy_index_files.specs.declared.index_file.EncoderIndex.TheVariants.{Of, Katakana};
ghost use Rattle.legacy_coders.specs.Lists.{has_pairs};
ghost use Rattle.legacy_encodings.specs.ReadFiles.{IsReadFile, IsReadKatakana, IsIndexFault, IsKatakanaFault};
ghost use Rattle.legacy_encodings.specs.SingleByteFiles.{IsTableFault};
ghost use Rattle.legacy_encodings.specs.Registries.{first_entries, was_read, can_decode, can_encode, with_read, nothing_read};
ghost use Rattle.legacy_encodings.specs.Registries.{IsReadTable, IsLabelError, IsDecoderOf, IsEncoderOf, output_of};
ghost use Rattle.legacy_encodings.specs.Registries.{IsText, IsDecodeError, AreEncodedBytes, IsEncodeError, bytes_by, replaced_by};
ghost use Rattle.legacy_encodings.specs.Registries.{IsTranscoded, IsTranscodeError};

use crate::read_indexes::ReadIndexes;
use crate::told::{decode_told, encode_told};
use legacy_codecs::{RawDecoder, RawEncoder, SingleByteTable, SizedError, TableError, Tables};
use legacy_coders::{AnyDecoder, AnyEncoder, ListedEncoder, has_pairs, pair_room};
use legacy_index_files::{Codec, EncoderIndex, Encoding, FileIndex, IndexFileError, OwnedIndexes};
use std::alloc::{AllocError, Global};
use thiserror::Error;

/// Why the registry returned no result.
#[derive(Debug, Drop, PartialEq, Eq, Error)]
pub enum RegistryError {
    /// No encoding has the label.
    #[error("no encoding has this label")]
    Unknown,
    /// An index that the encoding's decoder, or encoder, needs was not read.
    #[error("an index of the encoding was not read")]
    NoIndex,
    /// The index is that of single-byte encodings, or the encoding is none of these.
    #[error("the index is of another kind")]
    WrongKind,
    /// A line of an index file is malformed, or an allocation failed.
    #[error("index file: {0}")]
    File(IndexFileError),
    /// An index or a single-byte table is refused.
    #[error("tables: {0}")]
    Tables(TableError),
    /// The length of the text's buffer exceeds `usize::MAX`, or an allocation failed.
    #[error("{0}")]
    Sized(SizedError),
}

/// Why an input was not transcoded.
#[derive(Debug, Drop, PartialEq, Eq, Error)]
pub enum TranscodeError {
    /// By the first encoding the input was not decoded.
    #[error("from: {0}")]
    From(RegistryError),
    /// By the second encoding the text was not encoded.
    #[error("to: {0}")]
    To(RegistryError),
    /// The second encoding has no encoder: its output encoding is UTF-8.
    #[error("to: the encoding has no encoder")]
    NoEncoder,
}

impl From<IndexFileError> for RegistryError {
    ghost use Rattle.legacy_encodings.specs.declared.registry.RegistryError.TheVariants.{File};

    ghost from_gives = { λ fault error. error ≡ File fault };

    fn from(fault: IndexFileError) -> RegistryError {
        RegistryError::File(fault)
    }
}

impl From<TableError> for RegistryError {
    ghost use Rattle.legacy_encodings.specs.declared.registry.RegistryError.TheVariants.{Tables};

    ghost from_gives = { λ fault error. error ≡ Tables fault };

    fn from(fault: TableError) -> RegistryError {
        RegistryError::Tables(fault)
    }
}

impl From<SizedError> for RegistryError {
    ghost use Rattle.legacy_encodings.specs.declared.registry.RegistryError.TheVariants.{Sized};

    ghost from_gives = { λ fault error. error ≡ Sized fault };

    fn from(fault: SizedError) -> RegistryError {
        RegistryError::Sized(fault)
    }
}

/// The table of a single-byte encoding.
#[derive(Drop)]
pub struct EncodingTable {
    /// The encoding.
    pub encoding: Encoding,
    /// Its checked table.
    pub table: SingleByteTable,
}

/// The text of an input.
#[derive(Drop)]
pub struct Decoded {
    /// The text, with U+FFFD for each malformed sequence.
    pub text: String,
    /// Whether there was a malformed sequence.
    pub replaced: bool,
}

/// The encoding of encoded bytes ("get an output encoding").
#[derive(Clone, Copy, Debug, PartialEq, Eq)]
pub enum OutputEncoding {
    /// UTF-8: that of replacement and UTF-16.
    Utf8,
    /// The encoding itself.
    Legacy(Encoding),
}

/// The bytes of a text.
#[derive(Drop)]
pub struct Encoded {
    /// The bytes, with a numeric character reference for each unmappable character.
    pub bytes: Vec<u8>,
    /// The encoding of the bytes.
    pub encoding: OutputEncoding,
    /// Whether there was an unmappable character.
    pub replaced: bool,
}

/// The bytes of an input in another encoding.
#[derive(Drop)]
pub struct Transcoded {
    /// The bytes.
    pub bytes: Vec<u8>,
    /// Whether the input had a malformed sequence, which is U+FFFD or a reference to it.
    pub malformed: bool,
    /// Whether the text had an unmappable character, for which a reference was written.
    pub unmappable: bool,
}

/// Index data that was read from files, for multi-byte and single-byte encodings.
///
/// An encoding can be used after its indexes were read (`Encoding::indexes`,
/// `Encoding::encoder_indexes`). To use it without an index, read an empty text for that. The
/// single-byte table that was read last comes first.
#[derive(Drop)]
pub struct Registry {
    indexes: OwnedIndexes,
    read: ReadIndexes,
    single_bytes: Vec<EncodingTable>,
}

/// The coders of all encodings, over the registry's indexes, which are checked once.
#[derive(Drop)]
pub struct Coders<'a> {
    tables: Tables<'a>,
    read: ReadIndexes,
    single_bytes: &'a [EncodingTable],
}

impl Registry {
    /// Returns a registry without index data. It allocates nothing.
    pub fn new(alloc: Global) -> Registry
        ensures indexes { HoldsTexts no_text result.indexes }
        ensures katakana { result.indexes.katakana.items ≡ [] }
        ensures read { result.read ≡ nothing_read }
        ensures single_bytes { result.single_bytes.items ≡ [] }
        ensures unallocated { IsUnallocated result.indexes × (vec_capacity result.single_bytes ≡ 0) }
    {
        Registry {
            indexes: OwnedIndexes::new(alloc),
            read: ReadIndexes::nothing(),
            single_bytes: Vec::new(alloc),
        }
    }

    /// Reads the index file of multi-byte encodings, and replaces the index.
    ///
    /// An empty text gives an empty index. After an error the registry is unchanged.
    ///
    /// - `WrongKind`: the index is `FileIndex::SingleByte`, which `read_single_byte` reads.
    /// - `File`: `text` has a malformed line, or an allocation failed (`read_index`).
    pub fn read_index(
        &mut self,
        alloc: Global,
        index: FileIndex,
        text: &[u8],
    ) -> Result<(), RegistryError>
        ensures file { MatchResult result
            (λ _. IsReadFile index text.now self.old.indexes self.new.indexes)
            (IsIndexFault index text.now) }
        ensures read { IfOk result (λ _. self.new.read ≡ with_read self.old.read (Of index)) }
        ensures texts { (texts : FileIndex → List ℕ) → HoldsTexts texts self.old.indexes
            → IfOk result (λ _. HoldsTexts (with_text texts index text.now) self.new.indexes) }
        ensures single_bytes { self.new.single_bytes ≡ self.old.single_bytes }
        ensures unchanged { OnErr result (self.new ≡ self.old) }
    {
        if index == FileIndex::SingleByte {
            return Err(RegistryError::WrongKind);
        }
        match self.indexes.read(alloc, index, text) {
            Ok(()) => {
                self.read.add(EncoderIndex::Of(index));
                Ok(())
            }
            Err(fault) => Err(RegistryError::File(fault)),
        }
    }

    /// Reads the file of index ISO-2022-JP katakana, and replaces that index.
    ///
    /// ISO-2022-JP encodes half-width katakana with it. An empty text gives an empty index. The only
    /// error is `File` (`read_katakana`), and after it the registry is unchanged.
    pub fn read_katakana(&mut self, alloc: Global, text: &[u8]) -> Result<(), RegistryError>
        ensures file { MatchResult result
            (λ _. IsReadKatakana text.now self.old.indexes self.new.indexes)
            (IsKatakanaFault text.now) }
        ensures read { IfOk result (λ _. self.new.read ≡ with_read self.old.read Katakana) }
        ensures texts { (texts : FileIndex → List ℕ) → HoldsTexts texts self.old.indexes
            → HoldsTexts texts self.new.indexes }
        ensures single_bytes { self.new.single_bytes ≡ self.old.single_bytes }
        ensures unchanged { OnErr result (self.new ≡ self.old) }
    {
        match self.indexes.read_katakana(alloc, text) {
            Ok(()) => {
                self.read.add(EncoderIndex::Katakana);
                Ok(())
            }
            Err(fault) => Err(RegistryError::File(fault)),
        }
    }

    /// Reads the index file of a single-byte encoding, and adds its table before the other ones.
    ///
    /// A table that was read earlier for the encoding is used no more. The indexes are unchanged,
    /// and after an error the tables too.
    ///
    /// - `WrongKind`: the encoding is not a single-byte encoding.
    /// - `File(Line)`: `text` has a malformed line (`read_index`).
    /// - `Tables`: the entries of `text` are refused (`SingleByteTable::new`).
    /// - `Sized(Memory)`: the allocation for the list of tables failed.
    pub fn read_single_byte(
        &mut self,
        alloc: Global,
        encoding: Encoding,
        text: &[u8],
    ) -> Result<(), RegistryError>
        ensures table { MatchResult result
            (λ _. IsReadTable encoding text.now self.old.single_bytes.items self.new.single_bytes.items)
            (λ error. IsTableFault encoding text.now error) }
        ensures indexes { self.new.indexes ≡ self.old.indexes }
        ensures read { self.new.read ≡ self.old.read }
        ensures unchanged { OnErr result
            (self.new.single_bytes.items ≡ self.old.single_bytes.items) }
    {
        if encoding.codec() != Codec::SingleByte {
            return Err(RegistryError::WrongKind);
        }
        let mut owned = OwnedIndexes::new(alloc);
        owned.read(alloc, FileIndex::SingleByte, text)?;
        let table = owned.single_byte_table()?;
        match self
            .single_bytes
            .insert(0, EncodingTable { encoding, table })
        {
            Ok(()) => Ok(()),
            Err(_) => Err(RegistryError::Sized(SizedError::Memory)),
        }
    }

    /// Checks the indexes once, and returns the coders over the registry's data or the first fault.
    ///
    /// The checks are those of `Tables::new`. The coders borrow the registry and allocate nothing.
    pub fn coders(&self) -> Result<Coders<'_>, TableError>
        ensures { MatchResult result
            (λ coders. (coders.tables.flat ≡ owned_lists self.now.indexes)
            × (coders.single_bytes.now ≡ self.now.single_bytes.items)
            × (coders.read ≡ self.now.read))
            (λ fault. table_fault (owned_lists self.now.indexes) ≡ Some fault) }
    {
        match self.indexes.tables() {
            Ok(tables) => Ok(Coders {
                tables,
                read: self.read,
                single_bytes: &self.single_bytes,
            }),
            Err(fault) => Err(fault),
        }
    }
}

/// The length in bytes of the shortest text that is encoded with a list of the encoder's pairs.
const LONG_TEXT: usize = 1024;

/// Encodes a whole text as `encode_told` does, with a list of the encoder's pairs in the room.
fn encode_listed(
    alloc: Global,
    encoder: &AnyEncoder,
    room: &mut [u16],
    text: &str,
) -> Result<(Vec<u8>, bool), AllocError>
    requires pairs { has_pairs encoder.now ≡ true }
    requires room { length room.old ≡ 65536 }
    ensures { IfOk result (λ told. (told.0.items ≡ referenced_bytes
        (encoded (⟦<AnyEncoder<'static> as RawEncoder>⟧.state encoder.now) (chars text.now) true))
        × (told.1 ≡ has_unmappable
        (encoded (⟦<AnyEncoder<'static> as RawEncoder>⟧.state encoder.now) (chars text.now) true))) }
{
    let Some(mut listed) = ListedEncoder::new(encoder, room) else {
        unreachable!()
    };
    encode_told(alloc, &mut listed, text)
}

/// Encodes a whole text as `encode_told` does. For a long text it makes a list of the pairs first,
/// if it gets the memory.
fn encode_with_list(
    alloc: Global,
    encoder: &mut AnyEncoder,
    text: &str,
) -> Result<(Vec<u8>, bool), AllocError>
    ensures { IfOk result (λ told. (told.0.items ≡ referenced_bytes
        (encoded (⟦<AnyEncoder<'static> as RawEncoder>⟧.state encoder.old) (chars text.now) true))
        × (told.1 ≡ has_unmappable
        (encoded (⟦<AnyEncoder<'static> as RawEncoder>⟧.state encoder.old) (chars text.now) true))) }
{
    if text.len() >= LONG_TEXT && has_pairs(encoder) {
        if let Ok(mut room) = pair_room(alloc) {
            return encode_listed(alloc, encoder, room.as_mut_slice(), text);
        }
    }
    encode_told(alloc, encoder, text)
}

/// Encodes a text by a new encoder, or in UTF-8 if there is none.
#[tactic(auto, unfolding(crate::specs::Registries::bytes_by, crate::specs::Registries::replaced_by))]
fn encode_by(
    alloc: Global,
    encoder: Option<AnyEncoder>,
    text: &str,
) -> Result<(Vec<u8>, bool), AllocError>
    ensures { IfOk result (λ told. let state = option_map
        (λ e. ⟦<AnyEncoder<'static> as RawEncoder>⟧.state e) encoder.entry in
        (told.0.items ≡ bytes_by state text.now) × (told.1 ≡ replaced_by state text.now)) }
{
    match encoder {
        Some(mut encoder) => encode_with_list(alloc, &mut encoder, text),
        None => match Vec::from_slice(alloc, text.as_bytes()) {
            Ok(bytes) => Ok((bytes, false)),
            Err(fault) => Err(fault),
        },
    }
}

/// Returns the first of the tables whose encoding has the name.
fn first_of<'a>(tables: &'a [EncodingTable], name: &str) -> Option<&'a EncodingTable>
    ensures { option_copied result
        ≡ find (λ t. bytes_eq (encoding_name t.encoding) name.now) tables.now }
{
    tables.iter().find(|entry| entry.encoding.name() == name)
}

/// Returns the encoding of the label, or `Unknown`.
fn encoding_of(label: &str) -> Result<Encoding, RegistryError>
    ensures { MatchResult result
        (λ encoding. encoding_labelled label.now ≡ Some encoding)
        (λ error. (error ≡ RegistryError.Unknown) × (encoding_labelled label.now ≡ None)) }
{
    Encoding::for_label(label).ok_or(RegistryError::Unknown)
}

/// Returns the output encoding of an encoding ("get an output encoding").
fn output_of(encoding: Encoding) -> OutputEncoding
    ensures { result ≡ output_of encoding }
{
    if encoding.codec().has_encoder() {
        return OutputEncoding::Legacy(encoding);
    }
    OutputEncoding::Utf8
}

impl Coders<'_> {
    /// Returns the table of a single-byte encoding, if its index file was read.
    fn single_byte(&self, encoding: Encoding) -> Option<&SingleByteTable>
        ensures { option_map (λ table. table.now.entries) result
            ≡ first_entries self.now.single_bytes.now encoding }
    {
        match first_of(self.single_bytes, encoding.name()) {
            Some(entry) => Some(&entry.table),
            None => None,
        }
    }

    /// Returns whether an index of the encoding was read.
    fn was_read(&self, encoding: Encoding, index: EncoderIndex) -> bool
        ensures { result ≡ was_read self.now encoding index }
    {
        if index == EncoderIndex::Of(FileIndex::SingleByte) {
            return self.single_byte(encoding).is_some();
        }
        self.read.has(index)
    }

    /// Returns whether all these indexes of the encoding were read.
    fn were_read(&self, encoding: Encoding, indexes: &[FileIndex]) -> bool
        ensures { result ≡ list_all (λ index. was_read self.now encoding (Of index)) indexes.now }
    {
        match indexes {
            [index, rest @ ..] => {
                self.was_read(encoding, EncoderIndex::Of(*index)) && self.were_read(encoding, rest)
            }
            [] => true,
        }
    }

    /// Returns whether all these indexes of the encoding's encoder were read.
    fn were_read_to_encode(&self, encoding: Encoding, indexes: &[EncoderIndex]) -> bool
        ensures { result ≡ list_all (was_read self.now encoding) indexes.now }
    {
        match indexes {
            [index, rest @ ..] => {
                self.was_read(encoding, *index) && self.were_read_to_encode(encoding, rest)
            }
            [] => true,
        }
    }

    /// Returns the encoding of the label, if the indexes of its decoder were read.
    fn encoding_to_decode(&self, label: &str) -> Result<Encoding, RegistryError>
        ensures { MatchResult result
            (λ encoding. (encoding_labelled label.now ≡ Some encoding)
            × (can_decode self.now encoding ≡ true))
            (λ error. IsLabelError (can_decode self.now) label.now error) }
    {
        let encoding = encoding_of(label)?;
        if self.were_read(encoding, encoding.indexes()) {
            return Ok(encoding);
        }
        Err(RegistryError::NoIndex)
    }

    /// Returns the encoding of the label, if the indexes of its encoder were read.
    fn encoding_to_encode(&self, label: &str) -> Result<Encoding, RegistryError>
        ensures { MatchResult result
            (λ encoding. (encoding_labelled label.now ≡ Some encoding)
            × (can_encode self.now encoding ≡ true))
            (λ error. IsLabelError (can_encode self.now) label.now error) }
    {
        let encoding = encoding_of(label)?;
        if self.were_read_to_encode(encoding, encoding.encoder_indexes()) {
            return Ok(encoding);
        }
        Err(RegistryError::NoIndex)
    }

    /// Returns a new decoder of the encoding with the label (`Encoding::for_label`).
    ///
    /// It borrows the coders, and allocates nothing.
    ///
    /// - `Unknown`: no encoding has the label.
    /// - `NoIndex`: an index that the decoder uses (`Encoding::indexes`) was not read.
    pub fn decoder(&self, label: &str) -> Result<AnyDecoder<'_>, RegistryError>
        ensures { MatchResult result
            (λ decoder. IsDecoderOf self.now label.now
            (⟦<AnyDecoder<'static> as RawDecoder>⟧.state decoder))
            (λ error. IsLabelError (can_decode self.now) label.now error) }
    {
        let encoding = self.encoding_to_decode(label)?;
        let table = self.single_byte(encoding);
        match AnyDecoder::new(encoding.codec(), &self.tables, table) {
            Some(decoder) => Ok(decoder),
            None => unreachable!(),
        }
    }

    /// Returns a new encoder of the encoding with the label, or `None` for replacement and UTF-16.
    ///
    /// The output encoding of these is UTF-8 (Encoding Standard, "get an output encoding"). The
    /// encoder borrows the coders, and allocates nothing.
    ///
    /// - `Unknown`: no encoding has the label.
    /// - `NoIndex`: an index that the encoder uses (`Encoding::encoder_indexes`) was not read.
    pub fn encoder(&self, label: &str) -> Result<Option<AnyEncoder<'_>>, RegistryError>
        ensures { MatchResult result
            (λ encoder. IsEncoderOf self.now label.now
            (option_map (λ e. ⟦<AnyEncoder<'static> as RawEncoder>⟧.state e) encoder))
            (λ error. IsLabelError (can_encode self.now) label.now error) }
    {
        let encoding = self.encoding_to_encode(label)?;
        let table = self.single_byte(encoding);
        Ok(AnyEncoder::new(encoding.codec(), &self.tables, table))
    }

    /// Decodes a whole input by the encoding with the label, with U+FFFD for each malformed sequence.
    ///
    /// The errors are those of `decoder`, and those of `decode_whole` as `Sized`.
    pub fn decode(&self, alloc: Global, label: &str, input: &[u8]) -> Result<Decoded, RegistryError>
        ensures { MatchResult result
            (λ decoded. IsText self.now label.now input.now
            (chars (string_bytes decoded.text)) decoded.replaced)
            (λ error. IsDecodeError self.now label.now input.now error) }
    {
        let mut decoder = self.decoder(label)?;
        match decode_told(alloc, &mut decoder, input) {
            Ok((text, replaced)) => Ok(Decoded { text, replaced }),
            Err(fault) => Err(RegistryError::Sized(fault)),
        }
    }

    /// Encodes a text by the encoding with the label, with a reference for each unmappable character.
    ///
    /// Replacement and UTF-16 encode as UTF-8, and the result says so. A text of 1024 bytes or more
    /// is encoded with a list of the encoding's pairs, if the memory for it is had. To encode many
    /// texts, keep a `ListedEncoder`. The errors are those of `encoder`, and `Sized(Memory)` if the
    /// allocation of the bytes failed.
    pub fn encode(&self, alloc: Global, label: &str, text: &str) -> Result<Encoded, RegistryError>
        ensures { MatchResult result
            (λ encoded. AreEncodedBytes self.now label.now text.now
            encoded.bytes.items encoded.encoding encoded.replaced)
            (λ error. IsEncodeError self.now label.now error) }
    {
        let encoding = self.encoding_to_encode(label)?;
        let table = self.single_byte(encoding);
        let encoder = AnyEncoder::new(encoding.codec(), &self.tables, table);
        match encode_by(alloc, encoder, text) {
            Ok((bytes, replaced)) => Ok(Encoded {
                bytes,
                encoding: output_of(encoding),
                replaced,
            }),
            Err(_) => Err(RegistryError::Sized(SizedError::Memory)),
        }
    }

    /// Decodes an input by the encoding with one label, and encodes its text by that with another.
    ///
    /// A malformed sequence becomes U+FFFD, and each character that the new encoding lacks becomes
    /// a reference. The text is encoded as by `encode`, a long one with a list of the new encoding's
    /// pairs.
    ///
    /// - `NoEncoder`: the new encoding is replacement or UTF-16.
    /// - `To`: the error of `encoder` for the new encoding, or `Sized(Memory)` if the allocation of
    ///   the bytes failed.
    /// - `From`: the error of `decode`, if the new encoding has an encoder.
    pub fn transcode(
        &self,
        alloc: Global,
        from: &str,
        to: &str,
        input: &[u8],
    ) -> Result<Transcoded, TranscodeError>
        ensures { MatchResult result
            (λ transcoded. IsTranscoded self.now from.now to.now input.now
            transcoded.bytes.items transcoded.malformed transcoded.unmappable)
            (λ error. IsTranscodeError self.now from.now to.now input.now error) }
    {
        let encoder = match self.encoder(to) {
            Ok(Some(encoder)) => encoder,
            Ok(None) => return Err(TranscodeError::NoEncoder),
            Err(error) => return Err(TranscodeError::To(error)),
        };
        match self.decode(alloc, from, input) {
            Ok(decoded) => encode_decoded(alloc, encoder, &decoded),
            Err(error) => Err(TranscodeError::From(error)),
        }
    }
}

/// Encodes the text of an input by a new encoder.
fn encode_decoded(
    alloc: Global,
    encoder: AnyEncoder,
    decoded: &Decoded,
) -> Result<Transcoded, TranscodeError>
    ensures { let state = ⟦<AnyEncoder<'static> as RawEncoder>⟧.state encoder.entry in
        let text = string_bytes decoded.now.text in
        MatchResult result
        (λ transcoded. (transcoded.bytes.items ≡ bytes_by (Some state) text)
        × (transcoded.malformed ≡ decoded.now.replaced)
        × (transcoded.unmappable ≡ replaced_by (Some state) text))
        (λ error. error ≡ TranscodeError.To (RegistryError.Sized SizedError.Memory)) }
{
    match encode_by(alloc, Some(encoder), decoded.text.as_str()) {
        Ok((bytes, unmappable)) => Ok(Transcoded {
            bytes,
            malformed: decoded.replaced,
            unmappable,
        }),
        Err(_) => Err(TranscodeError::To(RegistryError::Sized(SizedError::Memory))),
    }
}
