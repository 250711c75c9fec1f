//! Which indexes of multi-byte encodings were read.
ghost use Rattle.std.specs.Prelude.{◌≡◌};
ghost use Rattle.legacy_encodings.specs.Registries.{is_read, with_read, nothing_read};

use legacy_index_files::{EncoderIndex, FileIndex};

/// Which indexes of multi-byte encodings were read, be they empty or not.
#[derive(Clone, Copy, Debug, PartialEq, Eq)]
pub struct ReadIndexes {
    big5: bool,
    euc_kr: bool,
    jis0208: bool,
    jis0212: bool,
    gb18030: bool,
    ranges: bool,
    katakana: bool,
}

impl ReadIndexes {
    /// Returns that no index was read.
    pub(crate) fn nothing() -> ReadIndexes
        ensures { result ≡ nothing_read }
    {
        ReadIndexes {
            big5: false,
            euc_kr: false,
            jis0208: false,
            jis0212: false,
            gb18030: false,
            ranges: false,
            katakana: false,
        }
    }

    /// Returns whether the index was read. The index of single-byte encodings is none of these.
    pub(crate) fn has(&self, index: EncoderIndex) -> bool
        ensures { result ≡ is_read self.now index }
    {
        match index {
            EncoderIndex::Of(FileIndex::Big5) => self.big5,
            EncoderIndex::Of(FileIndex::EucKr) => self.euc_kr,
            EncoderIndex::Of(FileIndex::Jis0208) => self.jis0208,
            EncoderIndex::Of(FileIndex::Jis0212) => self.jis0212,
            EncoderIndex::Of(FileIndex::Gb18030) => self.gb18030,
            EncoderIndex::Of(FileIndex::Ranges) => self.ranges,
            EncoderIndex::Of(FileIndex::SingleByte) => false,
            EncoderIndex::Katakana => self.katakana,
        }
    }

    /// Adds an index of multi-byte encodings.
    pub(crate) fn add(&mut self, index: EncoderIndex)
        ensures { self.new ≡ with_read self.old index }
    {
        match index {
            EncoderIndex::Of(FileIndex::Big5) => self.big5 = true,
            EncoderIndex::Of(FileIndex::EucKr) => self.euc_kr = true,
            EncoderIndex::Of(FileIndex::Jis0208) => self.jis0208 = true,
            EncoderIndex::Of(FileIndex::Jis0212) => self.jis0212 = true,
            EncoderIndex::Of(FileIndex::Gb18030) => self.gb18030 = true,
            EncoderIndex::Of(FileIndex::Ranges) => self.ranges = true,
            EncoderIndex::Of(FileIndex::SingleByte) => {}
            EncoderIndex::Katakana => self.katakana = true,
        }
    }
}
