//! The state of a decoder between two calls, and the results of calls, as numbers.

/// The state of a decoder between two calls. It may contain any numbers.
#[repr(C)]
#[derive(Clone, Copy)]
pub struct SavedDecoder {
    /// The number of the codec.
    pub codec: u32,
    /// The mode: in ISO-2022-JP 0 to 3, in replacement 1 after its report, and 0 otherwise.
    pub mode: u8,
    /// The number of held-back bytes.
    pub count: u8,
    /// The held-back bytes, and then bytes without meaning.
    pub held: [u8; 5],
}

/// The result of a call of a decoder.
#[repr(C)]
#[derive(Clone, Copy)]
pub struct DecoderAnswer {
    /// 0: the input is empty, 1: the output is full, 2: malformed, 3: refused, and nothing was done.
    pub status: u32,
    /// The length of the malformed sequence in bytes, or 0.
    pub length: u8,
    /// The number of bytes read after it.
    pub back: u8,
    /// Whether U+FFFD was written for a malformed sequence.
    pub replaced: bool,
    /// The number of bytes read.
    pub read: usize,
    /// The number of code units written.
    pub written: usize,
}

/// A length, or why there is none.
#[repr(C)]
#[derive(Clone, Copy)]
pub struct Length {
    /// 0: it is `length`, 1: it exceeds the largest number, 3: refused.
    pub status: u32,
    /// The length, or 0.
    pub length: usize,
}

/// The state of an encoder between two calls. It may contain any numbers.
#[repr(C)]
#[derive(Clone, Copy)]
pub struct SavedEncoder {
    /// The number of the codec.
    pub codec: u32,
    /// The mode: in ISO-2022-JP 0 to 2, and 0 otherwise.
    pub mode: u8,
}

/// The result of a call of an encoder.
#[repr(C)]
#[derive(Clone, Copy)]
pub struct EncoderAnswer {
    /// 0: the input is empty, 1: the output is full, 2: unmappable, 3: refused, and nothing was done, 4: malformed UTF-8.
    pub status: u32,
    /// The unmappable scalar value, or 0.
    pub scalar: u32,
    /// The number of malformed bytes after those read, or 0.
    pub length: usize,
    /// The number of code units read.
    pub read: usize,
    /// The number of bytes written.
    pub written: usize,
    /// Whether a reference was written for an unmappable scalar.
    pub replaced: bool,
}
