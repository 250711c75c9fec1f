//! The results of decoder and encoder calls, and the events of decoding and encoding.

/// The result of a decoder call (Encoding Standard, "process an item": continue, and error).
#[derive(Clone, Copy, Debug, PartialEq, Eq)]
pub enum DecoderResult {
    /// The whole input was read, and every complete scalar was written.
    InputEmpty,
    /// The decoder's next act needs more code units than the output has free.
    OutputFull,
    /// `Malformed(length, back)`: a malformed sequence of `length` bytes (1 to 4).
    ///
    /// It ends `back` bytes (0 to 3) before the end of all bytes that the decoder has read, this
    /// call included. The output has room left for U+FFFD.
    Malformed(u8, u8),
}

/// What a decoder's `step` returns: the result, and the number of bytes read.
pub type DecoderStep = (DecoderResult, usize);

/// One event of decoding a list of bytes.
#[derive(Clone, Copy, Debug, PartialEq, Eq)]
pub enum DecodeEvent {
    /// A Unicode scalar value.
    Scalar(char),
    /// A malformed sequence.
    Bad {
        /// The place of its first byte, counted in bytes from 0.
        place: usize,
        /// The number of its bytes.
        length: usize,
    },
}

/// The result of an encoder call (Encoding Standard, "process an item": continue, and error).
#[derive(Clone, Copy, Debug, PartialEq, Eq)]
pub enum EncoderResult {
    /// The whole input was read and its bytes were written; on a last call, its end too.
    InputEmpty,
    /// The encoder's next act needs more bytes than the output has free.
    OutputFull,
    /// The scalar was read, and the encoding has no bytes for it.
    ///
    /// In ISO-2022-JP it is U+FFFD where U+000E, U+000F or U+001B was read.
    Unmappable(char),
}

/// What an encoder's `step` returns: the result, and the number of bytes written.
pub type EncoderStep = (EncoderResult, usize);

/// One event of encoding.
#[derive(Clone, Copy, Debug, PartialEq, Eq)]
pub enum EncodeEvent {
    /// A byte.
    Byte(u8),
    /// A scalar value for which the encoding has no bytes.
    Unmappable(char),
}
