//! The result of a call with replacement, which leaves nothing for the caller to replace.

/// The result of a call with replacement.
#[derive(Clone, Copy, Debug, PartialEq, Eq)]
pub enum CoderResult {
    /// The whole input was read, and its output was written.
    InputEmpty,
    /// The output lacks room for the next act of the decoder or encoder.
    ///
    /// An encoder needs ten bytes more, which are kept free for a reference.
    OutputFull,
}
