//! Reads an input in pieces, and writes.
ghost use Rattle.std.specs.Prelude.{◌≡◌, ℕ, ◌+◌, ◌^◌, ◌<◌, ◌≤◌, length, drop, take, OnOk, OnErr, IfSome, IfNone};
ghost use Rattle.std.specs.Io.KnownBytes.{Appends, Consumes, IsAtEnd, Keeps};

use std::io::{self, Error, ErrorKind, Read, Write};

/// The maximum number of bytes read at once.
pub const PIECE: usize = 4096;

/// Reads into the beginning of the buffer, and again as long as the read is interrupted.
///
/// Returns the number of bytes read, which is 0 at the end of the input, or `None` if a read fails.
fn read_again<R: Read>(input: &mut R, buffer: &mut [u8]) -> Option<usize>
    requires { 0 < length buffer.old }
    ensures count { IfSome result (λ n. n ≤ length buffer.new) }
    ensures bytes { IfSome result (λ n.
        Consumes (R.remaining input.old) (R.remaining input.new) (take n buffer.new)
        × (n ≡ 0 → IsAtEnd (R.remaining input.new))) }
    ensures kept { IfNone result (Keeps (R.remaining input.old) (R.remaining input.new)) }
{
    'reads: for _ in 0..u64::MAX {
        match input.read(buffer) {
            Ok(count) => return Some(count),
            Err(error) => {
                if error.kind() != ErrorKind::Interrupted {
                    return None;
                }
            }
        }
    }
    None
}

/// Reads a piece into the beginning of the buffer, and returns its length in bytes.
///
/// The length is 0 at the end of the input. With the `total` bytes before the piece it does not
/// exceed `usize::MAX`. An interrupted read is made again. Returns `None` if a read fails or
/// `total` is `usize::MAX`.
pub fn read_piece<R: Read>(input: &mut R, buffer: &mut [u8], total: usize) -> Option<usize>
    requires { 0 < length buffer.old }
    ensures count { IfSome result (λ n. (n ≤ length buffer.new) × (total + n < 2 ^ 64)) }
    ensures bytes { IfSome result (λ n.
        Consumes (R.remaining input.old) (R.remaining input.new) (take n buffer.new)
        × (n ≡ 0 → IsAtEnd (R.remaining input.new))) }
    ensures kept { IfNone result (Keeps (R.remaining input.old) (R.remaining input.new)) }
{
    let most = (usize::MAX - total).min(buffer.len());
    if most == 0 {
        return None;
    }
    read_again(input, &mut buffer[..most])
}

/// Returns the bytes of the piece from the offset on.
#[inline]
pub fn rest_of(piece: &[u8], offset: usize) -> &[u8]
    requires { offset ≤ length piece.now }
    ensures { result.now ≡ drop offset piece.now }
{
    &piece[offset..]
}

/// Writes all the bytes, as `write_all` does.
///
/// If an error is returned, a front of them was written.
pub fn write_whole<W: Write>(output: &mut W, bytes: &[u8]) -> io::Result<()>
    ensures ok { OnOk result (Appends (W.contents output.old) (W.contents output.new) bytes.now) }
    ensures err { OnErr result ((count : ℕ) × Appends
        (W.contents output.old) (W.contents output.new) (take count bytes.now)) }
{
    let mut written: usize = 0;
    'writes: for _ in 0..u64::MAX {
        if written == bytes.len() {
            return Ok(());
        }
        match output.write(rest_of(bytes, written)) {
            Ok(0) => return Err(Error::from(ErrorKind::WriteZero)),
            Ok(count) => written += count,
            Err(error) => {
                if error.kind() != ErrorKind::Interrupted {
                    return Err(error);
                }
            }
        }
    }
    Err(Error::from(ErrorKind::Other))
}
