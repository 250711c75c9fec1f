//! The loop that reads blocks ahead of the machine, one after another, and blocks of ASCII.
// The functions that run for each block are always inlined, and so are all between them and a decoder's call: a call
// would pass vectors through memory, and would store the destination's place there for each block.
#![tactic(auto, using(crate::proofs::WrittenReads::no_bytes))]

ghost use Rattle.std.specs.Prelude.{◌≡◌, ◌<◌, ◌≤◌, length, true};
ghost use Rattle.legacy_base.specs.{Grammar.Grammar, States.new_state};
ghost use Rattle.legacy_decoder_engine.specs.ReadAhead.{HasAscii, ReadsAhead};

use legacy_base::Destination;

/// The least number of code units that stay free after text was read ahead.
pub const SLACK: usize = 3;

/// What reads text by blocks, with nothing held back between two of them.
///
/// A block is a number of bytes or forms for which room is tested once.
pub trait BlockReader {
    /// The grammar.
    ghost grammar: { Self → Grammar };

    /// Reads the block at the front, a part of it, or nothing.
    ///
    /// Returns the number of bytes read, and whether another block may follow.
    fn read_block<T: Destination>(&self, src: &[u8], dst: &mut T) -> (usize, bool)
        ensures ahead { ReadsAhead T.Destination (new_state (grammar self.now)) src.now result.0 dst.old dst.new }
        ensures goes_on { result.1 ≡ true → 0 < result.0 };
}

/// Reads blocks from the front while another may follow, and returns the number of bytes read, which may be 0.
#[inline(always)]
pub fn read_blocks<B: BlockReader, T: Destination>(blocks: &B, src: &[u8], dst: &mut T) -> usize
    ensures { ReadsAhead T.Destination (new_state (B.grammar blocks.now)) src.now result dst.old dst.new }
{
    let mut at = 0;
    loop {
        let (read, goes_on) = blocks.read_block(&src[at..], dst);
        at += read;
        if !goes_on || at == src.len() {
            return at;
        }
    }
}

/// Reads ASCII from the front by blocks of 64 bytes, but no block that ends fewer than 64 bytes before the end.
///
/// Returns the number of bytes read, which may be 0, and whether all of them were whole blocks.
#[inline(always)]
fn read_wide_blocks<T: Destination>(src: &[u8], dst: &mut T) -> (usize, bool)
    ensures read { result.0 ≤ length src.now }
    ensures ahead { (grammar : Grammar) → HasAscii grammar → ReadsAhead T.Destination (new_state grammar) src.now result.0 dst.old dst.new }
{
    let mut at = 0;
    while src.len() - at >= 128 && dst.free() >= 64 + SLACK {
        let count = dst.put_front(&src[at..]);
        at += count;
        if count < 64 {
            return (at, false);
        }
    }
    (at, true)
}

/// Reads ASCII from the front by short blocks, and returns the number of bytes read, which may be 0.
#[inline(always)]
#[tactic(auto, using(std::proofs::lemmas::Grind::common_steps, crate::proofs::JoinedReads::reads_front, crate::proofs::WrittenReads::writes_ascii))]
fn read_short_blocks<T: Destination>(src: &[u8], dst: &mut T) -> usize
    ensures read { result ≤ length src.now }
    ensures ahead { (grammar : Grammar) → HasAscii grammar → ReadsAhead T.Destination (new_state grammar) src.now result dst.old dst.new }
{
    let most = dst.free().saturating_sub(SLACK).min(src.len());
    dst.copy_ascii(&src[..most])
}

/// Reads ASCII from the front by blocks, and returns the number of bytes read, which may be 0.
///
/// If it reads any, three code units stay free.
// The byte after a malformed sequence is often past ASCII. No block is begun there.
#[inline(always)]
pub fn read_ascii<T: Destination>(src: &[u8], dst: &mut T) -> usize
    ensures read { result ≤ length src.now }
    ensures ahead { (grammar : Grammar) → HasAscii grammar → ReadsAhead T.Destination (new_state grammar) src.now result dst.old dst.new }
{
    if !src.is_empty() && src[0] >= 0x80 {
        return 0;
    }
    let (front, goes_on) = read_wide_blocks(src, dst);
    if !goes_on {
        return front;
    }
    front + read_short_blocks(&src[front..], dst)
}
