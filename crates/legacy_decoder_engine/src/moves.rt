//! The small moves of each decoder, and the text that it reads ahead of them.
ghost use Rattle.std.specs.Prelude.{◌≡◌, ◌≢◌, ◌≤◌, [], length, take, true, false, MatchOption};
ghost use Rattle.legacy_text.specs.EncodingForm.{EncodingForm};
ghost use Rattle.legacy_base.specs.{Grammar.events_of, States.{DecoderState, may_hold, rests}, DecoderActs.release_need_in};
ghost use Rattle.legacy_decoder_engine.specs.ReadAhead.{ReadsTo};
ghost use Rattle.legacy_decoder_engine.specs.Moves.{need_units, read_need, IsCovered, Releases, Feeds, FeedsMalformedByte, Reports, HoldsBytes};

use legacy_base::Destination;

/// What an act needs free in the output, in code units of its encoding form.
#[derive(Clone, Copy)]
pub enum Need {
    /// No code unit.
    Nothing,
    /// One code unit.
    Unit,
    /// The code units of any scalar up to U+FFFF.
    Narrow,
    /// The code units of any scalar.
    Wide,
}

/// The result of reading a byte.
#[derive(Clone, Copy)]
pub enum Fed {
    /// The byte was read, and is held back or gives nothing.
    Nothing,
    /// It completed a sequence with this scalar.
    One(char),
    /// It completed a sequence with these two scalars, in this order.
    Two(char, char),
    /// A malformed sequence of `length` bytes, with `back` bytes held back after it.
    ///
    /// If `unread` is true, the byte was not read.
    MalformedSequence { length: u8, back: u8, unread: bool },
}

/// The moves of a decoder, of which `drive_decoder` makes its calls, with what each needs free.
pub trait DecoderMoves {
    /// The grammar and the held-back bytes.
    ghost state: { Self → DecoderState };

    /// Returns whether no held-back scalar is to be written first. Nothing changes.
    ///
    /// In every state, the held-back bytes are those that the codec may hold back.
    fn rests(&self) -> bool
        ensures is { result ≡ rests (state self.now).grammar (state self.now).held }
        ensures allowed { may_hold (state self.now).grammar (state self.now).held ≡ true };

    /// Returns what reading a byte needs, whatever its result. Nothing changes.
    fn reading_need(&self, byte: u8) -> Need
        ensures units { (form : EncodingForm) → need_units form result ≡ read_need form (state self.now) byte }
        ensures covered { IsCovered (state self.now) };

    /// Returns what writing a held-back scalar needs, or a report at the end of the input.
    ///
    /// Nothing changes.
    fn release_need(&self) -> Need
        ensures units { (form : EncodingForm) → need_units form result ≡ release_need_in form (state self.now).grammar }
        ensures covered { IsCovered (state self.now) };

    /// Removes and returns the held-back scalar that is to be written first.
    ///
    /// Returns `None` if there is none.
    fn release(&mut self) -> Option<char>
        ensures { MatchOption result (rests (state self.old).grammar (state self.old).held ≡ true)
            (λ c. Releases (state self.old) (state self.new) c) };

    /// Reads a byte after the held-back ones, and returns what it leads to.
    fn feed(&mut self, byte: u8) -> Fed
        requires { rests (state self.old).grammar (state self.old).held ≡ true }
        ensures { Feeds (state self.old) byte (state self.new) result };

    /// Is told that a malformed sequence is reported. It may change how the next bytes are read, but not the state.
    #[inline(always)]
    fn after_malformed(&mut self)
        ensures { state self.new ≡ state self.old }
    {}

    /// Returns whether there is something to report at the end of the input. Nothing changes.
    fn has_report(&self) -> bool
        ensures some { result ≡ true → events_of (state self.now).grammar (state self.now).held ≢ [] }
        ensures none { result ≡ false → events_of (state self.now).grammar (state self.now).held ≡ [] };

    /// Reports the malformed sequence at the end of the input.
    ///
    /// Returns its length in bytes and the number of bytes after it, which are still held back.
    /// Returns `None` if there is nothing to report.
    fn report(&mut self) -> Option<(u8, u8)>
        requires { rests (state self.old).grammar (state self.old).held ≡ true }
        ensures { MatchOption result (events_of (state self.old).grammar (state self.old).held ≡ [])
            (λ report. Reports (state self.old) (state self.new) report.0 report.1) };

    /// Returns true only if the byte is malformed by itself when nothing is held back.
    ///
    /// It may return false for such a byte. Nothing changes.
    #[inline(always)]
    fn is_malformed_byte(&self, byte: u8) -> bool
        ensures { result ≡ true → FeedsMalformedByte (state self.now) byte }
    {
        let _ = byte;
        false
    }

    /// Reads common sequences from the front of the input and writes their scalars.
    ///
    /// Returns the number of bytes read, which may be any part of them. The decoder changes only with bytes that
    /// switch its mode. It reads only if at least four code units are free, and leaves three, so that no act of the
    /// machine would have lacked room. A decoder without common sequences reads nothing.
    #[inline(always)]
    #[tactic(auto, using(crate::proofs::WrittenReads::no_bytes))]
    fn read_common<T: Destination>(&mut self, src: &[u8], dst: &mut T) -> usize
        ensures ahead { ReadsTo T.Destination (state self.old) (state self.new) src.now result dst.old dst.new }
    {
        let _ = (self.rests(), src.len(), dst.free());
        0
    }

    /// Holds back bytes from the front of the input, and returns their number.
    ///
    /// The result may be any part of them. They are read as by `feed`, one after another; each
    /// gives nothing and has its room.
    #[inline(always)]
    #[tactic(auto, using(crate::proofs::CallUnderWay::holds_none))]
    fn hold_back<T: Destination>(&mut self, src: &[u8], dst: &T) -> usize
        ensures within { result ≤ length src.now }
        ensures holds { HoldsBytes T.form (T.room dst.now) (state self.old) (take result src.now) (state self.new) }
    {
        let _ = (self.rests(), src.len(), dst.free());
        0
    }
}
