//! The events that a decoder finds in a whole input, however it is cut.
use crate::units::{Form, Output};
use legacy_base::DecodeEvent::{Bad, Scalar};
use legacy_base::DecoderResult::{InputEmpty, Malformed};
use legacy_base::{DecodeEvent, DecoderResult, RawDecoder};

/// A malformed sequence: the place of its first byte, and its length in bytes.
macro_rules! bad {
    ($place:expr, $length:expr) => {
        legacy_base::DecodeEvent::Bad {
            place: $place,
            length: $length,
        }
    };
}

pub(crate) use bad;

/// The first 160 events that were found.
#[derive(Drop)]
pub(crate) struct Found {
    events: [DecodeEvent; 160],
    count: usize,
}

impl Found {
    pub(crate) fn new() -> Found {
        Found {
            events: [Scalar('\0'); 160],
            count: 0,
        }
    }

    pub(crate) fn push(&mut self, event: DecodeEvent) {
        if self.count < 160 {
            self.events[self.count] = event;
            self.count += 1;
        }
    }

    /// Adds the scalars of a text in UTF-8.
    pub(crate) fn push_utf8(&mut self, bytes: &[u8]) {
        for scalar in str::from_utf8(bytes).unwrap_or("").chars() {
            self.push(Scalar(scalar));
        }
    }

    /// Adds the scalars of a text in UTF-16, and each unpaired surrogate as a malformed sequence of two bytes.
    ///
    /// Rust's own decoder finds them. Places are counted in bytes from the first unit.
    pub(crate) fn push_utf16(&mut self, units: &[u16]) {
        let mut place = 0usize;
        for unit in char::decode_utf16(units.iter().copied()) {
            let (event, length) = match unit {
                Ok(scalar) => (Scalar(scalar), 2 * scalar.len_utf16()),
                Err(_) => (bad!(place, 2), 2),
            };
            self.push(event);
            place = place.saturating_add(length);
        }
    }

    pub(crate) fn as_slice(&self) -> &[DecodeEvent] {
        &self.events[..self.count.min(160)]
    }
}

/// Returns the events of a text in which each U+FFFD is the next malformed sequence, given by its place and length.
pub(crate) fn events_of(text: &str, malformed: &[(usize, usize)]) -> Found {
    let mut found = Found::new();
    let mut count = 0usize;
    for scalar in text.chars() {
        match malformed.get(count) {
            Some((place, length)) if scalar == '\u{FFFD}' => {
                found.push(bad!(*place, *length));
                count = count.saturating_add(1);
            }
            _ => found.push(Scalar(scalar)),
        }
    }
    for (place, length) in &malformed[count.min(malformed.len())..] {
        found.push(bad!(*place, *length));
    }
    found
}

/// Returns the malformed sequence that a result reports after `seen` bytes were read.
fn reported(answer: DecoderResult, seen: usize) -> Option<DecodeEvent> {
    match answer {
        Malformed(length, back) => {
            let distance = usize::from(back) + usize::from(length);
            Some(Bad {
                place: seen.saturating_sub(distance),
                length: usize::from(length),
            })
        }
        _ => None,
    }
}

/// Returns the events of the input in calls of limited length, with outputs of limited length.
pub(crate) fn events<D: RawDecoder>(
    decoder: &mut D,
    input: &[u8],
    form: Form,
    (piece, room): (usize, usize),
) -> Found {
    let mut found = Found::new();
    let mut seen = 0usize;
    let mut end = piece.min(input.len());
    for _call in 0..1000 {
        let source = input.get(seen..end).unwrap_or(&[]);
        let last = end == input.len();
        let mut output = Output::new(form);
        let (answer, read, _) = output.decode(decoder, (source, room, last), false);
        output.push_scalars(&mut found);
        seen = seen.saturating_add(read);
        if let Some(event) = reported(answer, seen) {
            found.push(event);
        } else if answer == InputEmpty {
            if last {
                break;
            }
            end = end.saturating_add(piece).min(input.len());
        }
    }
    found
}
