//! The wanted events of an encoder, as rows state them.
use legacy_base::EncodeEvent;
use legacy_base::EncodeEvent::{Byte, Unmappable};

/// The wanted events of a part of a text.
#[derive(Clone, Copy)]
pub(crate) enum Wanted<'a> {
    /// These bytes.
    Bytes(&'a [u8]),
    /// The report of an unmappable scalar.
    Report(char),
}

/// Events, at most 64 of them.
#[derive(Drop)]
pub(crate) struct Encoded {
    events: [EncodeEvent; 64],
    count: usize,
}

impl Encoded {
    fn push(&mut self, event: EncodeEvent) {
        if self.count < 64 {
            self.events[self.count] = event;
            self.count += 1;
        }
    }

    pub(crate) fn as_slice(&self) -> &[EncodeEvent] {
        &self.events[..self.count.min(64)]
    }
}

/// Returns the wanted events.
pub(crate) fn events_of(wanted: &[Wanted]) -> Encoded {
    let mut all = Encoded {
        events: [Byte(0); 64],
        count: 0,
    };
    for part in wanted {
        match part {
            Wanted::Bytes(bytes) => {
                for byte in *bytes {
                    all.push(Byte(*byte));
                }
            }
            Wanted::Report(scalar) => all.push(Unmappable(*scalar)),
        }
    }
    all
}
