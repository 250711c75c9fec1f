//! Inputs in pieces, and outputs of every small length.

/// Returns the lengths 0 to 4 in turn, 60 times.
pub(crate) fn small_lengths() -> [usize; 300] {
    let mut lengths = [0usize; 300];
    for at in 0..300 {
        lengths[at] = at % 5;
    }
    lengths
}

/// The greatest number of pieces of an input.
const MOST: usize = 160;

/// The first 160 pieces of an input.
#[derive(Drop)]
pub(crate) struct Pieces<P: Copy> {
    pieces: [P; MOST],
    count: usize,
}

impl<P: Copy> Pieces<P> {
    /// Returns no pieces; the places after the last piece have the empty one.
    fn none(empty: P) -> Pieces<P> {
        Pieces {
            pieces: [empty; MOST],
            count: 0,
        }
    }

    fn push(&mut self, piece: P) {
        if self.count < MOST {
            self.pieces[self.count] = piece;
            self.count += 1;
        }
    }

    pub(crate) fn as_slice(&self) -> &[P] {
        &self.pieces[..self.count.min(MOST)]
    }
}

/// Returns the pieces, with an empty one after each.
pub(crate) fn spaced<P: Copy>(pieces: &[P], empty: P) -> Pieces<P> {
    let mut all = Pieces::none(empty);
    for piece in pieces {
        all.push(*piece);
        all.push(empty);
    }
    all
}

/// Returns each byte as a piece.
pub(crate) fn byte_pieces(input: &[u8]) -> Pieces<&[u8]> {
    let mut all = Pieces::none(&input[..0]);
    for piece in input.chunks(1) {
        all.push(piece);
    }
    all
}

/// Returns each scalar of the text as a piece in UTF-8.
pub(crate) fn text_pieces(text: &str) -> Pieces<&str> {
    let mut all = Pieces::none("");
    let mut start = 0usize;
    for scalar in text.chars() {
        let end = start.saturating_add(scalar.len_utf8());
        all.push(text.get(start..end).unwrap_or(""));
        start = end;
    }
    all
}

/// Returns each scalar of the text as a piece of these UTF-16 code units.
pub(crate) fn unit_pieces<'a>(text: &str, units: &'a [u16]) -> Pieces<&'a [u16]> {
    let mut all = Pieces::none(&units[..0]);
    let mut start = 0usize;
    for scalar in text.chars() {
        let end = start.saturating_add(scalar.len_utf16());
        all.push(units.get(start..end).unwrap_or(&[]));
        start = end;
    }
    all
}
