// The pieces of one edition in another order: 15 of 20 bytes, or 7 of 48, or 4 of 96; 48 and 96 are the blocks of the two widths.
use crate::offers::{Offer, body};

// The length of a piece, and which pieces are touched.
#[derive(Drop)]
pub(crate) struct Touched {
    pub size: u32,
    pub i: u32,
    pub j: u32,
}

impl Touched {
    fn of(size: u32, i: u32, j: u32) -> Touched {
        Touched { size, i, j }
    }
}

// Every two pieces of each length, in both orders, and each piece with itself, which leaves the job honest.
pub(crate) fn pair(m: u32) -> Touched {
    match m {
        0..=224 => Touched::of(20, m / 15, m % 15),
        225..=273 => Touched::of(48, (m - 225) / 7, (m - 225) % 7),
        _ => Touched::of(96, (m - 274) / 4, (m - 274) % 4),
    }
}

// Every piece of each length.
pub(crate) fn single(m: u32) -> Touched {
    match m {
        0..=14 => Touched::of(20, m, m),
        15..=21 => Touched::of(48, m - 15, m - 15),
        _ => Touched::of(96, m - 22, m - 22),
    }
}

// The pieces i and j in each other's place: with the offsets of their new places where i is first, else with their own.
pub(crate) fn swapped(t: Touched, p: u32, had: usize) -> Offer {
    let piece = if p == t.i {
        t.j
    } else if p == t.j {
        t.i
    } else {
        p
    };
    piece_offer(t.size, piece, had, t.i < t.j)
}

// The piece i twice.
pub(crate) fn repeated(t: Touched, p: u32, had: usize, relabelled: bool) -> Offer {
    let piece = if p <= t.i { p } else { p - 1 };
    piece_offer(t.size, piece, had, relabelled)
}

// All pieces but i.
pub(crate) fn dropped(t: Touched, p: u32, had: usize, relabelled: bool) -> Offer {
    let piece = if p < t.i { p } else { p.saturating_add(1) };
    piece_offer(t.size, piece, had, relabelled)
}

// A piece with the offset that the session wants, or with its own.
fn piece_offer(size: u32, piece: u32, had: usize, relabelled: bool) -> Offer {
    let from = (size as usize).saturating_mul(piece as usize);
    let offset = if relabelled { had } else { from };
    body(false, from, size as usize, offset)
}
