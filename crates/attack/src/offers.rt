// The pieces that each way offers.
use crate::message::BODY;
use crate::order::{dropped, pair, repeated, single, swapped};
use crate::ways::Way;
use places::Part;

// At most n bytes from a place of the session's edition or of the other, and what the piece says of itself.
#[derive(Drop)]
pub(crate) struct Offer {
    pub part: Part,
    pub foreign_bytes: bool,
    pub from: usize,
    pub n: usize,
    pub foreign_label: bool,
    pub offset: usize,
}

// The p'th piece of the m'th job of a way, and behind the last piece one of no bytes; had is how much of the body the session has accepted, and x a random number.
pub(crate) fn offered(way: Way, m: u32, p: u32, had: usize, x: u64) -> Offer {
    match way {
        Way::Cut => cut(m, p),
        Way::Swapped => swapped(pair(m), p, had),
        Way::Repeated => repeated(single(m / 2), p, had, m % 2 == 0),
        Way::Dropped => dropped(single(m / 2), p, had, m % 2 == 0),
        Way::Random => random(p, had, x),
        Way::Honest => honest(m, p),
    }
}

// A piece of the body that says it is of the session's edition.
pub(crate) fn body(foreign_bytes: bool, from: usize, n: usize, offset: usize) -> Offer {
    Offer {
        part: Part::Body,
        foreign_bytes,
        from,
        n,
        foreign_label: false,
        offset,
    }
}

// A piece of no bytes.
fn nothing() -> Offer {
    body(false, 0, 0, 0)
}

// The first k bytes of one edition and the rest of the other, for each k from 1 to all 300 of them.
fn cut(m: u32, p: u32) -> Offer {
    let k = (m / 4 % 300 + 1) as usize;
    let foreign_first = m / 2 % 2 == 1;
    match p {
        0 => body(foreign_first, 0, k, 0),
        1 => body(!foreign_first, k, BODY, k),
        _ => nothing(),
    }
}

// The same for the honest job; every other time with three retries between.
fn honest(m: u32, p: u32) -> Offer {
    let k = (m / 2 % 300 + 1) as usize;
    match p {
        0 => body(false, 0, k, 0),
        4 => body(false, k, BODY, k),
        _ if m % 2 == 1 => retry(k, p),
        _ => nothing(),
    }
}

// Retries that must be refused: under the other edition, from an old offset, and of a part that has ended.
fn retry(k: usize, p: u32) -> Offer {
    match p {
        1 => Offer {
            foreign_label: true,
            ..body(true, k, BODY, k)
        },
        2 => body(false, 0, k, 0),
        3 => whole(Part::Note),
        _ => nothing(),
    }
}

// A whole part, as it is in the honest job.
fn whole(part: Part) -> Offer {
    Offer {
        part,
        ..body(false, 0, BODY, 0)
    }
}

// Six pieces at random, and the rest of the honest ciphertext.
fn random(p: u32, had: usize, x: u64) -> Offer {
    match p {
        0..=5 => random_piece(had, x),
        6 => body(false, had, BODY, had),
        _ => nothing(),
    }
}

// x is read digit by digit: its remainders by 8, 8, 4, 4, 300, 60 and 48, each of what the one before leaves.
fn random_piece(had: usize, x: u64) -> Offer {
    match x / 18432000 % 48 {
        0 => whole(Part::Note),
        1 => whole(Part::Trailer),
        _ => random_body(had, x),
    }
}

fn random_body(had: usize, x: u64) -> Offer {
    let place = (x / 1024 % 300) as usize;
    Offer {
        part: Part::Body,
        foreign_bytes: x % 8 == 0,
        from: if x / 64 % 4 == 0 { place } else { had },
        n: (x / 307200 % 60) as usize + 1,
        foreign_label: x / 8 % 8 == 0,
        offset: if x / 256 % 4 == 0 { place } else { had },
    }
}
