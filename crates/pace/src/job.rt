// What is sealed and checked.
use places::terms::{Edition, Terms};
use places::{Label, Part};
use rules::w64;
use std::fmt;

pub(crate) const BODY: usize = 1024 * 1024;

// The bytes of a body and the longer tag.
pub(crate) const SEALED: usize = BODY + w64::TAG;

pub(crate) const PIECE: usize = 64 * 1024;

pub(crate) const KEY: [u8; 32] = *b"the key of tool 4 and the office";

pub(crate) const NONCE: [u8; 32] = *b"11 has a nonce of thirty-two too";

pub(crate) const EDITION: Edition = Edition {
    job: 7,
    revision: 11,
};

#[derive(Clone, Copy)]
pub(crate) enum Work {
    Seal,
    Check,
}

impl fmt::Display for Work {
    fn fmt<W: fmt::Write>(&self, f: &mut fmt::Formatter<W>) -> fmt::Result {
        f.write_str(match self {
            Work::Seal => "seal",
            Work::Check => "check",
        })
    }
}

// A line of what is printed: a work that is done in both ways.
#[derive(Clone, Copy)]
pub(crate) struct Line {
    pub width: u32,
    pub rounds: u32,
    pub work: Work,
}

impl fmt::Display for Line {
    fn fmt<W: fmt::Write>(&self, f: &mut fmt::Formatter<W>) -> fmt::Result {
        write!(f, "{} {} {}", self.width, self.rounds, self.work)
    }
}

pub(crate) fn terms(rounds: u32) -> Terms {
    let edition = EDITION;
    Terms { rounds, edition }
}

// What the piece of the body says that begins at a place.
pub(crate) fn label(offset: usize) -> Label {
    let edition = EDITION;
    Label {
        edition,
        part: Part::Body,
        offset,
    }
}
