// The jobs of tool 4, and what the office and the gateway have in common.
use places::terms::{Edition, Terms};
use places::{Label, Part};

// A body, and the nonce that it is sealed under for its edition.
#[derive(Clone, Copy)]
pub(crate) struct Job {
    pub edition: Edition,
    pub nonce: [u8; 32],
    pub body: [u8; 48],
}

// Revisions 11 and 12 of job 7: in 12 both passes are less deep, and faster.
pub(crate) const OLD: Job = Job {
    edition: Edition {
        job: 7,
        revision: 11,
    },
    nonce: *b"the nonce of revision 11, for it",
    body: *b"T4 M6\nG1 Z-6.0 F300\nX80\nG1 Z-9.5 F120\nX0 Y0\nM30\n",
};

pub(crate) const NEW: Job = Job {
    edition: Edition {
        job: 7,
        revision: 12,
    },
    nonce: *b"the nonce of revision 12, for it",
    body: *b"T4 M6\nG1 Z-4.0 F450\nX80\nG1 Z-6.5 F180\nX0 Y0\nM30\n",
};

pub(crate) const NOTE: [u8; 18] = *b"tool 4, two passes";

pub(crate) const TRAILER: [u8; 15] = *b"lot 7, 40 parts";

pub(crate) const KEY: [u8; 32] = *b"the key of tool 4 and the office";

pub(crate) const ROUNDS: u32 = 4;

pub(crate) const HALF: usize = 24;

pub(crate) fn first_half(text: &[u8]) -> &[u8] {
    &text[..text.len() / 2]
}

pub(crate) fn second_half(text: &[u8]) -> &[u8] {
    &text[text.len() / 2..]
}

pub(crate) fn terms(edition: Edition) -> Terms {
    Terms {
        rounds: ROUNDS,
        edition,
    }
}

pub(crate) fn label(edition: Edition, part: Part, offset: usize) -> Label {
    Label {
        edition,
        part,
        offset,
    }
}
