// An edition sealed by a session, at either width; the length of its nonce says which.
use crate::job::{KEY, NOTE, TRAILER, fill, part};
use held::Held;
use places::terms::{Edition, Terms};
use places::{Label, Part};
use rules::w64::ROW;

pub(crate) const BODY: usize = 300;

const ROUNDS: u32 = 4;

// The ciphertext of the body, the nonce, and the tag in as many bytes as the nonce has.
#[derive(Drop)]
pub(crate) struct Message<'a> {
    pub edition: Edition,
    pub nonce: &'a [u8],
    pub text: [u8; BODY],
    pub tag: [u8; ROW],
}

impl<'a> Message<'a> {
    // Seals an edition whose body is one line again and again.
    pub(crate) fn sealed(edition: Edition, nonce: &'a [u8], line: &[u8; 15]) -> Message<'a> {
        let mut body = [0; BODY];
        let mut text = [0; BODY];
        let mut tag = [0; ROW];
        fill(&mut body, line);
        let s = start(false, nonce, edition);
        let s = s
            .piece(label(edition, Part::Note, 0), &NOTE, &mut [])
            .session;
        let s = s
            .piece(label(edition, Part::Body, 0), &body, &mut text)
            .session;
        let s = s
            .piece(label(edition, Part::Trailer, 0), &TRAILER, &mut [])
            .session;
        s.close(edition, b"", &mut tag[..nonce.len().min(ROW)]);
        Message {
            edition,
            nonce,
            text,
            tag,
        }
    }

    pub(crate) fn tag(&self) -> &[u8] {
        part(&self.tag, 0, self.nonce.len())
    }
}

// A session of the width that the nonce says.
pub(crate) fn start(check: bool, nonce: &[u8], edition: Edition) -> Held {
    let key = part(&KEY, 0, nonce.len());
    let terms = Terms {
        rounds: ROUNDS,
        edition,
    };
    Held::start(check, nonce.len() == ROW, key, nonce, terms).session
}

pub(crate) fn label(edition: Edition, part: Part, offset: usize) -> Label {
    Label {
        edition,
        part,
        offset,
    }
}
