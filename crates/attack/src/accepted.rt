// What a session accepted, beside the honest job: the attack's own record, read from no session.
use crate::job::{NOTE, TRAILER};
use crate::message::{BODY, Message};
use places::Part;

// The bytes of each part, and whether they and the nonce are the honest job's so far.
#[derive(Clone, Copy)]
pub(crate) struct Accepted {
    pub note: usize,
    pub body: usize,
    pub trailer: usize,
    pub honest: bool,
}

impl Accepted {
    // Nothing yet, in a session that was begun with the honest nonce or with another.
    pub(crate) fn none(honest: bool) -> Accepted {
        Accepted {
            note: 0,
            body: 0,
            trailer: 0,
            honest,
        }
    }

    // Takes a piece more.
    pub(crate) fn take(&mut self, part: Part, bytes: &[u8], own: &Message) {
        let n = bytes.len();
        match part {
            Part::Note => {
                self.honest &= stands(&NOTE, self.note, bytes);
                self.note = self.note.saturating_add(n);
            }
            Part::Body => {
                self.honest &= stands(&own.text, self.body, bytes);
                self.body = self.body.saturating_add(n);
            }
            Part::Trailer => {
                self.honest &= stands(&TRAILER, self.trailer, bytes);
                self.trailer = self.trailer.saturating_add(n);
            }
        }
    }

    // Whether it is the whole honest job.
    pub(crate) fn whole(&self) -> bool {
        self.honest && self.note == NOTE.len() && self.body == BODY && self.trailer == TRAILER.len()
    }
}

// Whether bytes stand in a text at a place.
fn stands(text: &[u8], at: usize, bytes: &[u8]) -> bool {
    text.get(at..).is_some_and(|rest| rest.starts_with(bytes))
}
