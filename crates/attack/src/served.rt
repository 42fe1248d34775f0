// A receiver, and what it has handed out beside the honest job: the attack's own record.
use crate::cut::{Job, key, row};
use crate::job::NOTE;
use crate::tally::Tally;
use held::receiver::HeldReceiver;
use rules::SEGMENT;

// How many segments were accepted, and whether their messages and the nonce are the honest job's.
#[derive(Clone, Copy)]
pub(crate) struct Served<'a> {
    pub own: &'a Job<'a>,
    pub receiver: HeldReceiver,
    pub segments: u8,
    pub honest: bool,
}

impl<'a> Served<'a> {
    // A receiver for a job that was started with a nonce, the honest one or another.
    pub(crate) fn started(own: &'a Job<'a>, nonce: &[u8]) -> Served<'a> {
        let wide = own.width == 64;
        Served {
            own,
            receiver: HeldReceiver::start(wide, key(own.width), nonce, own.terms).receiver,
            segments: 0,
            honest: nonce == own.nonce,
        }
    }

    // What it is once a segment was offered.
    pub(crate) fn offered(&self, last: bool, sealed: &[u8]) -> Served<'a> {
        let mut room = [0; SEGMENT];
        let n = sealed.len().saturating_sub(row(self.own.width));
        let out = &mut room[..n.min(SEGMENT)];
        let receiver = self.receiver;
        let step = receiver.take(&NOTE, last, sealed, out);
        let done = step.answer.is_ok();
        Served {
            own: self.own,
            receiver: step.receiver,
            segments: self.segments.saturating_add(done as u8),
            honest: self.honest && (!done || &*out == self.own.message(self.segments)),
        }
    }

    // A job passed where the receiver is complete; it is unmixed where all that was handed out is the honest job.
    pub(crate) fn verdict(&self) -> Tally {
        let receiver = self.receiver;
        let complete = receiver.waiting().complete;
        Tally::one_job(self.honest && self.segments == 2, complete)
    }
}
