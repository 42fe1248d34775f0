// A receiver of segments, at a width: it takes them in order, and hands a message out only after its tag.
ghost use Rattle.std.specs.Prelude.{◌≡◌, ⊤, ◌+◌, length};
ghost use Rattle.norx.specs.Norx.{row_bytes};
ghost use Rattle.cutting.specs.Cutting.{waiting_first};
ghost use Rattle.segments.specs.Receivers.{no_receiving, starts_answer, starts_with, taking_answer, taking_runs, taking_out, after_taking};

use super::at::open;
use crate::next;
use answers::{Outcome, Refusal};
use cutting::Waiting;
use places::start_answer;
use places::terms::{Edition, Terms};
use rules::SEGMENT_NUMBER;
use rules::w64::{JOB_NONCE as LONGEST_JOB_NONCE, ROW as LONGEST_ROW};
use std::alloc::AllocError;
use std::marker::{Model, PhantomData};
use words::word::{Word, row_bytes};

// What it was started with, and which segment it waits for. It holds job and revision, so that nobody can change them halfway. Whatever stands in it, every call answers.
// Key and nonce have room for those of both widths: behind their own bytes are zeros.
#[derive(Copy)]
pub struct Receiver<W: Word> {
    key: [u8; LONGEST_ROW],
    nonce: [u8; LONGEST_JOB_NONCE],
    pub terms: Terms,
    pub waiting: Waiting,
    width: PhantomData<W>,
}

// A contract sees key and nonce as long as the width has them.
impl<W: Word> Model for Receiver<W> {
    ghost use Rattle.std.specs.Prelude.{◌≡◌, ◌-◌, take};
    ghost use Rattle.norx.specs.Norx.{row_bytes};
    ghost use Rattle.segments.specs.Receivers.{Receiving, filled};

    ghost Value = { Receiving };

    ghost view = { λ r. record { key = take (row_bytes W.width) r.key; nonce = take (row_bytes W.width - 8) r.nonce; terms = r.terms; waiting = r.waiting } };

    ghost invariant = { λ r. (filled 32 (take (row_bytes W.width) r.key) ≡ r.key) × (filled 24 (take (row_bytes W.width - 8) r.nonce) ≡ r.nonce) };

    ghost inverse = { λ R. record { key = filled 32 R.key; nonce = filled 24 R.nonce; terms = R.terms; waiting = R.waiting; width = record {} } };

    ghost inverse_ok = { λ r h i. record { key = h.0 i; nonce = h.1 i; terms = r.terms; waiting = r.waiting; width = r.width } };
}

impl<W: Word> Clone for Receiver<W> {
    ghost is_clone = { λ x y. y ≡ x };

    ghost is_infallible = { λ _. ⊤ };

    fn clone(&self) -> Result<Self, AllocError> {
        Ok(*self)
    }
}

// What a start answers, and the receiver to go on with.
#[derive(Clone, Copy)]
pub struct ReceiverStep<W: Word> {
    pub answer: Result<(), Refusal>,
    pub receiver: Receiver<W>,
}

// It has a model, of the same fields, so that the check follows a copy that is passed by value.
impl<W: Word> Model for ReceiverStep<W> {
    ghost use Rattle.segments.specs.Receivers.{ReceiverStep};

    ghost Value = { ReceiverStep };

    ghost view = { λ s. record { answer = s.answer; receiver = s.receiver } };

    ghost inverse = { λ v. record { answer = v.answer; receiver = v.receiver } };
}

// What taking a segment answers, how many times P ran, and the receiver to go on with.
#[derive(Clone, Copy)]
pub struct ReceiverTake<W: Word> {
    pub answer: Result<(), Refusal>,
    pub runs: u32,
    pub receiver: Receiver<W>,
}

// It has a model, of the same fields, so that the check follows a copy that is passed by value.
impl<W: Word> Model for ReceiverTake<W> {
    ghost use Rattle.segments.specs.Receivers.{ReceiverTake};

    ghost Value = { ReceiverTake };

    ghost view = { λ s. record { answer = s.answer; runs = s.runs; receiver = s.receiver } };

    ghost inverse = { λ v. record { answer = v.answer; runs = v.runs; receiver = v.receiver } };
}

impl<W: Word> Receiver<W> {
    // Starts a receiver of one job, which waits for its first segment; the one in which every number is zero where the start is refused.
    pub fn start(key: &[u8], nonce: &[u8], terms: Terms) -> ReceiverStep<W>
        ensures { result ≡ record { answer = starts_answer W.width key.now nonce.now terms; receiver = starts_with W.width key.now nonce.now terms } }
    {
        let answer = start_answer(
            row_bytes::<W>(),
            terms,
            key.len(),
            nonce.len() + SEGMENT_NUMBER,
        );
        let receiver = match answer {
            Ok(()) => Receiver::fresh(key, nonce, terms),
            Err(_) => Receiver::none(),
        };
        ReceiverStep { answer, receiver }
    }

    // Takes the segment that it waits for, and then waits for the next; or refuses it, and waits for the same.
    pub fn take(self, note: &[u8], last: bool, sealed: &[u8], out: &mut [u8]) -> ReceiverTake<W>
        ensures step { result ≡ record { answer = taking_answer W.width self note.now last sealed.now out.old; runs = taking_runs W.width self note.now last sealed.now out.old; receiver = after_taking W.width self note.now last sealed.now out.old } }
        ensures output { out.new ≡ taking_out W.width self note.now last sealed.now out.old }
    {
        let n = row_bytes::<W>();
        let key = &self.key[..n];
        let nonce = &self.nonce[..n - SEGMENT_NUMBER];
        let Outcome { answer, runs } = open::<W>(
            key,
            nonce,
            self.terms,
            note,
            self.waiting,
            last,
            sealed,
            out,
        );
        let mut receiver = self;
        receiver.waiting = next(self.waiting, answer, last);
        ReceiverTake {
            answer,
            runs,
            receiver,
        }
    }

    // The key that it was started with.
    #[inline(always)]
    pub fn key(&self) -> &[u8]
        ensures bytes { result.now ≡ self.now.key }
        ensures long { length self.now.key ≡ row_bytes W.width }
    {
        &self.key[..row_bytes::<W>()]
    }

    // The job's nonce that it was started with.
    #[inline(always)]
    pub fn nonce(&self) -> &[u8]
        ensures bytes { result.now ≡ self.now.nonce }
        ensures long { length self.now.nonce + 8 ≡ row_bytes W.width }
    {
        &self.nonce[..row_bytes::<W>() - SEGMENT_NUMBER]
    }

    // The receiver of a refused start: every number in it is zero.
    pub fn none() -> Receiver<W>
        ensures { result ≡ no_receiving W.width }
    {
        Receiver {
            key: [0; LONGEST_ROW],
            nonce: [0; LONGEST_JOB_NONCE],
            terms: Terms {
                rounds: 0,
                edition: Edition {
                    job: 0,
                    revision: 0,
                },
            },
            waiting: Waiting {
                index: 0,
                complete: false,
            },
            width: PhantomData,
        }
    }

    // Holds copies of key and nonce, and waits for the first segment.
    fn fresh(key: &[u8], nonce: &[u8], terms: Terms) -> Receiver<W>
        requires { (length key.now ≡ row_bytes W.width) × (length nonce.now + 8 ≡ row_bytes W.width) }
        ensures { result ≡ record { key = key.now; nonce = nonce.now; terms = terms; waiting = waiting_first } }
    {
        let mut k = [0; LONGEST_ROW];
        texts::copy(key, &mut k);
        let mut n = [0; LONGEST_JOB_NONCE];
        texts::copy(nonce, &mut n);
        Receiver {
            key: k,
            nonce: n,
            terms,
            ..Receiver::none()
        }
    }
}
