// Checking sessions.
ghost use Rattle.std.specs.Prelude.{[], true, ◌≡◌, length};
ghost use Rattle.places.specs.Places.{Accepted};
ghost use Rattle.session.specs.Sessions.{checking, taken_at, start_of, piece_of, close_of, close_runs};
ghost use Rattle.session.specs.Kinds.{checking_of, close_with};

use super::parts::{readied, runs_of};
use super::session::{Close, Session, Step};
use answers::{Refusal, need, reported};
use blocks::ends::tag_is;
use places::terms::{Edition, Terms};
use places::{BEHIND_ALL, Label, Part, Place, after, close_answer, piece_answer, rank};
use rules::{FRONT, HEADER_MARK, TRAILER_MARK};
use sponge::pieces::{feed, open};
use std::marker::Model;
use words::state::State;
use words::word::{Word, row_bytes};

// A session that checks.
#[derive(Clone, Copy)]
pub struct Checking<W: Word>(pub Session<W>);

// It has a model, of the same fields, so that the check follows a copy that is passed by value.
impl<W: Word> Model for Checking<W> {
    ghost use Rattle.session.specs.Seen.{Checking};

    ghost Value = { Checking W };

    ghost view = { λ s. record { 0 = s.0 } };

    ghost inverse = { λ v. record { 0 = v.0 } };
}

// The state after a piece that is accepted.
fn taken_at<W: Word>(s: State<W>, p: Place, part: Part, bytes: &[u8]) -> State<W>
    requires { Accepted p part (length bytes.now) true }
    ensures { result ≡ taken_at W.width p checking part bytes.now s }
{
    let rounds = p.terms.rounds;
    let ready = readied(s, p, rank(part));
    match part {
        Part::Note => feed(ready, rounds, HEADER_MARK, FRONT + p.note, bytes),
        Part::Body => open(ready, rounds, p.body, bytes),
        Part::Trailer => feed(ready, rounds, TRAILER_MARK, p.trailer, bytes),
    }
}

impl<W: Word> Checking<W> {
    // Starts a session for these terms; the closed session where the start is refused.
    pub fn start(key: &[u8], nonce: &[u8], terms: Terms) -> Step<Checking<W>>
        ensures { result ≡ start_of (checking_of W W.width) key.now nonce.now terms }
    {
        let Step { answer, session } = Session::start(key, nonce, terms);
        Step {
            answer,
            session: Checking(session),
        }
    }

    // Takes a piece in, or refuses it and changes nothing; a body piece is ciphertext.
    pub fn piece(&self, label: Label, bytes: &[u8]) -> Step<Checking<W>>
        ensures { result ≡ piece_of (checking_of W W.width) self.now label bytes.now [] }
    {
        let Session { state, key, place } = self.0;
        let part = label.part;
        let n = bytes.len();
        // A check has no output that could have a wrong length.
        let exact = true;
        let answer = piece_answer(place, label, n, exact);
        if answer.is_err() {
            return Step {
                answer,
                session: *self,
            };
        }
        let session = Session {
            state: taken_at(state, place, part, bytes),
            key,
            place: after(place, part, n),
        };
        Step {
            answer,
            session: Checking(session),
        }
    }

    // Compares the whole tag and gives back the closed session, or refuses and changes nothing.
    pub fn close(&self, edition: Edition, tag: &[u8]) -> Close<Checking<W>>
        ensures { result ≡ close_with (close_of (checking_of W W.width) self.now edition tag.now) (close_runs (checking_of W W.width) self.now edition tag.now) }
    {
        let n = runs_of::<W>(self.0.place);
        let Step { answer, session } = self.closing(edition, tag);
        Close {
            answer,
            runs: reported(answer, n).runs,
            session,
        }
    }

    // The answer of a close, and the session then.
    fn closing(&self, edition: Edition, tag: &[u8]) -> Step<Checking<W>>
        ensures { result ≡ close_of (checking_of W W.width) self.now edition tag.now }
    {
        let Session { state, key, place } = self.0;
        let answer = close_answer(place, edition, row_bytes::<W>(), tag.len());
        if answer.is_err() {
            return Step {
                answer,
                session: *self,
            };
        }
        let ended = readied(state, place, BEHIND_ALL);
        let own = tag_is(place.terms.rounds, key, ended, tag);
        Step {
            answer: need(own, Refusal::TagDiffers),
            session: Checking(Session::closed()),
        }
    }
}
