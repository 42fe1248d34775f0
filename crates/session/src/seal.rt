// Sealing sessions.
ghost use Rattle.std.specs.Prelude.{◌≡◌, length};
ghost use Rattle.places.specs.Places.{Accepted};
ghost use Rattle.session.specs.Sessions.{sealing, taken_at, written_at, exact_of, start_of, piece_of, piece_out, close_of, close_runs, close_tag};
ghost use Rattle.session.specs.Kinds.{sealing_of, close_with};

use super::parts::{readied, runs_of};
use super::session::{Close, Session, Step};
use answers::reported;
use blocks::ends::tag as write_tag;
use places::terms::{Edition, Terms};
use places::{BEHIND_ALL, Label, Part, Place, after, close_answer, exact, piece_answer, rank};
use rules::{FRONT, HEADER_MARK, TRAILER_MARK};
use sponge::pieces::{feed, seal};
use std::marker::Model;
use words::state::State;
use words::word::{Word, row_bytes};

// A session that seals.
#[derive(Clone, Copy)]
pub struct Sealing<W: Word>(pub Session<W>);

// It has a model, of the same fields, so that the check follows a copy that is passed by value.
impl<W: Word> Model for Sealing<W> {
    ghost use Rattle.session.specs.Seen.{Sealing};

    ghost Value = { Sealing W };

    ghost view = { λ s. record { 0 = s.0 } };

    ghost inverse = { λ v. record { 0 = v.0 } };
}

// The state after a piece that is accepted; of a body piece the ciphertext is written.
fn taken_at<W: Word>(s: State<W>, p: Place, part: Part, bytes: &[u8], out: &mut [u8]) -> State<W>
    requires { Accepted p part (length bytes.now) (exact_of sealing part (length bytes.now) (length out.old)) }
    ensures state { result ≡ taken_at W.width p sealing part bytes.now s }
    ensures output { out.new ≡ written_at W.width p sealing part bytes.now s out.old }
{
    let rounds = p.terms.rounds;
    let ready = readied(s, p, rank(part));
    match part {
        Part::Note => feed(ready, rounds, HEADER_MARK, FRONT + p.note, bytes),
        Part::Body => seal(ready, rounds, p.body, bytes, out),
        Part::Trailer => feed(ready, rounds, TRAILER_MARK, p.trailer, bytes),
    }
}

impl<W: Word> Sealing<W> {
    // Starts a session for these terms; the closed session where the start is refused.
    pub fn start(key: &[u8], nonce: &[u8], terms: Terms) -> Step<Sealing<W>>
        ensures { result ≡ start_of (sealing_of W W.width) key.now nonce.now terms }
    {
        let Step { answer, session } = Session::start(key, nonce, terms);
        Step {
            answer,
            session: Sealing(session),
        }
    }

    // Takes a piece in, or refuses it and changes nothing. The output of a body piece is as long as the piece, and takes its ciphertext; that of any other piece has no bytes.
    pub fn piece(&self, label: Label, bytes: &[u8], out: &mut [u8]) -> Step<Sealing<W>>
        ensures step { result ≡ piece_of (sealing_of W W.width) self.now label bytes.now out.old }
        ensures output { out.new ≡ piece_out (sealing_of W W.width) self.now label bytes.now out.old }
    {
        let Session { state, key, place } = self.0;
        let part = label.part;
        let n = bytes.len();
        let answer = piece_answer(place, label, n, exact(part, n, out.len()));
        if answer.is_err() {
            return Step {
                answer,
                session: *self,
            };
        }
        let session = Session {
            state: taken_at(state, place, part, bytes, out),
            key,
            place: after(place, part, n),
        };
        Step {
            answer,
            session: Sealing(session),
        }
    }

    // Writes the tag and gives back the closed session, or refuses and changes nothing.
    pub fn close(&self, edition: Edition, tag: &mut [u8]) -> Close<Sealing<W>>
        ensures step { result ≡ close_with (close_of (sealing_of W W.width) self.now edition tag.old) (close_runs (sealing_of W W.width) self.now edition tag.old) }
        ensures tag { tag.new ≡ close_tag (sealing_of W W.width) self.now edition tag.old }
    {
        let n = runs_of::<W>(self.0.place);
        let Step { answer, session } = self.closing(edition, tag);
        Close {
            answer,
            runs: reported(answer, n).runs,
            session,
        }
    }

    // The answer of a close, and the session then.
    fn closing(&self, edition: Edition, tag: &mut [u8]) -> Step<Sealing<W>>
        ensures step { result ≡ close_of (sealing_of W W.width) self.now edition tag.old }
        ensures tag { tag.new ≡ close_tag (sealing_of W W.width) self.now edition tag.old }
    {
        let Session { state, key, place } = self.0;
        let answer = close_answer(place, edition, row_bytes::<W>(), tag.len());
        if answer.is_err() {
            return Step {
                answer,
                session: *self,
            };
        }
        let ended = readied(state, place, BEHIND_ALL);
        write_tag(place.terms.rounds, key, ended, tag);
        Step {
            answer: Ok(()),
            session: Sealing(Session::closed()),
        }
    }
}
