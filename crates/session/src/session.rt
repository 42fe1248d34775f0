// What sessions of both kinds hold, and how they begin.
ghost use Rattle.std.specs.Prelude.{◌≡◌, true, length};
ghost use Rattle.norx.specs.Norx.{row_bytes};
ghost use Rattle.places.specs.Terms.{terms_ok};
ghost use Rattle.session.specs.Sessions.{closed_of, fresh_of, start_of};
ghost use Rattle.session.specs.Kinds.{plain_of};

use super::parts::fresh_state;
use answers::Refusal;
use blocks::ends::row;
use places::terms::Terms;
use places::{Place, closed_place, fresh_place, start_answer};
use std::marker::Model;
use words::state::{Row, State};
use words::word::{Word, row_bytes};

// The state after all that a session took in, its key, and where it stands. Whatever stands in it, every call answers.
#[derive(Clone, Copy)]
pub struct Session<W: Word> {
    pub state: State<W>,
    pub key: Row<W>,
    pub place: Place,
}

// It has a model, of the same fields, so that the check follows a copy that is passed by value.
impl<W: Word> Model for Session<W> {
    ghost use Rattle.session.specs.Seen.{Session};

    ghost Value = { Session W };

    ghost view = { λ s. record { state = s.state; key = s.key; place = s.place } };

    ghost inverse = { λ v. record { state = v.state; key = v.key; place = v.place } };
}

// What a start or a piece answers, and the session to go on with.
#[derive(Clone, Copy)]
pub struct Step<S> {
    pub answer: Result<(), Refusal>,
    pub session: S,
}

// It has a model, of the same fields, so that the check follows a copy that is passed by value.
impl<S> Model for Step<S> {
    ghost use Rattle.session.specs.Seen.{Step};

    ghost Value = { Step S };

    ghost view = { λ s. record { answer = s.answer; session = s.session } };

    ghost inverse = { λ v. record { answer = v.answer; session = v.session } };
}

// What a close answers, how many times P ran in the whole sealing, and the session to go on with.
#[derive(Clone, Copy)]
pub struct Close<S> {
    pub answer: Result<(), Refusal>,
    pub runs: u32,
    pub session: S,
}

// It has a model, of the same fields, so that the check follows a copy that is passed by value.
impl<S> Model for Close<S> {
    ghost use Rattle.session.specs.Seen.{Closing};

    ghost Value = { Closing S };

    ghost view = { λ s. record { answer = s.answer; runs = s.runs; session = s.session } };

    ghost inverse = { λ v. record { answer = v.answer; runs = v.runs; session = v.session } };
}

impl<W: Word> Session<W> {
    // Begun for these terms; the closed session where the start is refused.
    pub(crate) fn start(key: &[u8], nonce: &[u8], terms: Terms) -> Step<Session<W>>
        ensures { result ≡ start_of (plain_of W W.width) key.now nonce.now terms }
    {
        let answer = start_answer(row_bytes::<W>(), terms, key.len(), nonce.len());
        match answer {
            Ok(()) => Step {
                answer,
                session: Session::fresh(key, nonce, terms),
            },
            Err(_) => Step {
                answer,
                session: Session::closed(),
            },
        }
    }

    // The one closed session: every number in it is zero.
    pub fn closed() -> Session<W>
        ensures { result ≡ closed_of (plain_of W W.width) }
    {
        Session {
            state: State::zeros(),
            key: Row::zeros(),
            place: closed_place(),
        }
    }

    // Open in the note, with nothing of it yet.
    fn fresh(key: &[u8], nonce: &[u8], terms: Terms) -> Session<W>
        requires { (length key.now ≡ row_bytes W.width) × (length nonce.now ≡ row_bytes W.width) × (terms_ok terms ≡ true) }
        ensures { result ≡ fresh_of (plain_of W W.width) key.now nonce.now terms }
    {
        let key = row(key);
        Session {
            state: fresh_state(terms, key, nonce),
            key,
            place: fresh_place(terms),
        }
    }
}
