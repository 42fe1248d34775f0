// A session of either kind at a width.
ghost use Rattle.std.specs.Prelude.{◌≡◌};
ghost use Rattle.held.specs.At.{closed_at, start_at, piece_at, piece_out_at, close_at, close_tag_at, checks_at, session_at, put_at, word_at};

use places::terms::{Edition, Terms};
use places::{Label, Place};
use session::check::Checking;
use session::seal::Sealing;
use session::session::{Close, Session, Step};
use words::word::Word;

#[derive(Clone, Copy)]
pub enum HeldAt<W: Word> {
    Seals(Sealing<W>),
    Checks(Checking<W>),
}

impl<W: Word> HeldAt<W> {
    // The closed session of a kind.
    pub fn closed(check: bool) -> HeldAt<W>
        ensures { result ≡ closed_at W W.width check }
    {
        let session = Session::closed();
        if check {
            HeldAt::Checks(Checking(session))
        } else {
            HeldAt::Seals(Sealing(session))
        }
    }

    // Starts a session of a kind; the closed session where the start is refused.
    #[tactic(auto, unfolding(crate::specs::At::start_at))]
    pub fn start(check: bool, key: &[u8], nonce: &[u8], terms: Terms) -> Close<HeldAt<W>>
        ensures { result ≡ start_at W W.width check key.now nonce.now terms }
    {
        if check {
            let Step { answer, session } = Checking::start(key, nonce, terms);
            Close {
                answer,
                runs: 0,
                session: HeldAt::Checks(session),
            }
        } else {
            let Step { answer, session } = Sealing::start(key, nonce, terms);
            Close {
                answer,
                runs: 0,
                session: HeldAt::Seals(session),
            }
        }
    }

    // Offers a piece; a checking session leaves the output alone.
    #[tactic(auto, unfolding(crate::specs::At::piece_at, crate::specs::At::piece_out_at))]
    pub fn piece(&self, label: Label, bytes: &[u8], out: &mut [u8]) -> Close<HeldAt<W>>
        ensures step { result ≡ piece_at W.width self.now label bytes.now out.old }
        ensures output { out.new ≡ piece_out_at W.width self.now label bytes.now out.old }
    {
        match self {
            HeldAt::Seals(s) => {
                let Step { answer, session } = s.piece(label, bytes, out);
                Close {
                    answer,
                    runs: 0,
                    session: HeldAt::Seals(session),
                }
            }
            HeldAt::Checks(s) => {
                let Step { answer, session } = s.piece(label, bytes);
                Close {
                    answer,
                    runs: 0,
                    session: HeldAt::Checks(session),
                }
            }
        }
    }

    // Closes: a sealing session writes its tag, a checking session holds its own to the one that is given.
    #[tactic(auto, unfolding(crate::specs::At::close_at, crate::specs::At::close_tag_at))]
    pub fn close(&self, edition: Edition, given: &[u8], tag: &mut [u8]) -> Close<HeldAt<W>>
        ensures step { result ≡ close_at W.width self.now edition given.now tag.old }
        ensures tag { tag.new ≡ close_tag_at W.width self.now edition tag.old }
    {
        match self {
            HeldAt::Seals(s) => {
                let Close {
                    answer,
                    runs,
                    session,
                } = s.close(edition, tag);
                Close {
                    answer,
                    runs,
                    session: HeldAt::Seals(session),
                }
            }
            HeldAt::Checks(s) => {
                let Close {
                    answer,
                    runs,
                    session,
                } = s.close(edition, given);
                Close {
                    answer,
                    runs,
                    session: HeldAt::Checks(session),
                }
            }
        }
    }

    // Whether it checks.
    pub fn checks(&self) -> bool
        ensures { result ≡ checks_at self.now }
    {
        match self {
            HeldAt::Seals(_) => false,
            HeldAt::Checks(_) => true,
        }
    }

    // What both kinds hold.
    pub fn session(&self) -> Session<W>
        ensures { result ≡ session_at self.now }
    {
        match self {
            HeldAt::Seals(s) => s.0,
            HeldAt::Checks(s) => s.0,
        }
    }

    // The same session at another place.
    pub fn put(&self, place: Place) -> HeldAt<W>
        ensures { result ≡ put_at self.now place }
    {
        let Session { state, key, .. } = self.session();
        let session = Session { state, key, place };
        match self {
            HeldAt::Seals(_) => HeldAt::Seals(Sealing(session)),
            HeldAt::Checks(_) => HeldAt::Checks(Checking(session)),
        }
    }

    // The i'th of its 16 words and the 4 of its key behind them; 0 where there is none.
    #[tactic(auto, unfolding(crate::specs::At::word_at))]
    pub fn word(&self, i: usize) -> u64
        ensures { result ≡ word_at self.now i }
    {
        let s = self.session();
        if i < 16 {
            s.state.number(i)
        } else {
            s.key.number(i - 16)
        }
    }
}
