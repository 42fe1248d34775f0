// A session of either kind and width: for programs that are told by data which it is.
#![tactic(auto)]

ghost use Rattle.std.specs.Prelude.{◌≡◌};
ghost use Rattle.held.specs.At.{held_close_of};
ghost use Rattle.held.specs.declared.EitherSession.TheVariants.{Narrow, Wide};
ghost use Rattle.held.specs.Held.{closed_held, held_start, held_piece, held_piece_out, held_close, held_tag, held_wide, held_place, held_checks, held_put, held_word};

use at::HeldAt;
use places::terms::{Edition, Terms};
use places::{Label, Place};
use session::session::Close;
use std::marker::Model;

pub mod at;
pub mod receiver;

#[derive(Clone, Copy)]
pub struct Held(pub EitherSession);

#[derive(Clone, Copy)]
pub enum EitherSession {
    Narrow(HeldAt<u32>),
    Wide(HeldAt<u64>),
}

// A contract sees the enum. It is a struct with a model so that the check follows a copy that is passed by value.
impl Model for Held {
    ghost use Rattle.held.specs.declared.EitherSession.{EitherSession};

    ghost Value = { EitherSession };

    ghost view = { λ h. h.0 };

    ghost inverse = { λ v. record { 0 = v } };
}

impl Held {
    // The closed session of a kind and a width.
    pub fn closed(check: bool, wide: bool) -> Held
        ensures { result ≡ closed_held check wide }
    {
        if wide {
            Held(EitherSession::Wide(HeldAt::closed(check)))
        } else {
            Held(EitherSession::Narrow(HeldAt::closed(check)))
        }
    }

    // Starts a session of a kind and a width; the closed session where the start is refused. It reports no runs.
    #[tactic(auto, unfolding(crate::specs::Held::held_start))]
    pub fn start(check: bool, wide: bool, key: &[u8], nonce: &[u8], terms: Terms) -> Close<Held>
        ensures { result ≡ held_start check wide key.now nonce.now terms }
    {
        if wide {
            with_wide(HeldAt::start(check, key, nonce, terms))
        } else {
            with_narrow(HeldAt::start(check, key, nonce, terms))
        }
    }

    // Offers a piece; a checking session leaves the output alone. It reports no runs.
    #[tactic(auto, unfolding(crate::specs::Held::held_piece, crate::specs::Held::held_piece_out))]
    pub fn piece(&self, label: Label, bytes: &[u8], out: &mut [u8]) -> Close<Held>
        ensures step { result ≡ held_piece self.now label bytes.now out.old }
        ensures output { out.new ≡ held_piece_out self.now label bytes.now out.old }
    {
        match &self.0 {
            EitherSession::Narrow(h) => with_narrow(h.piece(label, bytes, out)),
            EitherSession::Wide(h) => with_wide(h.piece(label, bytes, out)),
        }
    }

    // Closes: a sealing session writes its tag, a checking session holds its own to the one that is given.
    #[tactic(auto, unfolding(crate::specs::Held::held_close, crate::specs::Held::held_tag))]
    pub fn close(&self, edition: Edition, given: &[u8], tag: &mut [u8]) -> Close<Held>
        ensures step { result ≡ held_close self.now edition given.now tag.old }
        ensures tag { tag.new ≡ held_tag self.now edition tag.old }
    {
        match &self.0 {
            EitherSession::Narrow(h) => with_narrow(h.close(edition, given, tag)),
            EitherSession::Wide(h) => with_wide(h.close(edition, given, tag)),
        }
    }

    // Whether its words have 64 bits.
    pub fn is_wide(&self) -> bool
        ensures { result ≡ held_wide self.now }
    {
        match &self.0 {
            EitherSession::Narrow(_) => false,
            EitherSession::Wide(_) => true,
        }
    }

    // Where it stands.
    pub fn place(&self) -> Place
        ensures { result ≡ held_place self.now }
    {
        match &self.0 {
            EitherSession::Narrow(h) => h.session().place,
            EitherSession::Wide(h) => h.session().place,
        }
    }

    // Whether it checks.
    pub fn checks(&self) -> bool
        ensures { result ≡ held_checks self.now }
    {
        match &self.0 {
            EitherSession::Narrow(h) => h.checks(),
            EitherSession::Wide(h) => h.checks(),
        }
    }

    // The same session at another place.
    pub fn put(&self, place: Place) -> Held
        ensures { result ≡ held_put self.now place }
    {
        match &self.0 {
            EitherSession::Narrow(h) => Held(EitherSession::Narrow(h.put(place))),
            EitherSession::Wide(h) => Held(EitherSession::Wide(h.put(place))),
        }
    }

    // The i'th of its 16 words and the 4 of its key behind them; 0 where there is none.
    #[tactic(auto, unfolding(crate::specs::Held::held_word))]
    pub fn word(&self, i: usize) -> u64
        ensures { result ≡ held_word self.now i }
    {
        match &self.0 {
            EitherSession::Narrow(h) => h.word(i),
            EitherSession::Wide(h) => h.word(i),
        }
    }
}

fn with_narrow(close: Close<HeldAt<u32>>) -> Close<Held>
    ensures { result ≡ held_close_of Narrow close }
{
    Close {
        answer: close.answer,
        runs: close.runs,
        session: Held(EitherSession::Narrow(close.session)),
    }
}

fn with_wide(close: Close<HeldAt<u64>>) -> Close<Held>
    ensures { result ≡ held_close_of Wide close }
{
    Close {
        answer: close.answer,
        runs: close.runs,
        session: Held(EitherSession::Wide(close.session)),
    }
}
