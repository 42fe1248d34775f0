// A receiver of either width: for programs that are told by data which it is.
ghost use Rattle.std.specs.Prelude.{◌≡◌};
ghost use Rattle.held.specs.Receivers.{held_none, held_started, held_taken, held_taken_out, held_waiting, held_put};
ghost use Rattle.held.specs.declared.receiver.EitherReceiver.TheVariants.{Narrow, Wide};

use answers::Refusal;
use cutting::Waiting;
use places::terms::Terms;
use segments::receiver::{Receiver, ReceiverStep, ReceiverTake};
use std::marker::Model;

#[derive(Clone, Copy)]
pub struct HeldReceiver(pub EitherReceiver);

#[derive(Clone, Copy)]
pub enum EitherReceiver {
    Narrow(Receiver<u32>),
    Wide(Receiver<u64>),
}

// A contract sees the enum. It is a struct with a model so that the check follows a copy that is passed by value.
impl Model for HeldReceiver {
    ghost use Rattle.held.specs.declared.receiver.EitherReceiver.{EitherReceiver};

    ghost Value = { EitherReceiver };

    ghost view = { λ h. h.0 };

    ghost inverse = { λ v. record { 0 = v } };
}

// What a call answers, the runs of P that taking a segment reports, which are 0 of a start, and the receiver to go on with.
#[derive(Clone, Copy)]
pub struct HeldReceiverStep {
    pub answer: Result<(), Refusal>,
    pub runs: u32,
    pub receiver: HeldReceiver,
}

// It has a model, of the same fields, so that the check follows a copy that is passed by value.
impl Model for HeldReceiverStep {
    ghost use Rattle.held.specs.Receivers.{HeldReceiverStep};

    ghost Value = { HeldReceiverStep };

    ghost view = { λ s. record { answer = s.answer; runs = s.runs; receiver = s.receiver } };

    ghost inverse = { λ v. record { answer = v.answer; runs = v.runs; receiver = v.receiver } };
}

impl HeldReceiver {
    // The receiver of a refused start at a width.
    pub fn none(wide: bool) -> HeldReceiver
        ensures { result ≡ held_none wide }
    {
        if wide {
            HeldReceiver(EitherReceiver::Wide(Receiver::none()))
        } else {
            HeldReceiver(EitherReceiver::Narrow(Receiver::none()))
        }
    }

    // Starts a receiver of a width.
    #[tactic(auto, unfolding(crate::specs::Receivers::held_started))]
    pub fn start(wide: bool, key: &[u8], nonce: &[u8], terms: Terms) -> HeldReceiverStep
        ensures { result ≡ held_started wide key.now nonce.now terms }
    {
        if wide {
            started_wide(Receiver::start(key, nonce, terms))
        } else {
            started_narrow(Receiver::start(key, nonce, terms))
        }
    }

    // Takes the segment that it waits for.
    #[tactic(auto, unfolding(crate::specs::Receivers::held_taken, crate::specs::Receivers::held_taken_out))]
    pub fn take(&self, note: &[u8], last: bool, sealed: &[u8], out: &mut [u8]) -> HeldReceiverStep
        ensures step { result ≡ held_taken self.now note.now last sealed.now out.old }
        ensures output { out.new ≡ held_taken_out self.now note.now last sealed.now out.old }
    {
        match &self.0 {
            EitherReceiver::Narrow(r) => {
                let ReceiverTake {
                    answer,
                    runs,
                    receiver,
                } = r.take(note, last, sealed, out);
                HeldReceiverStep {
                    answer,
                    runs,
                    receiver: HeldReceiver(EitherReceiver::Narrow(receiver)),
                }
            }
            EitherReceiver::Wide(r) => {
                let ReceiverTake {
                    answer,
                    runs,
                    receiver,
                } = r.take(note, last, sealed, out);
                HeldReceiverStep {
                    answer,
                    runs,
                    receiver: HeldReceiver(EitherReceiver::Wide(receiver)),
                }
            }
        }
    }

    // Which segment it waits for, and whether it is complete.
    pub fn waiting(&self) -> Waiting
        ensures { result ≡ held_waiting self.now }
    {
        match &self.0 {
            EitherReceiver::Narrow(r) => r.waiting,
            EitherReceiver::Wide(r) => r.waiting,
        }
    }

    // The same, waiting elsewhere and with other rounds.
    pub fn put(&self, waiting: Waiting, rounds: u32) -> HeldReceiver
        ensures { result ≡ held_put self.now waiting rounds }
    {
        match self.0 {
            EitherReceiver::Narrow(mut r) => {
                r.waiting = waiting;
                r.terms.rounds = rounds;
                HeldReceiver(EitherReceiver::Narrow(r))
            }
            EitherReceiver::Wide(mut r) => {
                r.waiting = waiting;
                r.terms.rounds = rounds;
                HeldReceiver(EitherReceiver::Wide(r))
            }
        }
    }
}

fn started_narrow(step: ReceiverStep<u32>) -> HeldReceiverStep
    ensures { result ≡ record { answer = step.answer; runs = 0; receiver = Narrow step.receiver } }
{
    HeldReceiverStep {
        answer: step.answer,
        runs: 0,
        receiver: HeldReceiver(EitherReceiver::Narrow(step.receiver)),
    }
}

fn started_wide(step: ReceiverStep<u64>) -> HeldReceiverStep
    ensures { result ≡ record { answer = step.answer; runs = 0; receiver = Wide step.receiver } }
{
    HeldReceiverStep {
        answer: step.answer,
        runs: 0,
        receiver: HeldReceiver(EitherReceiver::Wide(step.receiver)),
    }
}
