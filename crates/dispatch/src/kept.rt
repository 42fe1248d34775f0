// All that a program keeps from call to call, and the call of a number on it.
ghost use Rattle.std.specs.Prelude.{◌≡◌};
ghost use Rattle.dispatch.specs.Kept.{kept_receiver, kept_session, kept_call, kept_out};

use crate::jobs::{list, receiver, segment, take};
use crate::{Words, make};
use answers::{Outcome, Refusal};
use held::Held;
use held::receiver::{HeldReceiver, HeldReceiverStep};
use session::session::Close;
use std::marker::Model;

#[derive(Clone, Copy)]
pub struct Kept {
    pub session: Held,
    pub receiver: HeldReceiver,
}

// It has a model, of the same fields, so that the check follows a copy that is passed by value.
impl Model for Kept {
    ghost use Rattle.dispatch.specs.Kept.{Kept};

    ghost Value = { Kept };

    ghost view = { λ k. record { session = k.session; receiver = k.receiver } };

    ghost inverse = { λ v. record { session = v.session; receiver = v.receiver } };
}

// What a call answers, the runs of P that it reports, which are 0 of a call that reports none, and what is kept then.
#[derive(Clone, Copy)]
pub struct KeptStep {
    pub answer: Result<(), Refusal>,
    pub runs: u32,
    pub kept: Kept,
}

// It has a model, of the same fields, so that the check follows a copy that is passed by value.
impl Model for KeptStep {
    ghost use Rattle.dispatch.specs.Kept.{KeptStep};

    ghost Value = { KeptStep };

    ghost view = { λ s. record { answer = s.answer; runs = s.runs; kept = s.kept } };

    ghost inverse = { λ v. record { answer = v.answer; runs = v.runs; kept = v.kept } };
}

// Makes the call of a number: 10 seals a segment, 11 starts a receiver, 12 takes a segment, 14 writes a list, and any other is one on the session.
#[tactic(auto, unfolding(crate::specs::Kept::kept_call, crate::specs::Kept::kept_out, crate::specs::Kept::by_job))]
pub fn call(k: usize, a: Words, memory: &[u8], kept: Kept, out: &mut [u8]) -> KeptStep
    ensures step { result ≡ kept_call k a memory.now kept out.old }
    ensures output { out.new ≡ kept_out k a memory.now kept out.old }
{
    match k {
        10 => {
            let Outcome { answer, runs } = segment(a, memory, out);
            KeptStep { answer, runs, kept }
        }
        11 => with_receiver(kept, receiver(a, memory)),
        12 => with_receiver(kept, take(a, memory, kept.receiver, out)),
        14 => KeptStep {
            answer: list(a, out),
            runs: 0,
            kept,
        },
        _ => with_session(kept, make(k, a, memory, kept.session, out)),
    }
}

fn with_receiver(kept: Kept, step: HeldReceiverStep) -> KeptStep
    ensures { result ≡ kept_receiver kept step }
{
    let HeldReceiverStep {
        answer,
        runs,
        receiver,
    } = step;
    KeptStep {
        answer,
        runs,
        kept: Kept {
            session: kept.session,
            receiver,
        },
    }
}

fn with_session(kept: Kept, step: Close<Held>) -> KeptStep
    ensures { result ≡ kept_session kept step }
{
    let Close {
        answer,
        runs,
        session,
    } = step;
    KeptStep {
        answer,
        runs,
        kept: Kept {
            session,
            receiver: kept.receiver,
        },
    }
}
