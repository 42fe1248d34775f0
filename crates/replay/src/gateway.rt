// The gateway: each call of its checking session, printed on a line with its answer.
use crate::job::{KEY, terms};
use crate::told::{Answered, Named, Said};
use places::Label;
use places::terms::Edition;
use session::check::Checking;
use std::io;

#[derive(Clone, Copy)]
pub(crate) struct Gateway {
    session: Checking<u64>,
}

impl Gateway {
    pub(crate) fn start(rt: &impl Print, nonce: &[u8], edition: Edition) -> io::Result<Gateway> {
        let step = Checking::start(&KEY, nonce, terms(edition));
        println!(rt;
            "  start a session for {} -> {}",
            Named(edition),
            Answered(step.answer)
        )?;
        Ok(Gateway {
            session: step.session,
        })
    }

    pub(crate) fn piece(
        &mut self,
        rt: &impl Print,
        label: Label,
        bytes: &[u8],
        name: &str,
    ) -> io::Result<()> {
        let step = self.session.piece(label, bytes);
        self.session = step.session;
        println!(rt; "  {}, {name} -> {}", Said(label), Answered(step.answer))
    }

    // Closes the session; whether the job passes.
    pub(crate) fn close(
        &mut self,
        rt: &impl Print,
        edition: Edition,
        tag: &[u8],
        name: &str,
    ) -> io::Result<bool> {
        let step = self.session.close(edition, tag);
        self.session = step.session;
        println!(rt;
            "  close under {}, {name} -> {}",
            Named(edition),
            Answered(step.answer)
        )?;
        Ok(step.answer.is_ok())
    }

    // The bytes of each part that the session has accepted.
    pub(crate) fn say_accepted(&self, rt: &impl Print) -> io::Result<()> {
        let s = self.session.0.place;
        println!(rt; "note {}, body {}, trailer {}", s.note, s.body, s.trailer)
    }
}
