// A tool that is served early: each call of its receiver, printed on a line with its answer and what the tool is served.
use crate::job::{KEY, NOTE, terms};
use crate::told::{Answered, Named};
use places::terms::Edition;
use rules::SEGMENT;
use segments::receiver::Receiver;
use std::io;
use words::word::row_bytes;

// What stands in an output before a call, so that one that is left alone can be told from zeros.
const UNTOUCHED: u8 = 0xa5;

// The receiver, and whether every segment has been served as it must.
#[derive(Clone, Copy)]
pub(crate) struct Tool {
    receiver: Receiver<u64>,
    right: bool,
}

impl Tool {
    pub(crate) fn start(rt: &impl Print, nonce: &[u8], edition: Edition) -> io::Result<Tool> {
        let step = Receiver::start(&KEY, nonce, terms(edition));
        println!(rt;
            "  start a receiver for {} -> {}",
            Named(edition),
            Answered(step.answer)
        )?;
        Ok(Tool {
            receiver: step.receiver,
            right: step.answer.is_ok(),
        })
    }

    // Offers a segment; due is what the tool must be served of it, and none where it must be refused.
    pub(crate) fn take(
        &mut self,
        rt: &impl Print,
        last: bool,
        sealed: &[u8],
        due: Option<&[u8]>,
        name: &str,
    ) -> io::Result<()> {
        let called = if last { "last segment" } else { "segment" };
        let mut room = [UNTOUCHED; SEGMENT];
        let n = sealed.len().saturating_sub(row_bytes::<u64>());
        let out = &mut room[..n.min(SEGMENT)];
        let step = self.receiver.take(&NOTE, last, sealed, out);
        self.receiver = step.receiver;
        print!(rt; "  {called}, {name} -> {}; ", Answered(step.answer))?;
        self.right &= if step.answer.is_ok() {
            println!(rt; "served {} bytes", out.len())?;
            due == Some(&*out)
        } else {
            say_refused(rt, out)? && due.is_none()
        };
        Ok(())
    }

    // The index of the segment that the receiver waits for.
    pub(crate) fn say_waiting(&self, rt: &impl Print) -> io::Result<()> {
        println!(rt;
            "The receiver still waits for segment {}:",
            self.receiver.waiting.index
        )
    }

    // Whether the job is complete, and every segment was served as it must.
    pub(crate) fn is_right(&self) -> bool {
        self.right && self.receiver.waiting.complete
    }
}

// What a refusal left in the output, at the end of a line; whether that is zeros, or what was there before.
fn say_refused(rt: &impl Print, out: &[u8]) -> io::Result<bool> {
    if out.iter().all(|b| *b == 0) {
        rt.println("served 0 bytes, all zeros")?;
        Ok(true)
    } else {
        rt.println("served 0 bytes")?;
        Ok(out.iter().all(|b| *b == UNTOUCHED))
    }
}
