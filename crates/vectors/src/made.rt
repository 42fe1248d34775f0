// The library's calls, made and their lines written.
use crate::asked::Asked;
use crate::fault::Fault;
use crate::names::Call;
use crate::tell;
use answers::number;
use dispatch::kept::{Kept, KeptStep};
use std::io;

// Every byte of an output before a call.
const UNTOUCHED: u8 = 0xa5;

// Makes a call where what is kept allows it, on an output that is cut from a room.
pub(crate) fn answer(
    rt: &impl Print,
    asked: Asked,
    texts: &[u8],
    loud: bool,
    kept: &mut Kept,
    room: &mut [u8],
) -> Result<(), Fault> {
    let k = asked.call as usize;
    if !dispatch::is_call(k, asked.words, kept.session) {
        return Err(Fault::NoCall);
    }
    let n = asked.lent.unwrap_or(0).min(room.len());
    let out = &mut room[..n];
    out.fill(UNTOUCHED);
    let step = dispatch::kept::call(k, asked.words, texts, *kept, &mut *out);
    *kept = step.kept;
    rt.print(number(step.answer))?;
    if loud {
        tell_rest(rt, asked, step, out)?;
    }
    Ok(())
}

// Behind the answer the runs of P where the call reports them, the output where one is lent, and where a segment is taken, what the receiver waits for.
fn tell_rest(rt: &impl Print, asked: Asked, step: KeptStep, out: &[u8]) -> io::Result<()> {
    if asked.call.reports_runs() {
        print!(rt; " {}", step.runs)?;
    }
    if asked.lent.is_some() {
        tell::bytes(rt, out)?;
    }
    if asked.call == Call::Take {
        let waiting = step.kept.receiver.waiting();
        print!(rt; " {} {}", waiting.index, u8::from(waiting.complete))?;
    }
    Ok(())
}
