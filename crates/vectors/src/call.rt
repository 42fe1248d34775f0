// A line answered: a call, a comment, or neither.
use crate::asked::read;
use crate::fault::Fault;
use crate::names::Call;
use crate::{made, reading, show};
use dispatch::kept::Kept;

// The most bytes of a line.
pub(crate) const LINE_MOST: usize = 400000;

// Answers a line; one that is no call changes nothing. There is room for the bytes of all its words, and for an output.
pub(crate) fn answer(
    rt: &impl Print,
    line: &[u8],
    kept: &mut Kept,
    texts: &mut [u8],
    out: &mut [u8],
) -> Result<(), Fault> {
    match called(rt, line, kept, texts, out) {
        Err(Fault::NoCall) => Ok(rt.print("?\n")?),
        answered => answered,
    }
}

// An empty line and a comment are written as they are, and behind `quiet ` a call is a quiet one.
fn called(
    rt: &impl Print,
    line: &[u8],
    kept: &mut Kept,
    texts: &mut [u8],
    out: &mut [u8],
) -> Result<(), Fault> {
    if LINE_MOST < line.len() {
        return Err(Fault::NoCall);
    }
    if line.is_empty() || line.starts_with(b"#") {
        rt.write_all(line)?;
    } else if let Some(call) = line.strip_prefix(b"quiet ") {
        made(rt, call, false, kept, texts, out)?;
    } else {
        made(rt, line, true, kept, texts, out)?;
    }
    Ok(rt.print("\n")?)
}

// Makes the call that a line is and writes its line: the first word alone where it is quiet, and else all of them.
fn made(
    rt: &impl Print,
    line: &[u8],
    loud: bool,
    kept: &mut Kept,
    texts: &mut [u8],
    out: &mut [u8],
) -> Result<(), Fault> {
    let asked = read(line, &mut *texts)?;
    let bytes = texts.get(..asked.used).unwrap_or(&[]);
    match asked.call {
        Call::Constants => show::constants(rt, asked.words.first, loud)?,
        Call::Show => show::session(rt, kept.session, loud)?,
        Call::Put => {
            kept.session = dispatch::put(asked.words, kept.session);
            rt.print(0)?;
        }
        Call::Await => {
            kept.receiver = dispatch::jobs::put(asked.words, kept.receiver);
            rt.print(0)?;
        }
        Call::Read => reading::list(rt, bytes, loud)?,
        Call::Fields => reading::fields(rt, bytes, asked.words.second, loud)?,
        _ => made::answer(rt, asked, bytes, loud, kept, out)?,
    }
    Ok(())
}
