// Seals a job of two lines for revision 12 of job 7, a piece for each line, and checks it in pieces that are cut elsewhere.
#![tactic(auto)]

use answers::{Refusal, number};
use places::terms::{Edition, Terms};
use places::{Label, Part};
use session::check::Checking;
use session::seal::Sealing;
use session::session::Step;
use std::io;

// The key that both sides have.
const KEY: [u8; 32] = *b"the key of tool 4 and the office";

// A real nonce is never used twice under one key.
const NONCE: [u8; 32] = *b"the nonce of revision 12, for it";

// What both sessions are for, and what each piece says of itself.
const EDITION: Edition = Edition {
    job: 7,
    revision: 12,
};

const TERMS: Terms = Terms {
    rounds: 4,
    edition: EDITION,
};

fn body(offset: usize) -> Label {
    Label {
        edition: EDITION,
        part: Part::Body,
        offset,
    }
}

// Seals the job into the text and its tag; gives the first refusal and goes no further.
fn seal(text: &mut [u8], tag: &mut [u8; 32]) -> Result<(), Refusal> {
    let half = text.len() / 2;
    let Step { answer, session } = Sealing::<u64>::start(&KEY, &NONCE, TERMS);
    answer?;
    let Step { answer, session } = session.piece(body(0), b"G1 X10\n", &mut text[..half]);
    answer?;
    let Step { answer, session } = session.piece(body(half), b"G1 Y20\n", &mut text[half..]);
    answer?;
    session.close(EDITION, tag).answer
}

// Checks the text in other pieces; the answer is Ok only where it has this tag.
fn check(rt: &impl Print, text: &[u8], tag: &[u8; 32]) -> io::Result<Result<(), Refusal>> {
    let third = text.len() / 3;
    let Step { answer, session } = Checking::<u64>::start(&KEY, &NONCE, TERMS);
    if answer.is_err() {
        return Ok(answer);
    }
    let Step { answer, session } = session.piece(body(0), &text[..third]);
    if answer.is_err() {
        return Ok(answer);
    }
    // A piece that comes twice is refused, and the session is given back as it was.
    let Step { answer, session } = session.piece(body(0), &text[..third]);
    tell(
        rt,
        "the first piece once more, from an old offset: ",
        answer,
    )?;
    let Step { answer, session } = session.piece(body(third), &text[third..]);
    if answer.is_err() {
        return Ok(answer);
    }
    Ok(session.close(EDITION, tag).answer)
}

// Prints what was called, and the number of its answer.
fn tell(rt: &impl Print, call: &str, answer: Result<(), Refusal>) -> io::Result<()> {
    println!(rt; "{call}{}", number(answer))
}

fn main(rt: HostRuntime) -> io::Result<()> {
    let mut text = [0u8; 14];
    let mut tag = [0u8; 32];
    let sealed = seal(&mut text, &mut tag);
    tell(&rt, "sealing: ", sealed)?;
    if sealed.is_err() {
        return Ok(());
    }
    let checked = check(&rt, &text, &tag)?;
    tell(&rt, "checking: ", checked)?;
    if checked.is_err() {
        return Ok(());
    }
    rt.println("the job is good")
}
