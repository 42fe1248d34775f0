// The office: it seals jobs.
use crate::job::{Job, KEY, NOTE, TRAILER, label, terms};
use crate::told::Named;
use answers::number;
use places::Part;
use places::terms::Edition;
use session::seal::Sealing;
use std::io;

// What a job is sealed to.
#[derive(Clone, Copy)]
pub(crate) struct Sealed {
    pub job: Job,
    pub text: [u8; 48],
    pub tag: [u8; 32],
}

// Seals a job, one piece for each part, and prints what the calls answer.
pub(crate) fn seal(rt: &impl Print, job: Job) -> io::Result<Sealed> {
    let mut text = [0; 48];
    let mut tag = [0; 32];
    let of = job.edition;
    let step = Sealing::<u64>::start(&KEY, &job.nonce, terms(of));
    print!(rt; "  {}: start {}", Named(of), number(step.answer))?;
    let s = piece(rt, step.session, ", note ", of, Part::Note, &NOTE, &mut [])?;
    let s = piece(rt, s, ", body ", of, Part::Body, &job.body, &mut text)?;
    let s = piece(rt, s, ", trailer ", of, Part::Trailer, &TRAILER, &mut [])?;
    println!(rt; ", close {}", number(s.close(of, &mut tag).answer))?;
    Ok(Sealed { job, text, tag })
}

fn piece(
    rt: &impl Print,
    s: Sealing<u64>,
    call: &str,
    edition: Edition,
    part: Part,
    bytes: &[u8],
    out: &mut [u8],
) -> io::Result<Sealing<u64>> {
    let step = s.piece(label(edition, part, 0), bytes, out);
    print!(rt; "{call}{}", number(step.answer))?;
    Ok(step.session)
}
