// Another day: two customers both had a revision 3 under one key, as it was and as it is. Both jobs have one note and one trailer.
use crate::gateway::Gateway;
use crate::job::{Job, KEY, NOTE, ROUNDS, TRAILER, label};
use crate::office::Sealed;
use crate::told::{Answered, OnOneLine};
use places::Part;
use places::terms::Edition;
use std::io;

pub(crate) const SEVEN: Job = Job {
    edition: Edition {
        job: 7,
        revision: 3,
    },
    nonce: *b"the nonce of job 7's third, once",
    body: *b"T4 M6\nG1 Z-9.0 F100\nX80\nG1 Z-9.5 F100\nX0 Y0\nM30\n",
};

pub(crate) const EIGHT: Job = Job {
    edition: Edition {
        job: 8,
        revision: 3,
    },
    nonce: *b"the nonce of job 8's third, once",
    body: *b"T4 M6\nG1 Z-0.5 F600\nX80\nG1 Z-1.0 F600\nX0 Y0\nM30\n",
};

// The header of that day: the revision as eight bytes, and the note.
const OLD_HEADER: [u8; 26] = *b"\x03\0\0\0\0\0\0\0tool 4, two passes";

pub(crate) fn show_jobs(rt: &impl Print) -> io::Result<()> {
    rt.print(
        "\nAnother day. Two customers both had a revision 3 under one key, and job 7 cuts\n\
         far deeper than job 8.\n",
    )?;
    println!(rt; "  7/3: {}", OnOneLine(&SEVEN.body))?;
    println!(rt; "  8/3: {}", OnOneLine(&EIGHT.body))?;
    rt.print(
        "As it was, the header was the revision and the note, the same for both. The gateway\n\
         wants 8/3, and is brought the text of 7/3 with its nonce:\n",
    )
}

// Whether the text of job 7 passes for job 8, where the header has the revision alone.
pub(crate) fn as_it_was(rt: &impl Print) -> io::Result<bool> {
    let mut sealed = [0; 80];
    let mut ran = [0; 48];
    let Job { nonce, body, .. } = SEVEN;
    sealing::at::seal::<u64>(
        ROUNDS,
        &KEY,
        &nonce,
        &OLD_HEADER,
        &body,
        &TRAILER,
        &mut sealed,
    );
    let opened = sealing::at::open::<u64>(
        ROUNDS,
        &KEY,
        &nonce,
        &OLD_HEADER,
        &sealed,
        &TRAILER,
        &mut ran,
    );
    println!(rt;
        "  open it under the header of revision 3 -> {}",
        Answered(opened.answer)
    )?;
    println!(rt;
        "And so the tool would run, for job 8:\n  {}",
        OnOneLine(&ran)
    )?;
    rt.println("Now the header is job, revision and note, and the office seals both so:")?;
    Ok(opened.answer.is_ok())
}

// A session for job 8 is offered job 7 as what it is.
pub(crate) fn told_truly(rt: &impl Print, seven: &Sealed) -> io::Result<bool> {
    rt.println("A session for 8/3 under that nonce, where each piece says that it is of 7/3:")?;
    let said = SEVEN.edition;
    let mut s = Gateway::start(rt, &SEVEN.nonce, EIGHT.edition)?;
    s.piece(rt, label(said, Part::Note, 0), &NOTE, "the note")?;
    s.piece(
        rt,
        label(said, Part::Body, 0),
        &seven.text,
        "the text of 7/3",
    )?;
    s.close(rt, said, &seven.tag, "the tag of 7/3")
}

// The same where each piece, and the close, says that it is of the session's own edition.
pub(crate) fn told_falsely(rt: &impl Print, seven: &Sealed) -> io::Result<bool> {
    rt.println("The same, where each piece lies and says that it is of 8/3:")?;
    whole(rt, seven, "the text of 7/3", "the tag of 7/3")
}

pub(crate) fn honest(rt: &impl Print, eight: &Sealed) -> io::Result<bool> {
    rt.println("The text of 8/3 itself, under its own nonce:")?;
    whole(rt, eight, "the text of 8/3", "the tag of 8/3")
}

// Offers a whole job to a session for job 8; whether it passes.
fn whole(rt: &impl Print, sealed: &Sealed, of_text: &str, of_tag: &str) -> io::Result<bool> {
    let said = EIGHT.edition;
    let mut s = Gateway::start(rt, &sealed.job.nonce, said)?;
    s.piece(rt, label(said, Part::Note, 0), &NOTE, "the note")?;
    s.piece(rt, label(said, Part::Body, 0), &sealed.text, of_text)?;
    s.piece(rt, label(said, Part::Trailer, 0), &TRAILER, "the trailer")?;
    s.close(rt, said, &sealed.tag, of_tag)
}

// What was shown, if each text fared as it must.
pub(crate) fn conclude(
    rt: &impl Print,
    passed_then: bool,
    passes_now: bool,
    honest_passes: bool,
) -> io::Result<()> {
    if passed_then && !passes_now && honest_passes {
        rt.print(
            "\nShown: where the revision alone stood in front, another customer's job passed; now\n\
             it is refused, piece by piece or at the close, and the job that is meant passes.\n",
        )
    } else {
        rt.print("\nNot shown: a call above has not answered as it must.\n")
    }
}
