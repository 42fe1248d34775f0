// The story: a lost connection, the retries, and the job of two revisions that the old seal let through.
use crate::gateway::Gateway;
use crate::job::{HALF, NEW, NOTE, OLD, TRAILER, first_half, label, second_half};
use crate::office::Sealed;
use crate::old_seal::{checksum, look};
use crate::told::OnOneLine;
use places::Part;
use std::io;

pub(crate) fn show_job(rt: &impl Print) -> io::Result<()> {
    rt.print(
        "Tool 4 ran the first half of revision 11 and the second half of revision 12,\n\
         and the seal of that day said good. The same day with NORX 3.0 sessions, at\n\
         64-bit words and 4 rounds:\n\n\
         The job; / ends a line, and 7/12 is revision 12 of job 7, which cuts less deep (Z)\n\
         and faster (F) than 7/11.\n",
    )?;
    println!(rt; "  7/11: {}", OnOneLine(&OLD.body))?;
    println!(rt; "  7/12: {}", OnOneLine(&NEW.body))?;
    rt.println("The office seals both, each under its own nonce. The answer 0 is done.")
}

pub(crate) fn first_fetch(rt: &impl Print, old: &Sealed) -> io::Result<()> {
    let eleven = OLD.edition;
    let old_first = first_half(&old.text);
    rt.print(
        "\nThe gateway fetches 7/11. A piece has job and revision, a part, an offset and bytes.\n",
    )?;
    let mut s = Gateway::start(rt, &OLD.nonce, eleven)?;
    s.piece(rt, label(eleven, Part::Note, 0), &NOTE, "the note")?;
    s.piece(
        rt,
        label(eleven, Part::Body, 0),
        old_first,
        "first half of 11",
    )?;
    rt.println("The connection is lost, and the floor publishes 7/12. A new session:")
}

// The retries are refused, and the honest revision 12 goes on; whether it passes.
pub(crate) fn second_fetch(rt: &impl Print, old: &Sealed, new: &Sealed) -> io::Result<bool> {
    let twelve = NEW.edition;
    let note = label(twelve, Part::Note, 0);
    let half = label(twelve, Part::Body, HALF);
    let second = second_half(&new.text);
    let mut s = Gateway::start(rt, &NEW.nonce, twelve)?;
    s.piece(rt, note, &NOTE, "the note")?;
    rt.println("The retry under the old revision, then from the old offset:")?;
    let old_half = label(OLD.edition, Part::Body, HALF);
    s.piece(rt, old_half, second_half(&old.text), "second half of 11")?;
    s.piece(rt, half, second, "second half of 12")?;
    rt.println("The fetch begins anew, and a note piece comes late:")?;
    let start = label(twelve, Part::Body, 0);
    s.piece(rt, start, first_half(&new.text), "first half of 12")?;
    s.piece(rt, note, &NOTE, "the note")?;
    rt.print("Accepted so far, and nothing of what was refused: ")?;
    s.say_accepted(rt)?;
    s.piece(rt, half, second, "second half of 12")?;
    s.piece(rt, label(twelve, Part::Trailer, 0), &TRAILER, "the trailer")?;
    s.close(rt, twelve, &new.tag, "the tag of 12")
}

// The old seal says good to both halves of the mixed job.
pub(crate) fn look_at_pieces(rt: &impl Print) -> io::Result<()> {
    let first = first_half(&OLD.body);
    let second = second_half(&NEW.body);
    rt.print("\nThe mixed job, as the tool ran it:\n  ")?;
    println!(rt; "{}{}", OnOneLine(first), OnOneLine(second))?;
    rt.println("The old seal, a checksum of each piece by itself:")?;
    look(rt, "first half of 11", first, checksum(first))?;
    look(rt, "second half of 12", second, checksum(second))
}

// The pieces of the mixed job are accepted, since each says that it is of revision 12, and the close refuses the job; whether it passes.
pub(crate) fn mixed(rt: &impl Print, old: &Sealed, new: &Sealed) -> io::Result<bool> {
    let twelve = NEW.edition;
    let half = label(twelve, Part::Body, HALF);
    let second = second_half(&new.text);
    rt.println("A session for 7/12, where each piece says that it is of 7/12:")?;
    let mut s = Gateway::start(rt, &NEW.nonce, twelve)?;
    s.piece(rt, label(twelve, Part::Note, 0), &NOTE, "the note")?;
    let start = label(twelve, Part::Body, 0);
    s.piece(rt, start, first_half(&old.text), "first half of 11")?;
    s.piece(rt, half, second, "second half of 12")?;
    s.piece(rt, label(twelve, Part::Trailer, 0), &TRAILER, "the trailer")?;
    let mut copy = s;
    let with_new = s.close(rt, twelve, &new.tag, "the tag of 12")?;
    rt.println("A copy of it from before the close, with the other tag, and one piece more:")?;
    let with_old = copy.close(rt, twelve, &old.tag, "the tag of 11")?;
    copy.piece(rt, half, second, "second half of 12")?;
    Ok(with_new || with_old)
}

// What was shown, if the two jobs fared as they must.
pub(crate) fn conclude(rt: &impl Print, honest_passed: bool, mixed_passed: bool) -> io::Result<()> {
    if honest_passed && !mixed_passed {
        rt.print(
            "\nShown: refused retries change nothing, and the honest job passes; a job of\n\
             two revisions is refused at the close, even where each piece looks right.\n",
        )
    } else {
        rt.print("\nNot shown: a close above has not answered as it must.\n")
    }
}
