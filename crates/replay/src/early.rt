// A third day: a long job is served segment by segment, and the retry brings the end of another revision.
use crate::job::{HALF, KEY, NEW, NOTE, OLD, second_half, terms};
use crate::told::{Answered, OnOneLine};
use crate::tool::Tool;
use places::terms::Edition;
use rules::SEGMENT;
use rules::w64::TAG;
use segments::at;
use std::io;

// The line of which the first segment is made.
const LINE: [u8; 15] = *b"G1 X80.0 Z-4.0\n";

// The nonce of a job; each segment has its own, which is that and eight bytes more.
const OLD_NONCE: [u8; 24] = *b"job nonce of revision 11";

const NONCE: [u8; 24] = *b"job nonce of revision 12";

// Bytes of a first segment as it is sealed, and of a last one.
pub(crate) const SEALED: usize = SEGMENT + TAG;

const SEALED_HALF: usize = HALF + TAG;

// What is in the first segment; the segments of 7/12, and the last of 7/11 under its own nonce and under that of 7/12.
#[derive(Drop)]
pub(crate) struct Segments<'a> {
    body: &'a [u8],
    first: &'a [u8],
    last: [u8; SEALED_HALF],
    old: [u8; SEALED_HALF],
    old_again: [u8; SEALED_HALF],
}

pub(crate) fn show_job(rt: &impl Print) -> io::Result<()> {
    rt.print(
        "\nA third day. 7/12 has 65560 bytes now, and the tool is not to wait for all of them:\n\
         the job goes in segments of 65536 bytes, each sealed by itself, and the tool is\n\
         served a segment as soon as its tag was right. What each revision ends in:\n",
    )?;
    println!(rt; "  7/11: {}", OnOneLine(second_half(&OLD.body)))?;
    println!(rt; "  7/12: {}", OnOneLine(second_half(&NEW.body)))?;
    rt.print(
        "The office seals them, and the end of 7/11 also under the nonce of 7/12, as it never\n\
         should:\n",
    )
}

// Body and first are rooms that are lent.
pub(crate) fn seal_all<'a>(
    rt: &impl Print,
    body: &'a mut [u8; SEGMENT],
    first: &'a mut [u8; SEALED],
) -> io::Result<Segments<'a>> {
    let mut last = [0; SEALED_HALF];
    let mut old = [0; SEALED_HALF];
    let mut old_again = [0; SEALED_HALF];
    for (i, b) in body.iter_mut().enumerate() {
        *b = LINE[i % 15];
    }
    let (new_half, old_half) = (second_half(&NEW.body), second_half(&OLD.body));
    seal(rt, NEW.edition, &NONCE, 0, body, first, "7/12, segment 0")?;
    seal(
        rt,
        NEW.edition,
        &NONCE,
        1,
        new_half,
        &mut last,
        "7/12, segment 1, the last",
    )?;
    seal(
        rt,
        OLD.edition,
        &OLD_NONCE,
        1,
        old_half,
        &mut old,
        "7/11, segment 1, the last, under its own nonce",
    )?;
    seal(
        rt,
        OLD.edition,
        &NONCE,
        1,
        old_half,
        &mut old_again,
        "7/11, segment 1, the last, under that of 7/12",
    )?;
    Ok(Segments {
        body,
        first,
        last,
        old,
        old_again,
    })
}

// Seals a segment, of which the second is the last.
fn seal(
    rt: &impl Print,
    edition: Edition,
    nonce: &[u8],
    index: u64,
    body: &[u8],
    out: &mut [u8],
    name: &str,
) -> io::Result<()> {
    let sealed = at::seal::<u64>(
        &KEY,
        nonce,
        terms(edition),
        &NOTE,
        index,
        index == 1,
        body,
        out,
    );
    println!(rt; "  {name} -> {}", Answered(sealed.answer))
}

pub(crate) fn serve(rt: &impl Print, s: &Segments) -> io::Result<()> {
    rt.println("The tool begins while the rest is being fetched:")?;
    let mut tool = Tool::start(rt, &NONCE, NEW.edition)?;
    tool.take(rt, false, s.first, Some(s.body), "first of 12")?;
    old_segments(rt, &mut tool, s)?;
    own_segments(rt, &mut tool, s)?;
    conclude(rt, &tool)
}

// The end of the other revision is refused, and nothing of it is served.
fn old_segments(rt: &impl Print, tool: &mut Tool, s: &Segments) -> io::Result<()> {
    rt.println("The fetch times out, and the retry brings the old revision, under either nonce:")?;
    tool.take(rt, true, &s.old, None, "second of 11")?;
    tool.take(rt, true, &s.old_again, None, "second of 11")
}

// So is all that is of the job itself and not the segment that it waits for.
fn own_segments(rt: &impl Print, tool: &mut Tool, s: &Segments) -> io::Result<()> {
    let due = second_half(&NEW.body);
    rt.println("Then the segment that the tool has already, and the second not called the last:")?;
    tool.take(rt, false, s.first, None, "first of 12")?;
    tool.take(rt, false, &s.last, None, "second of 12")?;
    tool.say_waiting(rt)?;
    tool.take(rt, true, &s.last, Some(due), "second of 12")?;
    tool.take(rt, true, &s.last, None, "second of 12")
}

// What was shown, if the tool was served as it must.
fn conclude(rt: &impl Print, tool: &Tool) -> io::Result<()> {
    if tool.is_right() {
        rt.print(
            "\nShown: the tool has all of 7/12, the first segment early, and the end of another\n\
             revision is refused before a byte of it is served.\n",
        )
    } else {
        rt.print("\nNot shown: a segment above was not served as it must.\n")
    }
}
