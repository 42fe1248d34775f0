// A list of segments as text: one segment a line, the fields job, revision, index and body length parted by tabs, each line ended by a newline.
#![tactic(auto)]

ghost use Rattle.std.specs.Prelude.{◌≡◌, ◌*◌, ◌≤◌, length};
ghost use Rattle.rules.specs.Rules.{most_segments};
ghost use Rattle.lists.specs.Lists.{segment_length, list_text};
ghost use Rattle.lists.specs.Pieces.{index_digits, lines_behind};
ghost use Rattle.lists.specs.Written.{list_length, write_answer, write_out};
ghost use Rattle.lists.specs.Readings.{ReadAs};

use answers::{Refusal, need};
use cutting::{begin, count, end};
use decimal::number_length;
use rules::{LONGEST_JOB, SEGMENT};

mod line;
mod put;

use line::{first_ok, line_at, segment_at};

// What a list says: its job and revision, how many segments there are, and the bytes of the body.
#[derive(Clone, Copy)]
pub struct Job {
    pub job: u64,
    pub revision: u64,
    pub segments: u64,
    pub body: u64,
}

// The first bad line of a text that is no list, counted from 1.
#[derive(Clone, Copy)]
pub struct BadLine {
    pub line: u64,
}

// The most bytes of a line's front: two numbers of twenty digits, and their tabs.
const LONGEST_FRONT: usize = 42;

// How many bytes segment i of a body has.
fn segment_length(body: u64, i: u64) -> u64
    ensures { result ≡ segment_length body i }
{
    end(body, i) - begin(body, i)
}

// The digits of 65536, the length of a full segment.
const FULL_DIGITS: usize = 5;

// How long the list of a body of so many bytes is; 0 where that is more than a job in segments can have.
pub fn list_length(job: u64, revision: u64, body: u64) -> usize
    ensures { result ≡ list_length job revision body }
{
    if LONGEST_JOB < body {
        return 0;
    }
    let lines = count(body);
    let full = lines - 1;
    let lengths = full as usize * FULL_DIGITS + number_length(segment_length(body, full));
    lines as usize * put::plain_length(job, revision) + index_digits(lines) + lengths
}

// How many digits the indices below n have together: one each, those from 10 on one more, and so on.
fn index_digits(n: u64) -> usize
    requires { n ≤ most_segments }
    ensures { (result ≡ index_digits n) × (result ≤ 20 * n) }
{
    let mut digits = n;
    let mut power = 10;
    while power < n {
        digits += n - power;
        power *= 10;
    }
    digits as usize
}

// Writes the list of a job: 4 where the body is too long, then 5 where the output has not the list's length.
#[tactic(auto, using(crate::proofs::Writing::the_length), unfolding(answers::specs::Answers::need_of, crate::specs::Written::write_answer, crate::specs::Written::write_out))]
pub fn write_list(job: u64, revision: u64, body: u64, out: &mut [u8]) -> Result<(), Refusal>
    ensures answer { result ≡ write_answer job revision body out.old }
    ensures output { out.new ≡ write_out job revision body out.old }
{
    need(body <= LONGEST_JOB, Refusal::OverLimit)?;
    need(
        out.len() == list_length(job, revision, body),
        Refusal::OutputLength,
    )?;
    write_lines(job, revision, body, out);
    Ok(())
}

// Writes every line over an output of the list's length.
fn write_lines(job: u64, revision: u64, body: u64, out: &mut [u8])
    requires { length out.old ≡ length (list_text job revision body) }
    ensures { out.new ≡ list_text job revision body }
{
    let mut front = [0; LONGEST_FRONT];
    let n = put::front(job, revision, &mut front);
    write_behind(&front[0..n], body, out);
}

// The same with the front that every line has.
fn write_behind(front: &[u8], body: u64, out: &mut [u8])
    requires { length out.old ≡ length (lines_behind front.now body) }
    ensures { out.new ≡ lines_behind front.now body }
{
    let mut at: usize = 0;
    for i in 0..count(body) {
        at = put::line(front, i, segment_length(body, i), &mut *out, at);
    }
}

// Reads a text as a list, in one pass: taken exactly where it is one that the writer can write.
pub fn read_list(text: &[u8]) -> Result<Job, BadLine>
    ensures { ReadAs text.now result }
{
    let Some(first) = line_at(text, 0) else {
        return Err(BadLine { line: 1 });
    };
    if !first_ok(first.index, first.body) {
        return Err(BadLine { line: 1 });
    }
    let front = put::front_length(first.job, first.revision);
    let mut at = first.next;
    let mut body = first.body;
    let mut lines: u64 = 1;
    while at < text.len() {
        let bad = BadLine { line: lines + 1 };
        if body != lines * SEGMENT as u64 {
            return Err(bad);
        }
        let Some((more, next)) = segment_at(text, at, front, lines) else {
            return Err(bad);
        };
        at = next;
        body += more;
        lines += 1;
    }
    Ok(Job {
        job: first.job,
        revision: first.revision,
        segments: lines,
        body,
    })
}
