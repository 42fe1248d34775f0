// What a C host calls, through the crate jeczmilot_c: sealing and opening in one call, and segment by segment, and lists of segments as text, on numbers and byte slices.
#![tactic(auto)]

ghost use Rattle.std.specs.Prelude.{◌≡◌};
ghost use Rattle.answers.specs.Answers.{number_of};
ghost use Rattle.sealing.specs.Widths.{seal_answer_at, seal_runs_at, seal_out_at, open_answer_at, open_runs_at, open_out_at};
ghost use Rattle.sealing.specs.Promises.{SealsAt, OpensAt};
ghost use Rattle.segments.specs.Segments.{segment_answer_at, segment_runs_at, segment_out_at, take_answer_at, take_runs_at, take_out_at};
ghost use Rattle.lists.specs.Written.{list_length, write_answer, write_out};
ghost use Rattle.jeczmilot.specs.Numbers.{yes, terms_of, waiting_of, outcome_numbers};
ghost use Rattle.jeczmilot.specs.Readings.{ReadAsNumbers};

use answers::{Outcome, number};
use cutting::Waiting;
use places::terms::{Edition, Terms};

// The number of an answer, and how many times P ran.
#[repr(C)]
#[derive(Clone, Copy)]
pub struct OutcomeNumbers {
    pub answer: u32,
    pub runs: u32,
}

// An outcome, its answer turned into its number.
fn numbers(outcome: Outcome) -> OutcomeNumbers
    ensures { result ≡ outcome_numbers outcome }
{
    let answer = outcome.answer;
    OutcomeNumbers {
        answer: number(answer),
        runs: outcome.runs,
    }
}

// Seals a body at the width given as a number.
pub fn norx_seal(
    width: u32,
    rounds: u32,
    key: &[u8],
    nonce: &[u8],
    header: &[u8],
    body: &[u8],
    trailer: &[u8],
    out: &mut [u8],
) -> OutcomeNumbers
    ensures answer { result.answer ≡ number_of (seal_answer_at width rounds key.now nonce.now header.now body.now trailer.now out.old) }
    ensures runs { result.runs ≡ seal_runs_at width rounds key.now nonce.now header.now body.now trailer.now out.old }
    ensures output { out.new ≡ seal_out_at width rounds key.now nonce.now header.now body.now trailer.now out.old }
    ensures promise { SealsAt width rounds key.now nonce.now header.now body.now trailer.now out.old result.answer result.runs out.new }
{
    numbers(sealing::seal(width, rounds, key, nonce, header, body, trailer, out))
}

// Opens a sealed text at the width given as a number.
pub fn norx_open(
    width: u32,
    rounds: u32,
    key: &[u8],
    nonce: &[u8],
    header: &[u8],
    sealed: &[u8],
    trailer: &[u8],
    out: &mut [u8],
) -> OutcomeNumbers
    ensures answer { result.answer ≡ number_of (open_answer_at width rounds key.now nonce.now header.now sealed.now trailer.now out.old) }
    ensures runs { result.runs ≡ open_runs_at width rounds key.now nonce.now header.now sealed.now trailer.now out.old }
    ensures output { out.new ≡ open_out_at width rounds key.now nonce.now header.now sealed.now trailer.now out.old }
    ensures promise { OpensAt width rounds key.now nonce.now header.now sealed.now trailer.now out.old result.answer result.runs out.new }
{
    numbers(sealing::open(width, rounds, key, nonce, header, sealed, trailer, out))
}

// Rounds, job and revision put together.
fn terms(rounds: u32, job: u64, revision: u64) -> Terms
    ensures { result ≡ terms_of rounds job revision }
{
    let edition = Edition { job, revision };
    Terms { rounds, edition }
}

// Index and completeness put together; of complete, 0 is no and every other number yes.
fn waiting(index: u64, complete: u32) -> Waiting
    ensures { result ≡ waiting_of index complete }
{
    Waiting {
        index,
        complete: complete != 0,
    }
}

// Seals a segment of a job at the width given as a number; of last, 0 is no and every other number yes.
pub fn norx_segment_seal(
    width: u32,
    rounds: u32,
    key: &[u8],
    nonce: &[u8],
    job: u64,
    revision: u64,
    note: &[u8],
    index: u64,
    last: u32,
    body: &[u8],
    out: &mut [u8],
) -> OutcomeNumbers
    ensures answer { result.answer ≡ number_of (segment_answer_at width key.now nonce.now (terms_of rounds job revision) note.now index (yes last) body.now out.old) }
    ensures runs { result.runs ≡ segment_runs_at width key.now nonce.now (terms_of rounds job revision) note.now index (yes last) body.now out.old }
    ensures output { out.new ≡ segment_out_at width key.now nonce.now (terms_of rounds job revision) note.now index (yes last) body.now out.old }
{
    let terms = terms(rounds, job, revision);
    numbers(segments::seal(width, key, nonce, terms, note, index, last != 0, body, out))
}

// Opens the segment of a job that is awaited, at the width given as a number; of complete and last, 0 is no and every other number yes.
pub fn norx_segment_open(
    width: u32,
    rounds: u32,
    key: &[u8],
    nonce: &[u8],
    job: u64,
    revision: u64,
    note: &[u8],
    index: u64,
    complete: u32,
    last: u32,
    sealed: &[u8],
    out: &mut [u8],
) -> OutcomeNumbers
    ensures answer { result.answer ≡ number_of (take_answer_at width key.now nonce.now (terms_of rounds job revision) note.now (waiting_of index complete) (yes last) sealed.now out.old) }
    ensures runs { result.runs ≡ take_runs_at width key.now nonce.now (terms_of rounds job revision) note.now (waiting_of index complete) (yes last) sealed.now out.old }
    ensures output { out.new ≡ take_out_at width key.now nonce.now (terms_of rounds job revision) note.now (waiting_of index complete) (yes last) sealed.now out.old }
{
    let terms = terms(rounds, job, revision);
    let waiting = waiting(index, complete);
    numbers(segments::open(
        width,
        key,
        nonce,
        terms,
        note,
        waiting,
        last != 0,
        sealed,
        out,
    ))
}

// What a text is read as: the number of its first bad line and four zeros; or 0 and the job, the revision, the segments and the body length of the list that it is.
#[repr(C)]
#[derive(Clone, Copy)]
pub struct ListNumbers {
    pub bad: u64,
    pub job: u64,
    pub revision: u64,
    pub segments: u64,
    pub length: u64,
}

// How long the list of a body of so many bytes is; 0 where it has none.
pub fn norx_list_length(job: u64, revision: u64, body: u64) -> usize
    ensures { result ≡ list_length job revision body }
{
    lists::list_length(job, revision, body)
}

// Writes the list of a body of so many bytes; the answer is its number.
pub fn norx_list_write(job: u64, revision: u64, body: u64, out: &mut [u8]) -> u32
    ensures answer { result ≡ number_of (write_answer job revision body out.old) }
    ensures output { out.new ≡ write_out job revision body out.old }
{
    number(lists::write_list(job, revision, body, out))
}

// Reads a text as a list.
pub fn norx_list_read(text: &[u8]) -> ListNumbers
    ensures { ReadAsNumbers text.now result }
{
    match lists::read_list(text) {
        Ok(says) => ListNumbers {
            bad: 0,
            job: says.job,
            revision: says.revision,
            segments: says.segments,
            length: says.body,
        },
        Err(bad) => ListNumbers {
            bad: bad.line,
            job: 0,
            revision: 0,
            segments: 0,
            length: 0,
        },
    }
}
