// Segments of a job, each sealed by itself: sealed and opened at each width, and at a width that is given as a number; and receivers, which take them in order.
#![tactic(auto)]

ghost use Rattle.std.specs.Prelude.{◌≡◌, ◌++◌, ◌+◌, ◌<◌, length};
ghost use Rattle.answers.specs.Answers.{number_of};
ghost use Rattle.rules.specs.Rules.{most_segments};
ghost use Rattle.cutting.specs.Cutting.{waiting_next};
ghost use Rattle.segments.specs.Segments.{segment_answer_at, segment_runs_at, segment_out_at, take_answer_at, take_runs_at, take_out_at};

use answers::{Outcome, Refusal};
use cutting::Waiting;
use places::terms::Terms;

pub mod at;
pub mod receiver;

// Lays one text behind the other into an output as long as both.
pub(crate) fn join(first: &[u8], second: &[u8], out: &mut [u8])
    requires { length out.old ≡ length first.now + length second.now }
    ensures { out.new ≡ first.now ++ second.now }
{
    let n = first.len();
    out[..n].copy_from_slice(first);
    out[n..].copy_from_slice(second);
}

// Where a receiver waits after an answer: for the next segment where that is 0, and complete where the one before it was the last.
#[tactic(auto, unfolding(cutting::specs::Cutting::waiting_next))]
pub(crate) fn next(waiting: Waiting, answer: Result<(), Refusal>, last: bool) -> Waiting
    requires { number_of answer ≡ 0 → waiting.index < most_segments }
    ensures { result ≡ waiting_next waiting answer last }
{
    match answer {
        Ok(()) => Waiting {
            index: waiting.index + 1,
            complete: last,
        },
        Err(_) => waiting,
    }
}

// Seals a segment at the width given as a number; 11, and nothing changed, where the number is not 32 or 64.
#[tactic(auto, unfolding(sealing::specs::Widths::width_of, crate::specs::Segments::segment_answer_at, crate::specs::Segments::segment_runs_at, crate::specs::Segments::segment_out_at))]
pub fn seal(
    width: u32,
    key: &[u8],
    nonce: &[u8],
    terms: Terms,
    note: &[u8],
    index: u64,
    last: bool,
    body: &[u8],
    out: &mut [u8],
) -> Outcome
    ensures answer { result.answer ≡ segment_answer_at width key.now nonce.now terms note.now index last body.now out.old }
    ensures runs { result.runs ≡ segment_runs_at width key.now nonce.now terms note.now index last body.now out.old }
    ensures output { out.new ≡ segment_out_at width key.now nonce.now terms note.now index last body.now out.old }
{
    match width {
        32 => at::seal::<u32>(key, nonce, terms, note, index, last, body, out),
        64 => at::seal::<u64>(key, nonce, terms, note, index, last, body, out),
        _ => Outcome {
            answer: Err(Refusal::WidthNumber),
            runs: 0,
        },
    }
}

// Opens the segment that a receiver waits for, at the width given as a number; 11, and nothing changed, where the number is not 32 or 64.
#[tactic(auto, unfolding(sealing::specs::Widths::width_of, crate::specs::Segments::take_answer_at, crate::specs::Segments::take_runs_at, crate::specs::Segments::take_out_at))]
pub fn open(
    width: u32,
    key: &[u8],
    nonce: &[u8],
    terms: Terms,
    note: &[u8],
    waiting: Waiting,
    last: bool,
    sealed: &[u8],
    out: &mut [u8],
) -> Outcome
    ensures answer { result.answer ≡ take_answer_at width key.now nonce.now terms note.now waiting last sealed.now out.old }
    ensures runs { result.runs ≡ take_runs_at width key.now nonce.now terms note.now waiting last sealed.now out.old }
    ensures output { out.new ≡ take_out_at width key.now nonce.now terms note.now waiting last sealed.now out.old }
{
    match width {
        32 => at::open::<u32>(key, nonce, terms, note, waiting, last, sealed, out),
        64 => at::open::<u64>(key, nonce, terms, note, waiting, last, sealed, out),
        _ => Outcome {
            answer: Err(Refusal::WidthNumber),
            runs: 0,
        },
    }
}
