// Sealing and opening in one call: at each width, and at a width that is given as a number.
#![tactic(auto)]

ghost use Rattle.std.specs.Prelude.{◌≡◌};
ghost use Rattle.answers.specs.Answers.{number_of};
ghost use Rattle.sealing.specs.Widths.{seal_answer_at, seal_runs_at, seal_out_at, open_answer_at, open_runs_at, open_out_at};
ghost use Rattle.sealing.specs.Promises.{SealsAt, OpensAt};

use answers::{Outcome, Refusal};

pub mod at;
pub mod body;

// Seals a body at the width given as a number; 11, and nothing changed, where the number is not 32 or 64.
#[tactic(auto, unfolding(crate::specs::Widths::width_of, crate::specs::Widths::seal_answer_at, crate::specs::Widths::seal_runs_at, crate::specs::Widths::seal_out_at))]
pub fn seal(
    width: u32,
    rounds: u32,
    key: &[u8],
    nonce: &[u8],
    header: &[u8],
    body: &[u8],
    trailer: &[u8],
    out: &mut [u8],
) -> Outcome
    ensures answer { result.answer ≡ seal_answer_at width rounds key.now nonce.now header.now body.now trailer.now out.old }
    ensures runs { result.runs ≡ seal_runs_at width rounds key.now nonce.now header.now body.now trailer.now out.old }
    ensures output { out.new ≡ seal_out_at width rounds key.now nonce.now header.now body.now trailer.now out.old }
    ensures promise { SealsAt width rounds key.now nonce.now header.now body.now trailer.now out.old (number_of result.answer) result.runs out.new }
{
    match width {
        32 => at::seal::<u32>(rounds, key, nonce, header, body, trailer, out),
        64 => at::seal::<u64>(rounds, key, nonce, header, body, trailer, out),
        _ => Outcome {
            answer: Err(Refusal::WidthNumber),
            runs: 0,
        },
    }
}

// Opens a sealed text at the width given as a number; 11, and nothing changed, where the number is not 32 or 64.
#[tactic(auto, unfolding(crate::specs::Widths::width_of, crate::specs::Widths::open_answer_at, crate::specs::Widths::open_runs_at, crate::specs::Widths::open_out_at))]
pub fn open(
    width: u32,
    rounds: u32,
    key: &[u8],
    nonce: &[u8],
    header: &[u8],
    sealed: &[u8],
    trailer: &[u8],
    out: &mut [u8],
) -> Outcome
    ensures answer { result.answer ≡ open_answer_at width rounds key.now nonce.now header.now sealed.now trailer.now out.old }
    ensures runs { result.runs ≡ open_runs_at width rounds key.now nonce.now header.now sealed.now trailer.now out.old }
    ensures output { out.new ≡ open_out_at width rounds key.now nonce.now header.now sealed.now trailer.now out.old }
    ensures promise { OpensAt width rounds key.now nonce.now header.now sealed.now trailer.now out.old (number_of result.answer) result.runs out.new }
{
    match width {
        32 => at::open::<u32>(rounds, key, nonce, header, sealed, trailer, out),
        64 => at::open::<u64>(rounds, key, nonce, header, sealed, trailer, out),
        _ => Outcome {
            answer: Err(Refusal::WidthNumber),
            runs: 0,
        },
    }
}
