// Sealing and opening in one call, at a width.
ghost use Rattle.std.specs.Prelude.{◌≡◌};
ghost use Rattle.norx.specs.Norx.{tag_bits, header_mark, after_part, start as norx_start};
ghost use Rattle.answers.specs.Answers.{number_of};
ghost use Rattle.rules.specs.Rules.{rounds_of};
ghost use Rattle.rules.specs.OneCall.{seal_answer, seal_out, open_answer, open_out};
ghost use Rattle.rules.specs.Runs.{seal_runs, open_runs};
ghost use Rattle.sealing.specs.Promises.{Seals, Opens};

use crate::body;
use answers::{Outcome, Refusal, reported};
use blocks::ends::{row, start};
use rules::HEADER_MARK;
use rules::calls::{open_checks, seal_checks};
use sponge::parts::absorb;
use words::runs::runs;
use words::state::{Row, State};
use words::word::{Word, row_bytes};

// The state where the body begins.
#[inline(always)]
fn before_body<W: Word>(rounds: u32, key: Row<W>, nonce: Row<W>, header: &[u8]) -> State<W>
    ensures { result ≡ after_part W.width (rounds_of W.width rounds) header_mark (norx_start W.width (rounds_of W.width rounds) (tag_bits W.width) key nonce) header.now }
{
    absorb(start(rounds, key, nonce), rounds, HEADER_MARK, header)
}

// Seals where the numbers refuse nothing, and else changes nothing.
#[tactic(auto, using(norx::proofs::Widths::tag_is_row), unfolding(rules::specs::OneCall::seal_answer, rules::specs::OneCall::seal_out))]
fn try_seal<W: Word>(
    rounds: u32,
    key: &[u8],
    nonce: &[u8],
    header: &[u8],
    body: &[u8],
    trailer: &[u8],
    out: &mut [u8],
) -> Result<(), Refusal>
    ensures answer { result ≡ seal_answer W.width rounds key.now nonce.now header.now body.now trailer.now out.old }
    ensures output { out.new ≡ seal_out W.width rounds key.now nonce.now header.now body.now trailer.now out.old }
{
    let n = row_bytes::<W>();
    seal_checks(
        n,
        n,
        rounds,
        key.len(),
        nonce.len(),
        header.len(),
        body.len(),
        trailer.len(),
        out.len(),
    )?;
    let k = row::<W>(key);
    let s = before_body(rounds, k, row(nonce), header);
    body::seal(s, rounds, k, body, trailer, out);
    Ok(())
}

// Seals a body: ciphertext and tag are written to the output, which is as long as both.
pub fn seal<W: Word>(
    rounds: u32,
    key: &[u8],
    nonce: &[u8],
    header: &[u8],
    body: &[u8],
    trailer: &[u8],
    out: &mut [u8],
) -> Outcome
    ensures answer { result.answer ≡ seal_answer W.width rounds key.now nonce.now header.now body.now trailer.now out.old }
    ensures runs { result.runs ≡ seal_runs W.width rounds key.now nonce.now header.now body.now trailer.now out.old }
    ensures output { out.new ≡ seal_out W.width rounds key.now nonce.now header.now body.now trailer.now out.old }
    ensures promise { Seals W.width rounds key.now nonce.now header.now body.now trailer.now out.old (number_of result.answer) result.runs out.new }
{
    let n = runs::<W>(header.len(), body.len(), trailer.len());
    let answer = try_seal::<W>(rounds, key, nonce, header, body, trailer, out);
    reported(answer, n)
}

// Opens where the numbers refuse nothing, by its tag; and else changes nothing.
#[tactic(auto, using(norx::proofs::Widths::tag_is_row), unfolding(rules::specs::OneCall::open_answer, rules::specs::OneCall::open_out))]
fn try_open<W: Word>(
    rounds: u32,
    key: &[u8],
    nonce: &[u8],
    header: &[u8],
    sealed: &[u8],
    trailer: &[u8],
    out: &mut [u8],
) -> Result<(), Refusal>
    ensures answer { result ≡ open_answer W.width rounds key.now nonce.now header.now sealed.now trailer.now out.old }
    ensures output { out.new ≡ open_out W.width rounds key.now nonce.now header.now sealed.now trailer.now out.old }
{
    let n = row_bytes::<W>();
    open_checks(
        n,
        n,
        rounds,
        key.len(),
        nonce.len(),
        header.len(),
        sealed.len(),
        trailer.len(),
        out.len(),
    )?;
    let k = row::<W>(key);
    let s = before_body(rounds, k, row(nonce), header);
    body::open(s, rounds, k, sealed, trailer, out)
}

// Opens a sealed text: its message is written to the output, which is as long as the text less its tag; zeros where the tag differs.
pub fn open<W: Word>(
    rounds: u32,
    key: &[u8],
    nonce: &[u8],
    header: &[u8],
    sealed: &[u8],
    trailer: &[u8],
    out: &mut [u8],
) -> Outcome
    ensures answer { result.answer ≡ open_answer W.width rounds key.now nonce.now header.now sealed.now trailer.now out.old }
    ensures runs { result.runs ≡ open_runs W.width rounds key.now nonce.now header.now sealed.now trailer.now out.old }
    ensures output { out.new ≡ open_out W.width rounds key.now nonce.now header.now sealed.now trailer.now out.old }
    ensures promise { Opens W.width rounds key.now nonce.now header.now sealed.now trailer.now out.old (number_of result.answer) result.runs out.new }
{
    let n = runs::<W>(header.len(), out.len(), trailer.len());
    let answer = try_open::<W>(rounds, key, nonce, header, sealed, trailer, out);
    reported(answer, n)
}
