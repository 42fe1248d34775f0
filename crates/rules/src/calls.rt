// The answers that the numbers of one call decide, in their order. Every number but the rounds is a length in bytes.
ghost use Rattle.std.specs.Prelude.{◌≡◌, ◌+◌, ◌-◌, eqb};
ghost use Rattle.rules.specs.Rules.{within as within_of};
ghost use Rattle.rules.specs.Calls.{seal_checks, open_checks};

use super::{LONGEST_BODY, LONGEST_HEADER, LONGEST_TRAILER, lengths_ok, rounds_ok};
use answers::{Refusal, need};

// Whether no part passes its limit.
pub fn within(header: usize, body: usize, trailer: usize) -> bool
    ensures { result ≡ within_of header body trailer }
{
    (header <= LONGEST_HEADER) & (body <= LONGEST_BODY) & (trailer <= LONGEST_TRAILER)
}

// What the numbers of a sealing are answered: 2, 1, 4, 5, else 0. row is the length of a key and of a nonce, tag that of a tag.
#[tactic(auto, unfolding(crate::specs::Calls::seal_checks, answers::specs::Answers::need_of))]
pub fn seal_checks(
    row: usize,
    tag: usize,
    rounds: u32,
    key: usize,
    nonce: usize,
    header: usize,
    body: usize,
    trailer: usize,
    out: usize,
) -> Result<(), Refusal>
    ensures { result ≡ seal_checks row tag rounds key nonce header body trailer out }
{
    need(rounds_ok(rounds), Refusal::RoundsNumber)?;
    need(lengths_ok(row, key, nonce), Refusal::KeyLength)?;
    need(within(header, body, trailer), Refusal::OverLimit)?;
    need(body.checked_add(tag) == Some(out), Refusal::OutputLength)
}

// What the numbers of an opening are answered before its tag is looked at: 2, 1, 3, 4, 5, else 0.
#[tactic(auto, unfolding(crate::specs::Calls::open_checks, answers::specs::Answers::need_of))]
pub fn open_checks(
    row: usize,
    tag: usize,
    rounds: u32,
    key: usize,
    nonce: usize,
    header: usize,
    text: usize,
    trailer: usize,
    out: usize,
) -> Result<(), Refusal>
    ensures { result ≡ open_checks row tag rounds key nonce header text trailer out }
{
    let body = text.saturating_sub(tag);
    need(rounds_ok(rounds), Refusal::RoundsNumber)?;
    need(lengths_ok(row, key, nonce), Refusal::KeyLength)?;
    need(tag <= text, Refusal::TagLength)?;
    need(within(header, body, trailer), Refusal::OverLimit)?;
    need(out == body, Refusal::OutputLength)
}
