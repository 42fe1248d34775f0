// How many times P runs in one call, by the lengths of its parts.
ghost use Rattle.std.specs.Prelude.{◌≡◌, ◌<◌, ◌+◌, ◌≤◌};
ghost use Rattle.norx.specs.Runs.{part_runs};
ghost use Rattle.rules.specs.Rules.{longest_body};
ghost use Rattle.rules.specs.Runs.{runs_within};

use super::word::{Word, rate};
use rules::calls::within;

// Where P runs, whatever the lengths: once at the start, and twice for the tag.
const START_AND_TAG: u32 = 3;

// In a part of n bytes, in blocks of so many as the rate: not at all where it is empty.
fn part_runs(rate: usize, n: usize) -> u32
    requires { (0 < rate) × (n ≤ longest_body) }
    ensures number { result ≡ part_runs rate n }
    ensures small { result ≤ longest_body + 1 }
{
    if n == 0 { 0 } else { (n / rate + 1) as u32 }
}

// In a whole call; 0 where a part is over its limit.
pub fn runs<W: Word>(header: usize, body: usize, trailer: usize) -> u32
    ensures { result ≡ runs_within W.width header body trailer }
{
    if !within(header, body, trailer) {
        return 0;
    }
    let r = rate::<W>();
    START_AND_TAG + part_runs(r, header) + part_runs(r, body) + part_runs(r, trailer)
}
