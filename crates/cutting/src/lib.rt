// How a job is cut into segments, which length a segment has, and where a receiver waits: all by numbers.
#![tactic(auto)]

ghost use Rattle.std.specs.Prelude.{◌≡◌, ◌%◌, Ok};
ghost use Rattle.norx.specs.Front.{eight_bytes};
ghost use Rattle.cutting.specs.Cutting.{count_of, begin_of, end_of, segment_ok, sealed_ok, segment_number, take_links};

use answers::{Refusal, need};
use rules::{MOST_SEGMENTS, SEGMENT, SEGMENT_NUMBER};

// Which segment a receiver waits for, and whether it has taken the last one.
#[derive(Clone, Copy, Default)]
pub struct Waiting {
    pub index: u64,
    pub complete: bool,
}

// How many segments a body of n bytes has; an empty one has one.
#[tactic(auto, unfolding(crate::specs::Cutting::count_of))]
pub fn count(n: u64) -> u64
    ensures { result ≡ count_of n }
{
    n.saturating_sub(1) / SEGMENT as u64 + 1
}

// Where segment i of a body of n bytes begins; at its end, where it has no such segment.
#[tactic(auto, unfolding(crate::specs::Cutting::begin_of))]
pub fn begin(n: u64, i: u64) -> u64
    ensures { result ≡ begin_of n i }
{
    i.saturating_mul(SEGMENT as u64).min(n)
}

// Where segment i of a body of n bytes ends.
#[tactic(auto, unfolding(crate::specs::Cutting::end_of, crate::specs::Cutting::begin_of))]
pub fn end(n: u64, i: u64) -> u64
    ensures { result ≡ end_of n i }
{
    begin(n, i.saturating_add(1))
}

// Whether segment i, the last or not, may have n bytes.
#[tactic(auto, unfolding(crate::specs::Cutting::segment_ok))]
pub fn segment_ok(i: u64, last: bool, n: usize) -> bool
    ensures { result ≡ segment_ok i last n }
{
    if last {
        (n <= SEGMENT) & ((0 < n) | (i == 0)) & (i < MOST_SEGMENTS)
    } else {
        (n == SEGMENT) & (i < MOST_SEGMENTS - 1)
    }
}

// The same of a sealed segment of n bytes, the last of which are its tag.
#[tactic(auto, unfolding(crate::specs::Cutting::sealed_ok))]
fn sealed_ok(i: u64, last: bool, tag: usize, n: usize) -> bool
    ensures { result ≡ sealed_ok i last tag n }
{
    n.checked_sub(tag)
        .is_some_and(|body| segment_ok(i, last, body))
}

// The number in a segment's nonce, as its eight bytes, least first: twice the index, plus 1 if it is the last.
pub fn number(i: u64, last: bool) -> [u8; SEGMENT_NUMBER]
    ensures { result ≡ eight_bytes (segment_number i last) }
{
    number_word(i, last).to_le_bytes()
}

// The same as a word; of a number over 64 bits, the last 64.
#[tactic(auto, unfolding(crate::specs::Cutting::segment_number))]
fn number_word(i: u64, last: bool) -> u64
    ensures { result ≡ segment_number i last % 18446744073709551616 }
{
    i.wrapping_mul(2).wrapping_add(u64::from(last))
}

// What a receiver that waits so answers a sealed segment of n bytes, whatever else is wrong with it: 14, 13, else 0.
#[tactic(auto, unfolding(crate::specs::Cutting::take_links, answers::specs::Answers::need_of))]
pub fn take_links(waiting: Waiting, last: bool, tag: usize, n: usize) -> Result<(), Refusal>
    ensures { result ≡ take_links waiting last tag n (Ok tt) }
{
    need(!waiting.complete, Refusal::AfterLast)?;
    need(
        sealed_ok(waiting.index, last, tag, n),
        Refusal::SegmentLength,
    )
}
