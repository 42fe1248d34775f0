// Where a session of any kind and width stands, and what is answered by its numbers.
#![tactic(auto)]

ghost use Rattle.std.specs.Prelude.{◌≡◌, ◌+◌, ◌≤◌, leb, cond};
ghost use Rattle.places.specs.Places.{rank_of, limit_of, present_of, ends_of, count_of, fresh_place, closed_place, moved as moved_of, counts_within, unreached_of, sound_of, start_answer, piece_answer, close_answer, seal_exact};

use crate::terms::{Edition, Terms, of_edition, terms_ok};
use answers::{Refusal, need};
use rules::{LONGEST_BODY, LONGEST_NOTE, LONGEST_TRAILER, lengths_ok, rounds_ok};

pub mod front;
pub mod terms;

// The parts of a job, in their order.
#[derive(Clone, Copy)]
pub enum Part {
    Note,
    Body,
    Trailer,
}

// What a piece says of itself.
#[derive(Clone, Copy)]
pub struct Label {
    pub edition: Edition,
    pub part: Part,
    pub offset: usize,
}

// Whether a session takes pieces, and which part they have come to.
#[derive(Clone, Copy, Default)]
pub enum Standing {
    #[default]
    Closed,
    Open(Part),
}

// Where a session stands: all of it but its words and its key.
#[derive(Clone, Copy, Default)]
pub struct Place {
    pub standing: Standing,
    pub note: usize,
    pub body: usize,
    pub trailer: usize,
    pub terms: Terms,
}

// The place of a closed session: every number in it is zero.
pub fn closed_place() -> Place
    ensures { result ≡ closed_place }
{
    Place::default()
}

// Open in the note, with nothing of it yet.
pub fn fresh_place(terms: Terms) -> Place
    ensures { result ≡ fresh_place terms }
{
    Place {
        standing: Standing::Open(Part::Note),
        terms,
        ..Place::default()
    }
}

// The rank behind every part.
pub const BEHIND_ALL: u32 = 3;

// The order of the parts.
pub fn rank(part: Part) -> u32
    ensures { result ≡ rank_of part }
{
    part as u32
}

// The rank of the part that a session is open in; of a closed one, behind them all.
fn present(standing: Standing) -> u32
    ensures { result ≡ present_of standing }
{
    match standing {
        Standing::Closed => BEHIND_ALL,
        Standing::Open(part) => rank(part),
    }
}

// Whether a session that stands so ends a part where it goes on to the part of rank next: one from the present part on, and before that.
pub fn ends(part: Part, standing: Standing, next: u32) -> bool
    ensures { result ≡ ends_of part standing next }
{
    let rank = rank(part);
    (present(standing) <= rank) & (rank < next)
}

// The most bytes that a part may have.
fn limit(part: Part) -> usize
    ensures { result ≡ limit_of part }
{
    match part {
        Part::Note => LONGEST_NOTE,
        Part::Body => LONGEST_BODY,
        Part::Trailer => LONGEST_TRAILER,
    }
}

// The bytes of a part accepted so far.
fn count(p: Place, part: Part) -> usize
    ensures { result ≡ count_of p part }
{
    match part {
        Part::Note => p.note,
        Part::Body => p.body,
        Part::Trailer => p.trailer,
    }
}

// Whether no count passes its limit.
fn counts_within(p: Place) -> bool
    ensures { result ≡ counts_within p }
{
    (p.note <= LONGEST_NOTE) & (p.body <= LONGEST_BODY) & (p.trailer <= LONGEST_TRAILER)
}

// Whether the parts behind one have no bytes.
fn unreached(p: Place, part: Part) -> bool
    ensures { result ≡ unreached_of p part }
{
    match part {
        Part::Note => (p.body == 0) & (p.trailer == 0),
        Part::Body => p.trailer == 0,
        Part::Trailer => true,
    }
}

// Whether a session is open with numbers that calls could have led to.
#[tactic(auto, unfolding(crate::specs::Places::sound_of))]
fn sound(p: Place) -> bool
    ensures { result ≡ sound_of p }
{
    match p.standing {
        Standing::Closed => false,
        Standing::Open(part) => terms_ok(p.terms) & counts_within(p) & unreached(p, part),
    }
}

// Whether n bytes more stay within a limit, with no sum that could wrap.
fn fits(had: usize, n: usize, most: usize) -> bool
    ensures { result ≡ leb (had + n) most }
{
    had.checked_add(n).is_some_and(|sum| sum <= most)
}

// Whether the output of a sealing session has the exact length for a piece of n bytes.
pub fn exact(part: Part, n: usize, out: usize) -> bool
    ensures { result ≡ seal_exact part n out }
{
    match part {
        Part::Note => out == 0,
        Part::Body => out == n,
        Part::Trailer => out == 0,
    }
}

// The answer to a start: 2, 1, else 0. row is the length of a key and of a nonce.
#[tactic(auto, unfolding(crate::specs::Places::start_answer, answers::specs::Answers::need_of))]
pub fn start_answer(row: usize, terms: Terms, key: usize, nonce: usize) -> Result<(), Refusal>
    ensures { result ≡ start_answer row terms key nonce }
{
    need(rounds_ok(terms.rounds), Refusal::RoundsNumber)?;
    need(lengths_ok(row, key, nonce), Refusal::KeyLength)
}

// The answer to a piece of n bytes: 9, 12, 6, 7, 8, 4, 5, else 0.
#[tactic(auto, unfolding(crate::specs::Places::piece_answer, crate::specs::Terms::edition_link, answers::specs::Answers::need_of))]
pub fn piece_answer(p: Place, label: Label, n: usize, exact: bool) -> Result<(), Refusal>
    ensures { result ≡ piece_answer p label n exact }
{
    let part = label.part;
    let had = count(p, part);
    need(sound(p), Refusal::NotSound)?;
    of_edition(label.edition, p.terms.edition)?;
    need(present(p.standing) <= rank(part), Refusal::EarlierPart)?;
    need(label.offset == had, Refusal::OtherOffset)?;
    need(fits(had, n, limit(part)), Refusal::OverLimit)?;
    need(exact, Refusal::OutputLength)
}

// The answer to a close before the tag is looked at: 9, 12, 6, 4, 3, else 0. wanted is the length of a tag.
#[tactic(auto, unfolding(crate::specs::Places::close_answer, crate::specs::Terms::edition_link, answers::specs::Answers::need_of))]
pub fn close_answer(p: Place, edition: Edition, wanted: usize, tag: usize) -> Result<(), Refusal>
    ensures { result ≡ close_answer p edition wanted tag }
{
    need(sound(p), Refusal::NotSound)?;
    of_edition(edition, p.terms.edition)?;
    need(counts_within(p), Refusal::OverLimit)?;
    need(tag == wanted, Refusal::TagLength)
}

// The place once a piece of n bytes is accepted; as it was where they would pass the limit.
pub fn after(p: Place, part: Part, n: usize) -> Place
    ensures { result ≡ cond (leb (count_of p part + n) (limit_of part)) (moved_of p part n) p }
{
    if fits(count(p, part), n, limit(part)) {
        moved(p, part, n)
    } else {
        p
    }
}

// The place once a piece that fits is accepted.
fn moved(p: Place, part: Part, n: usize) -> Place
    requires { count_of p part + n ≤ limit_of part }
    ensures { result ≡ moved_of p part n }
{
    let standing = Standing::Open(part);
    match part {
        Part::Note => Place {
            standing,
            note: p.note + n,
            ..p
        },
        Part::Body => Place {
            standing,
            body: p.body + n,
            ..p
        },
        Part::Trailer => Place {
            standing,
            trailer: p.trailer + n,
            ..p
        },
    }
}
