// One segment sealed and one opened, at a width. Nonce is the job's, eight bytes shorter than NORX's.
ghost use Rattle.std.specs.Prelude.{◌≡◌, true, ◌+◌, length};
ghost use Rattle.norx.specs.Norx.{row_bytes, tag_bits, row_of, header_mark, after_part, start as norx_start};
ghost use Rattle.places.specs.Terms.{terms_ok};
ghost use Rattle.segments.specs.Segments.{segment_nonce, segment_header, segment_answer, segment_runs, segment_out, take_answer, take_runs, take_out};

use crate::join;
use answers::{Outcome, Refusal, need, reported};
use blocks::ends::{row, start};
use cutting::{Waiting, number, segment_ok, take_links};
use places::front::front;
use places::terms::Terms;
use rules::calls::{open_checks, seal_checks};
use rules::w64::ROW as LONGEST_ROW;
use rules::{FRONT, HEADER_MARK, SEGMENT_NUMBER};
use sealing::body;
use sponge::pieces::{end, feed};
use words::runs::runs;
use words::state::{Row, State};
use words::word::{Word, row_bytes};

// The words of the segment's nonce: that of its job, and behind it the number of index and flag.
fn nonce_of<W: Word>(job: &[u8], index: u64, last: bool) -> Row<W>
    requires { length job.now + 8 ≡ row_bytes W.width }
    ensures { result ≡ row_of W.width (segment_nonce job.now index last) }
{
    let own = number(index, last);
    let mut bytes = [0; LONGEST_ROW];
    let nonce = &mut bytes[..row_bytes::<W>()];
    join(job, &own, &mut *nonce);
    row(nonce)
}

// The state where the body begins: front and note are taken in one after the other.
fn before_body<W: Word>(terms: Terms, key: Row<W>, nonce: Row<W>, note: &[u8]) -> State<W>
    requires { terms_ok terms ≡ true }
    ensures { result ≡ after_part W.width terms.rounds header_mark (norx_start W.width terms.rounds (tag_bits W.width) key nonce) (segment_header terms note.now) }
{
    let rounds = terms.rounds;
    let b = front(terms.edition);
    let fronted = feed(start(rounds, key, nonce), rounds, HEADER_MARK, 0, &b);
    let noted = feed(fronted, rounds, HEADER_MARK, FRONT, note);
    end(noted, rounds, HEADER_MARK, FRONT + note.len())
}

// Seals where the numbers refuse nothing, and else changes nothing.
#[tactic(auto, using(norx::proofs::Widths::tag_is_row, crate::proofs::Checks::nonce_long, crate::proofs::Checks::header_long), unfolding(answers::specs::Answers::need_of, rules::specs::Calls::seal_checks, rules::specs::OneCall::seal_answer, rules::specs::OneCall::seal_out, crate::specs::Segments::segment_answer, crate::specs::Segments::segment_out))]
fn try_seal<W: Word>(
    key: &[u8],
    nonce: &[u8],
    terms: Terms,
    note: &[u8],
    index: u64,
    last: bool,
    body: &[u8],
    out: &mut [u8],
) -> Result<(), Refusal>
    ensures answer { result ≡ segment_answer W.width key.now nonce.now terms note.now index last body.now out.old }
    ensures output { out.new ≡ segment_out W.width key.now nonce.now terms note.now index last body.now out.old }
{
    need(segment_ok(index, last, body.len()), Refusal::SegmentLength)?;
    let n = row_bytes::<W>();
    seal_checks(
        n,
        n,
        terms.rounds,
        key.len(),
        nonce.len() + SEGMENT_NUMBER,
        FRONT + note.len(),
        body.len(),
        0,
        out.len(),
    )?;
    let k = row::<W>(key);
    let s = before_body(terms, k, nonce_of(nonce, index, last), note);
    body::seal(s, terms.rounds, k, body, &[], out);
    Ok(())
}

// Seals a segment: ciphertext and tag are written to the output, which is as long as both.
pub fn seal<W: Word>(
    key: &[u8],
    nonce: &[u8],
    terms: Terms,
    note: &[u8],
    index: u64,
    last: bool,
    body: &[u8],
    out: &mut [u8],
) -> Outcome
    ensures answer { result.answer ≡ segment_answer W.width key.now nonce.now terms note.now index last body.now out.old }
    ensures runs { result.runs ≡ segment_runs W.width key.now nonce.now terms note.now index last body.now out.old }
    ensures output { out.new ≡ segment_out W.width key.now nonce.now terms note.now index last body.now out.old }
{
    let n = runs::<W>(FRONT + note.len(), body.len(), 0);
    let answer = try_seal::<W>(key, nonce, terms, note, index, last, body, out);
    reported(answer, n)
}

// Opens where the numbers refuse nothing, by its tag; and else changes nothing.
#[tactic(auto, using(norx::proofs::Widths::tag_is_row, crate::proofs::Checks::nonce_long, crate::proofs::Checks::header_long), unfolding(answers::specs::Answers::need_of, rules::specs::Calls::open_checks, rules::specs::OneCall::open_answer, rules::specs::OneCall::open_out, cutting::specs::Cutting::take_links, crate::specs::Segments::take_answer, crate::specs::Segments::take_out))]
fn try_open<W: Word>(
    key: &[u8],
    nonce: &[u8],
    terms: Terms,
    note: &[u8],
    waiting: Waiting,
    last: bool,
    sealed: &[u8],
    out: &mut [u8],
) -> Result<(), Refusal>
    ensures answer { result ≡ take_answer W.width key.now nonce.now terms note.now waiting last sealed.now out.old }
    ensures output { out.new ≡ take_out W.width key.now nonce.now terms note.now waiting last sealed.now out.old }
{
    let n = row_bytes::<W>();
    take_links(waiting, last, n, sealed.len())?;
    open_checks(
        n,
        n,
        terms.rounds,
        key.len(),
        nonce.len() + SEGMENT_NUMBER,
        FRONT + note.len(),
        sealed.len(),
        0,
        out.len(),
    )?;
    let k = row::<W>(key);
    let s = before_body(terms, k, nonce_of(nonce, waiting.index, last), note);
    body::open(s, terms.rounds, k, sealed, &[], out)
}

// Opens the segment that a receiver waits for: its message is written to the output, which is as long as the segment less its tag; zeros where the tag differs.
pub fn open<W: Word>(
    key: &[u8],
    nonce: &[u8],
    terms: Terms,
    note: &[u8],
    waiting: Waiting,
    last: bool,
    sealed: &[u8],
    out: &mut [u8],
) -> Outcome
    ensures answer { result.answer ≡ take_answer W.width key.now nonce.now terms note.now waiting last sealed.now out.old }
    ensures runs { result.runs ≡ take_runs W.width key.now nonce.now terms note.now waiting last sealed.now out.old }
    ensures output { out.new ≡ take_out W.width key.now nonce.now terms note.now waiting last sealed.now out.old }
{
    let n = runs::<W>(FRONT + note.len(), out.len(), 0);
    let answer = try_open::<W>(key, nonce, terms, note, waiting, last, sealed, out);
    reported(answer, n)
}
