// The state of a session as its parts go by.
ghost use Rattle.std.specs.Prelude.{◌≡◌, true, ◌≤◌, length};
ghost use Rattle.norx.specs.Norx.{row_bytes, tag_bits, row_of};
ghost use Rattle.rules.specs.Rules.{rounds_ok};
ghost use Rattle.places.specs.Terms.{terms_ok};
ghost use Rattle.places.specs.Places.{limit_of};
ghost use Rattle.session.specs.Sessions.{fresh_state, end_if, readied as readied_of, place_runs_within};
ghost use Rattle.places.specs.declared.Part.TheVariants.{Note};

use blocks::ends::{row, start};
use places::front::front;
use places::terms::Terms;
use places::{Part, Place, ends};
use rules::{BODY_MARK, FRONT, HEADER_MARK, LONGEST_NOTE, TRAILER_MARK};
use sponge::pieces::{end, feed};
use words::runs::runs;
use words::state::{Row, State};
use words::word::Word;

// The state that a session starts with: the front stands before its note.
pub(crate) fn fresh_state<W: Word>(terms: Terms, key: Row<W>, nonce: &[u8]) -> State<W>
    requires { (length nonce.now ≡ row_bytes W.width) × (terms_ok terms ≡ true) }
    ensures { result ≡ fresh_state W.width (tag_bits W.width) terms key (row_of W.width nonce.now) }
{
    let front = front(terms.edition);
    let s = start(terms.rounds, key, row(nonce));
    feed(s, terms.rounds, HEADER_MARK, 0, &front)
}

// A part of n bytes ended, where that is due.
fn end_if<W: Word>(due: bool, s: State<W>, rounds: u32, mark: u8, n: usize) -> State<W>
    requires { rounds_ok rounds ≡ true }
    ensures { result ≡ end_if W.width rounds mark due s n }
{
    if due { end(s, rounds, mark, n) } else { s }
}

// The parts from the present one on ended, up to the one of rank next and without it.
pub(crate) fn readied<W: Word>(s: State<W>, p: Place, next: u32) -> State<W>
    requires { (p.note ≤ limit_of Note) × (terms_ok p.terms ≡ true) }
    ensures { result ≡ readied_of W.width p next s }
{
    let rounds = p.terms.rounds;
    let ends_note = ends(Part::Note, p.standing, next);
    let a = end_if(ends_note, s, rounds, HEADER_MARK, FRONT + p.note);
    let ends_body = ends(Part::Body, p.standing, next);
    let b = end_if(ends_body, a, rounds, BODY_MARK, p.body);
    let ends_trailer = ends(Part::Trailer, p.standing, next);
    end_if(ends_trailer, b, rounds, TRAILER_MARK, p.trailer)
}

// How many times P runs in the whole sealing of what a session took in, the front included; 0 where a count is over its limit.
pub(crate) fn runs_of<W: Word>(p: Place) -> u32
    ensures { result ≡ place_runs_within W.width p }
{
    if p.note <= LONGEST_NOTE {
        runs::<W>(FRONT + p.note, p.body, p.trailer)
    } else {
        0
    }
}
