// The library's calls, their arguments in plain numbers: for programs that are given a call as data. A text is a stretch of one memory.
#![tactic(auto)]

ghost use Rattle.std.specs.Prelude.{◌≡◌};
ghost use Rattle.dispatch.specs.Calls.{low as low_of, stretch_of, part_of, edition_of, terms_of, label_of, outcome_at, out_at, one_call, one_call_out, start_call, piece_call, piece_call_out, close_call, close_call_tag, standing_of, put_call, made_call, made_out, is_call, constant_at, constant_of};

use answers::Outcome;
use held::Held;
use permutation::rounds::permute;
use places::terms::{Edition, Terms};
use places::{Label, Part, Place, Standing};
use session::session::Close;
use words::state::{Row, State};
use words::word::Word;

pub mod jobs;
pub mod kept;

// The words of a call, in their order: a number, or of a text the place in the memory where it ends; it begins where the text before it ended, the first at 0.
#[derive(Clone, Copy)]
pub struct Words {
    pub first: usize,
    pub second: usize,
    pub third: usize,
    pub fourth: usize,
    pub fifth: usize,
    pub sixth: usize,
    pub seventh: usize,
    pub eighth: usize,
    pub ninth: usize,
    pub tenth: usize,
    pub eleventh: usize,
}

// What one call does, and what a session is started for.
const SEALING: bool = false;

const OPENING: bool = true;

const CHECKING: bool = true;

// Makes the call of a number: 1 seals, 2 opens, 3 starts a sealing and 4 a checking session, 5 offers a piece, and any other closes.
#[tactic(auto, unfolding(crate::specs::Calls::made_call, crate::specs::Calls::made_out, crate::specs::Calls::by_number))]
pub fn make(k: usize, a: Words, memory: &[u8], held: Held, out: &mut [u8]) -> Close<Held>
    ensures step { result ≡ made_call k a memory.now held out.old }
    ensures output { out.new ≡ made_out k a memory.now held out.old }
{
    match k {
        1 => one_call(SEALING, a, memory, held, out),
        2 => one_call(OPENING, a, memory, held, out),
        3 => start(SEALING, a, memory),
        4 => start(CHECKING, a, memory),
        5 => piece(a, memory, held, out),
        _ => close(a, memory, held, out),
    }
}

// Whether the call of a number can be made on what is held: a start of a session or a receiver is at one of the two widths, a checking session takes no output, and each kind is closed by a number of its own, 6 a sealing and 7 a checking session.
pub fn is_call(k: usize, a: Words, held: Held) -> bool
    ensures { result ≡ is_call k a held }
{
    let checking = held.checks();
    let asks_nothing = (k == 1) | (k == 2) | (k == 10) | (k == 12) | (k == 14);
    let starts = ((k == 3) | (k == 4) | (k == 11)) & ((a.first == 32) | (a.first == 64));
    let offers = (k == 5) & (!checking | (a.sixth == 0));
    let closes = (k == 6) & !checking;
    let checks = (k == 7) & checking;
    asks_nothing | starts | offers | closes | checks
}

// Opens, or else seals: width, rounds, key, nonce, header, text, trailer.
fn one_call(opens: bool, a: Words, memory: &[u8], held: Held, out: &mut [u8]) -> Close<Held>
    ensures step { result ≡ one_call a memory.now opens held out.old }
    ensures output { out.new ≡ one_call_out a memory.now opens out.old }
{
    let outcome = opened_or_sealed(
        opens,
        low(a.first),
        low(a.second),
        stretch(memory, 0, a.third),
        stretch(memory, a.third, a.fourth),
        stretch(memory, a.fourth, a.fifth),
        stretch(memory, a.fifth, a.sixth),
        stretch(memory, a.sixth, a.seventh),
        out,
    );
    let Outcome { answer, runs } = outcome;
    Close {
        answer,
        runs,
        session: held,
    }
}

// The text is a sealed one, or else a body.
fn opened_or_sealed(
    opens: bool,
    width: u32,
    rounds: u32,
    key: &[u8],
    nonce: &[u8],
    header: &[u8],
    text: &[u8],
    trailer: &[u8],
    out: &mut [u8],
) -> Outcome
    ensures outcome { result ≡ outcome_at opens width rounds key.now nonce.now header.now text.now trailer.now out.old }
    ensures output { out.new ≡ out_at opens width rounds key.now nonce.now header.now text.now trailer.now out.old }
{
    if opens {
        sealing::open(width, rounds, key, nonce, header, text, trailer, out)
    } else {
        sealing::seal(width, rounds, key, nonce, header, text, trailer, out)
    }
}

// Width, which is 64 or else 32, rounds, key, nonce, job, revision.
fn start(check: bool, a: Words, memory: &[u8]) -> Close<Held>
    ensures { result ≡ start_call a memory.now check }
{
    Held::start(
        check,
        a.first == 64,
        stretch(memory, 0, a.third),
        stretch(memory, a.third, a.fourth),
        terms(a.second, a.fifth, a.sixth),
    )
}

// Job, revision, part, offset, bytes.
fn piece(a: Words, memory: &[u8], held: Held, out: &mut [u8]) -> Close<Held>
    ensures step { result ≡ piece_call a memory.now held out.old }
    ensures output { out.new ≡ piece_call_out a memory.now held out.old }
{
    held.piece(label(a), stretch(memory, 0, a.fifth), out)
}

// Job, revision, and the tag that a checking session is given.
fn close(a: Words, memory: &[u8], held: Held, out: &mut [u8]) -> Close<Held>
    ensures step { result ≡ close_call a memory.now held out.old }
    ensures tag { out.new ≡ close_call_tag a memory.now held out.old }
{
    held.close(edition(a.first, a.second), stretch(memory, 0, a.third), out)
}

// The same session at another place: note, body, trailer, rounds, job, revision, standing.
pub fn put(a: Words, held: Held) -> Held
    ensures { result ≡ put_call a held }
{
    held.put(Place {
        standing: standing(a.seventh),
        note: a.first,
        body: a.second,
        trailer: a.third,
        terms: terms(a.fourth, a.fifth, a.sixth),
    })
}

// The i'th of the constants u0 to u15 at a width; 0 from 16 on.
pub fn constant(wide: bool, i: usize) -> u64
    ensures { result ≡ constant_of wide i }
{
    if wide {
        constant_at::<u64>(i)
    } else {
        constant_at::<u32>(i)
    }
}

// The constants are what two rounds make of the state 0, 1, ..., 15.
const TWO_ROUNDS: u32 = 2;

fn constant_at<W: Word>(i: usize) -> u64
    ensures { result ≡ constant_at W.width i }
{
    let counted = State::<W> {
        a: Row::of_numbers(0, 1, 2, 3),
        b: Row::of_numbers(4, 5, 6, 7),
        c: Row::of_numbers(8, 9, 10, 11),
        d: Row::of_numbers(12, 13, 14, 15),
    };
    permute(counted, TWO_ROUNDS).number(i)
}

// The bytes from a place up to another; none where these are no places of the memory in that order.
pub(crate) fn stretch(memory: &[u8], from: usize, to: usize) -> &[u8]
    ensures { result.now ≡ stretch_of from to memory.now }
{
    if memory.len() < to {
        return &memory[0..0];
    }
    if to < from {
        return &memory[0..0];
    }
    &memory[from..to]
}

pub(crate) fn terms(rounds: usize, job: usize, revision: usize) -> Terms
    ensures { result ≡ terms_of rounds job revision }
{
    let edition = edition(job, revision);
    Terms {
        rounds: low(rounds),
        edition,
    }
}

fn edition(job: usize, revision: usize) -> Edition
    ensures { result ≡ edition_of job revision }
{
    Edition {
        job: job as u64,
        revision: revision as u64,
    }
}

// A number's last 32 bits.
pub(crate) fn low(n: usize) -> u32
    ensures { result ≡ low_of n }
{
    (n % 4294967296) as u32
}

fn label(a: Words) -> Label
    ensures { result ≡ label_of a }
{
    Label {
        edition: edition(a.first, a.second),
        part: part(a.third),
        offset: a.fourth,
    }
}

// 1 is the body, 2 the trailer, and any other number the note.
#[tactic(auto, unfolding(crate::specs::Calls::part_of))]
fn part(k: usize) -> Part
    ensures { result ≡ part_of k }
{
    match k {
        1 => Part::Body,
        2 => Part::Trailer,
        _ => Part::Note,
    }
}

// 0 is closed, and any other number open, in the part of the number before it.
#[tactic(auto, unfolding(crate::specs::Calls::standing_of))]
fn standing(k: usize) -> Standing
    ensures { result ≡ standing_of k }
{
    match k {
        0 => Standing::Closed,
        _ => Standing::Open(part(k - 1)),
    }
}
