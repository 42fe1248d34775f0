// The loop over full blocks: the mark, P, and a block.
ghost use Rattle.std.specs.Prelude.{◌≡◌, true, ◌+◌, ◌≤◌, length};
ghost use Rattle.norx.specs.Turns.{with_block, shown_at, after_all_turns, out_after_turns};
ghost use Rattle.norx.specs.Norx.{rate, xors, xor_block, rate_of, entered, keyed as keyed_of};
ghost use Rattle.rules.specs.Rules.{rounds_of};

use super::block::Block;
use super::blocks::{open_block, replaced, seal_block, xor_block};
use super::mark::{Mark, marked};
use permutation::rounds::permute;
use words::state::{Row, State};
use words::word::{Word, rate};

// Which way a text is taken in: as it is, or as the message of the ciphertext that it is.
pub const SEALING: bool = false;

pub const OPENING: bool = true;

// What comes before each block: the mark, and P.
#[inline(always)]
fn marked_and_permuted<W: Word>(s: State<W>, rounds: u32, m: Mark<W>) -> State<W>
    ensures { result ≡ entered W.width (rounds_of W.width rounds) m s }
{
    permute(marked(s, m), rounds)
}

// The key xored into s12..s15.
#[inline(always)]
fn keyed<W: Word>(k: Row<W>, s: State<W>) -> State<W>
    ensures { result ≡ keyed_of k s }
{
    State {
        a: s.a,
        b: s.b,
        c: s.c,
        d: s.d.xor(k),
    }
}

// A block xored in, and the new s0..s11 written at a place of the output where that is asked for.
#[inline(always)]
fn seal_at<W: Word>(e: State<W>, writing: bool, b: &[u8], out: &mut [u8], at: usize) -> State<W>
    requires { (length b.now ≡ rate W.width) × (writing ≡ true → at + rate W.width ≤ length out.old) }
    ensures state { result ≡ xor_block W.width e b.now }
    ensures output { out.new ≡ shown_at W.width writing out.old at e b.now }
{
    if writing {
        seal_block(e, b, &mut out[at..at + rate::<W>()])
    } else {
        xor_block(e, b)
    }
}

// A block of ciphertext: its message is taken in, and written at a place of the output where that is asked for.
#[inline(always)]
fn open_at<W: Word>(e: State<W>, writing: bool, b: &[u8], out: &mut [u8], at: usize) -> State<W>
    requires { (length b.now ≡ rate W.width) × (writing ≡ true → at + rate W.width ≤ length out.old) }
    ensures state { result ≡ xor_block W.width e (xors (rate_of W.width e) b.now) }
    ensures output { out.new ≡ shown_at W.width writing out.old at e b.now }
{
    if writing {
        open_block(e, b, &mut out[at..at + rate::<W>()])
    } else {
        replaced(e, b)
    }
}

// A block, sealed or opened.
#[inline(always)]
fn block_at<W: Word>(
    e: State<W>,
    opening: bool,
    writing: bool,
    b: &[u8],
    out: &mut [u8],
    at: usize,
) -> State<W>
    requires { (length b.now ≡ rate W.width) × (writing ≡ true → at + rate W.width ≤ length out.old) }
    ensures state { result ≡ with_block W.width opening e b.now }
    ensures output { out.new ≡ shown_at W.width writing out.old at e b.now }
{
    if opening {
        open_at(e, writing, b, out, at)
    } else {
        seal_at(e, writing, b, out, at)
    }
}

// Every full block of a text, and then the key; what the blocks give is written where the output is as long as the text.
// It is the one way to P, so that P is compiled into this loop and the state stays in registers.
fn turns_keyed<W: Word>(
    s: State<W>,
    rounds: u32,
    m: Mark<W>,
    opening: bool,
    k: Row<W>,
    d: &[u8],
    out: &mut [u8],
) -> State<W>
    ensures state { result ≡ keyed_of k (after_all_turns W.width (rounds_of W.width rounds) m opening s d.now) }
    ensures output { out.new ≡ out_after_turns W.width (rounds_of W.width rounds) m opening s d.now out.old }
{
    let r = rate::<W>();
    let mut t = s;
    let writing = out.len() == d.len();
    for i in 0..d.len() / r {
        let at = i * r;
        let e = marked_and_permuted(t, rounds, m);
        t = block_at(e, opening, writing, &d[at..at + r], &mut *out, at);
    }
    keyed(k, t)
}

// Every full block of a text; what the blocks give is written where the output is as long as the text, and an output of another length stays as it was.
// A text that has none leaves the state where it is: the loop would hand it through memory once more.
pub fn turns<W: Word>(
    s: State<W>,
    rounds: u32,
    m: u8,
    opening: bool,
    d: &[u8],
    out: &mut [u8],
) -> State<W>
    ensures state { result ≡ after_all_turns W.width (rounds_of W.width rounds) m opening s d.now }
    ensures output { out.new ≡ out_after_turns W.width (rounds_of W.width rounds) m opening s d.now out.old }
{
    if d.len() < rate::<W>() {
        return s;
    }
    turns_keyed(
        s.owned(),
        rounds,
        Mark::of_number(m),
        opening,
        Row::zeros(),
        d,
        out,
    )
}

// Every full block of a text, and then the key, with nothing written: the output has no byte, so only a text with no block is as long.
fn unwritten_keyed<W: Word>(
    s: State<W>,
    rounds: u32,
    m: u8,
    opening: bool,
    k: Row<W>,
    d: &[u8],
) -> State<W>
    ensures { result ≡ keyed_of k (after_all_turns W.width (rounds_of W.width rounds) m opening s d.now) }
{
    turns_keyed(s, rounds, Mark::of_number(m), opening, k, d, &mut [])
}

// Every full block of a text, with nothing written.
pub fn unwritten<W: Word>(s: State<W>, rounds: u32, m: u8, opening: bool, d: &[u8]) -> State<W>
    ensures { result ≡ after_all_turns W.width (rounds_of W.width rounds) m opening s d.now }
{
    if d.len() < rate::<W>() {
        return s;
    }
    unwritten_keyed(s.owned(), rounds, m, opening, Row::zeros(), d)
}

// The mark, P and the key: a block of zeros changes nothing.
pub(crate) fn enter_keyed<W: Word>(s: State<W>, rounds: u32, m: u8, k: Row<W>) -> State<W>
    ensures { result ≡ keyed_of k (entered W.width (rounds_of W.width rounds) m s) }
{
    let zeros = Block::<W>::zeros();
    unwritten_keyed(s.owned(), rounds, m, SEALING, k, zeros.bytes())
}
