// A part in pieces that are cut anywhere. n is how many bytes of the part came before, of which only n modulo R matters; j is that.
ghost use Rattle.std.specs.Prelude.{◌≡◌, cond, ◌++◌, ◌⊎◌, ◌+◌, ◌-◌, ◌%◌, ◌<◌, ◌≤◌, eqb, length, replicate};
ghost use Rattle.norx.specs.Norx.{rate, body_mark};
ghost use Rattle.norx.specs.Stream.{placed as placed_of, fed, fed_text, unfed, ended as ended_of};
ghost use Rattle.rules.specs.Rules.{rounds_of};

use super::cuts::{in_fulls, place};
use super::padding::{filled, padded};
use super::parts::{absorb_full, encrypt_full};
use super::steps::{enter, show_rate, xor_block};
use blocks::block::Block;
use blocks::turns::{OPENING, unwritten};
use rules::BODY_MARK;
use words::state::State;
use words::word::{Word, rate};

// The bytes d at place j of a block of zeros.
#[inline(always)]
fn placed<W: Word>(j: usize, d: &[u8]) -> Block<W>
    requires { j + length d.now ≤ rate W.width }
    ensures { result ≡ placed_of j d.now ++ replicate (rate W.width - j - length d.now) 0 }
{
    let mut b = Block::zeros();
    b.lay(j, d);
    b
}

// How many of len bytes go on in a block that is filled up to place j: none where it is empty.
#[inline(always)]
fn filling<W: Word>(j: usize, len: usize) -> usize
    requires { j < rate W.width }
    ensures { (result ≤ len) × (j + result ≤ rate W.width) × (0 < result → 0 < j) × ((len - result ≡ 0) ⊎ ((j + result) % rate W.width ≡ 0)) }
{
    if j == 0 {
        return 0;
    }
    (rate::<W>() - j).min(len)
}

// Bytes that go on in a block which is filled up to place j.
fn feed_filling<W: Word>(s: State<W>, rounds: u32, m: u8, j: usize, d: &[u8]) -> State<W>
    requires { (j + length d.now ≤ rate W.width) × (0 < length d.now → 0 < j) }
    ensures { result ≡ fed W.width (rounds_of W.width rounds) m s j d.now }
{
    if d.is_empty() {
        return s;
    }
    xor_block(s, &placed(j, d))
}

// Bytes that begin a block and leave room in it.
fn feed_left<W: Word>(s: State<W>, rounds: u32, m: u8, left: &[u8]) -> State<W>
    requires { length left.now < rate W.width }
    ensures { result ≡ fed W.width (rounds_of W.width rounds) m s 0 left.now }
{
    if left.is_empty() {
        return s;
    }
    xor_block(enter(s, rounds, m), &filled(left))
}

// Bytes that begin a block: the full blocks, and the bytes left.
fn feed_aligned<W: Word>(s: State<W>, rounds: u32, m: u8, d: &[u8]) -> State<W>
    ensures { result ≡ fed W.width (rounds_of W.width rounds) m s 0 d.now }
{
    let at = in_fulls::<W>(d);
    feed_left(absorb_full(s, rounds, m, d), rounds, m, &d[at..])
}

// A piece of a part taken in with the part's mark.
pub fn feed<W: Word>(s: State<W>, rounds: u32, m: u8, n: usize, d: &[u8]) -> State<W>
    ensures { result ≡ fed W.width (rounds_of W.width rounds) m s n d.now }
{
    let j = place::<W>(n);
    let k = filling::<W>(j, d.len());
    feed_aligned(feed_filling(s, rounds, m, j, &d[..k]), rounds, m, &d[k..])
}

// The end of a part of n bytes: nothing where there were none, and else the padding.
pub fn end<W: Word>(s: State<W>, rounds: u32, m: u8, n: usize) -> State<W>
    ensures { result ≡ ended_of W.width (rounds_of W.width rounds) m s n }
{
    if n == 0 {
        return s;
    }
    let j = place::<W>(n);
    let z = Block::<W>::zeros();
    let b = padded(&z.bytes()[..j]);
    if j == 0 {
        return xor_block(enter(s, rounds, m), &b);
    }
    xor_block(s, &b)
}

// Bytes of a body that go on in a block, and their ciphertext.
fn seal_filling<W: Word>(s: State<W>, rounds: u32, j: usize, d: &[u8], out: &mut [u8]) -> State<W>
    requires { (j < rate W.width) × (j + length d.now ≤ rate W.width) × (0 < length d.now → 0 < j) × (length out.old ≡ length d.now) }
    ensures state { result ≡ fed W.width (rounds_of W.width rounds) body_mark s j d.now }
    ensures output { out.new ≡ fed_text W.width (rounds_of W.width rounds) s j d.now }
{
    let t = feed_filling(s, rounds, BODY_MARK, j, d);
    show_rate(t, j, out);
    t
}

// Bytes of a body that begin a block and leave room in it, and their ciphertext.
fn seal_left<W: Word>(s: State<W>, rounds: u32, left: &[u8], out: &mut [u8]) -> State<W>
    requires { (length left.now < rate W.width) × (length out.old ≡ length left.now) }
    ensures state { result ≡ fed W.width (rounds_of W.width rounds) body_mark s 0 left.now }
    ensures output { out.new ≡ fed_text W.width (rounds_of W.width rounds) s 0 left.now }
{
    let t = feed_left(s, rounds, BODY_MARK, left);
    show_rate(t, 0, out);
    t
}

// Bytes of a body that begin a block: the full blocks and the bytes left, and their ciphertext.
fn seal_aligned<W: Word>(s: State<W>, rounds: u32, d: &[u8], out: &mut [u8]) -> State<W>
    requires { length out.old ≡ length d.now }
    ensures state { result ≡ fed W.width (rounds_of W.width rounds) body_mark s 0 d.now }
    ensures output { out.new ≡ fed_text W.width (rounds_of W.width rounds) s 0 d.now }
{
    let at = in_fulls::<W>(d);
    let t = encrypt_full(s, rounds, d, &mut *out);
    seal_left(t, rounds, &d[at..], &mut out[at..])
}

// A piece of a body and its ciphertext, where the output is as long as the piece.
fn seal_exact<W: Word>(s: State<W>, rounds: u32, n: usize, d: &[u8], out: &mut [u8]) -> State<W>
    requires { length out.old ≡ length d.now }
    ensures state { result ≡ fed W.width (rounds_of W.width rounds) body_mark s n d.now }
    ensures output { out.new ≡ fed_text W.width (rounds_of W.width rounds) s n d.now }
{
    let j = place::<W>(n);
    let k = filling::<W>(j, d.len());
    let t = seal_filling(s, rounds, j, &d[..k], &mut out[..k]);
    seal_aligned(t, rounds, &d[k..], &mut out[k..])
}

// A piece of a body taken in, and its ciphertext written; nothing where the output is not as long as the piece.
pub fn seal<W: Word>(s: State<W>, rounds: u32, n: usize, d: &[u8], out: &mut [u8]) -> State<W>
    ensures state { result ≡ cond (eqb (length out.old) (length d.now)) (fed W.width (rounds_of W.width rounds) body_mark s n d.now) s }
    ensures output { out.new ≡ cond (eqb (length out.old) (length d.now)) (fed_text W.width (rounds_of W.width rounds) s n d.now) out.old }
{
    if out.len() == d.len() {
        seal_exact(s, rounds, n, d, out)
    } else {
        s
    }
}

// Ciphertext that goes on in a block: its message is taken in.
fn open_filling<W: Word>(s: State<W>, rounds: u32, j: usize, c: &[u8]) -> State<W>
    requires { (j + length c.now ≤ rate W.width) × (0 < length c.now → 0 < j) }
    ensures { result ≡ fed W.width (rounds_of W.width rounds) body_mark s j (unfed W.width (rounds_of W.width rounds) s j c.now) }
{
    if c.is_empty() {
        return s;
    }
    let r = Block::of_rate(xor_block(s, &placed(j, c)));
    xor_block(s, &placed(j, &r.bytes()[j..j + c.len()]))
}

// Ciphertext that begins a block and leaves room in it: its message is taken in.
fn open_left<W: Word>(s: State<W>, rounds: u32, left: &[u8]) -> State<W>
    requires { length left.now < rate W.width }
    ensures { result ≡ fed W.width (rounds_of W.width rounds) body_mark s 0 (unfed W.width (rounds_of W.width rounds) s 0 left.now) }
{
    if left.is_empty() {
        return s;
    }
    let e = enter(s, rounds, BODY_MARK);
    let r = Block::of_rate(xor_block(e, &filled(left)));
    xor_block(e, &filled(&r.bytes()[..left.len()]))
}

// Ciphertext that begins a block: the message of the full blocks and of the bytes left is taken in.
fn open_aligned<W: Word>(s: State<W>, rounds: u32, c: &[u8]) -> State<W>
    ensures { result ≡ fed W.width (rounds_of W.width rounds) body_mark s 0 (unfed W.width (rounds_of W.width rounds) s 0 c.now) }
{
    let at = in_fulls::<W>(c);
    let t = unwritten(s, rounds, BODY_MARK, OPENING, c);
    open_left(t, rounds, &c[at..])
}

// A piece of a body's ciphertext: its message is taken in, and nothing is written; an empty one is nothing.
pub fn open<W: Word>(s: State<W>, rounds: u32, n: usize, c: &[u8]) -> State<W>
    ensures { result ≡ fed W.width (rounds_of W.width rounds) body_mark s n (unfed W.width (rounds_of W.width rounds) s n c.now) }
{
    let len = c.len();
    if len == 0 {
        return s;
    }
    let j = place::<W>(n);
    let k = filling::<W>(j, len);
    open_aligned(open_filling(s, rounds, j, &c[..k]), rounds, &c[k..])
}
