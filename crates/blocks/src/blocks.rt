// Blocks of R bytes: xored into s0..s11, and read back from there.
ghost use Rattle.std.specs.Prelude.{◌≡◌, cond, eqb, length};
ghost use Rattle.norx.specs.Norx.{rate, xors, xor_block, rate_of};

use super::rows::{load_row_at, open_row, seal_row, store_row_at};
use words::state::State;
use words::word::{Word, rate, row_bytes};

// A block xored into s0..s11.
#[inline(always)]
pub(crate) fn xor_block<W: Word>(s: State<W>, b: &[u8]) -> State<W>
    requires { length b.now ≡ rate W.width }
    ensures { result ≡ xor_block W.width s b.now }
{
    let n = row_bytes::<W>();
    State {
        a: s.a.xor(load_row_at(b, 0)),
        b: s.b.xor(load_row_at(b, n)),
        c: s.c.xor(load_row_at(b, 2 * n)),
        d: s.d,
    }
}

// The state once it took in the message of a full block of ciphertext: the new s0..s11 are that block.
#[inline(always)]
pub(crate) fn replaced<W: Word>(s: State<W>, c: &[u8]) -> State<W>
    requires { length c.now ≡ rate W.width }
    ensures { result ≡ xor_block W.width s (xors (rate_of W.width s) c.now) }
{
    let n = row_bytes::<W>();
    let t = s.owned();
    State {
        a: load_row_at(c, 0),
        b: load_row_at(c, n),
        c: load_row_at(c, 2 * n),
        d: t.d,
    }
}

// A block xored in, and the new s0..s11 written.
#[inline(always)]
pub(crate) fn seal_block<W: Word>(s: State<W>, b: &[u8], out: &mut [u8]) -> State<W>
    requires { (length b.now ≡ rate W.width) × (length out.old ≡ rate W.width) }
    ensures state { result ≡ xor_block W.width s b.now }
    ensures output { out.new ≡ rate_of W.width (xor_block W.width s b.now) }
{
    let n = row_bytes::<W>();
    let r0 = seal_row(s.a, b, &mut *out, 0);
    let r1 = seal_row(s.b, b, &mut *out, n);
    let r2 = seal_row(s.c, b, out, 2 * n);
    State {
        a: r0,
        b: r1,
        c: r2,
        d: s.d,
    }
}

// The message of a block of ciphertext written and taken in.
#[inline(always)]
pub(crate) fn open_block<W: Word>(s: State<W>, b: &[u8], out: &mut [u8]) -> State<W>
    requires { (length b.now ≡ rate W.width) × (length out.old ≡ rate W.width) }
    ensures state { result ≡ xor_block W.width s (xors (rate_of W.width s) b.now) }
    ensures output { out.new ≡ rate_of W.width (xor_block W.width s b.now) }
{
    let n = row_bytes::<W>();
    let t = s.owned();
    let r0 = open_row(t.a, b, &mut *out, 0);
    let r1 = open_row(t.b, b, &mut *out, n);
    let r2 = open_row(t.c, b, out, 2 * n);
    State {
        a: r0,
        b: r1,
        c: r2,
        d: t.d,
    }
}

// The bytes of s0..s11 written.
#[inline(always)]
pub(crate) fn store_rate<W: Word>(s: State<W>, out: &mut [u8])
    requires { length out.old ≡ rate W.width }
    ensures { out.new ≡ rate_of W.width s }
{
    let n = row_bytes::<W>();
    store_row_at(s.a, &mut *out, 0);
    store_row_at(s.b, &mut *out, n);
    store_row_at(s.c, out, 2 * n);
}

// A block xored into s0..s11; nothing where it has another length.
#[inline(always)]
pub fn xored<W: Word>(s: State<W>, b: &[u8]) -> State<W>
    ensures { result ≡ cond (eqb (length b.now) (rate W.width)) (xor_block W.width s b.now) s }
{
    if b.len() == rate::<W>() {
        xor_block(s, b)
    } else {
        s
    }
}
