// Parts of any length: taken in, encrypted, or decrypted.
ghost use Rattle.std.specs.Prelude.{◌≡◌, cond, ◌<◌, eqb, length};
ghost use Rattle.norx.specs.Norx.{rate, body_mark, after_blocks, after_part, ciphertext, message};
ghost use Rattle.norx.specs.Blocks.{fulls, cipher_fulls, message_fulls, after_message_fulls, after_left, cipher_left, message_left};
ghost use Rattle.rules.specs.Rules.{rounds_of};

use super::cuts::in_fulls;
use super::padding::{filled, padded};
use super::steps::{enter, show_rate, turn, xor_block};
use blocks::turns::{OPENING, SEALING, turns, unwritten};
use rules::BODY_MARK;
use words::state::State;
use words::word::Word;

// The full blocks of a part.
pub(crate) fn absorb_full<W: Word>(s: State<W>, rounds: u32, m: u8, d: &[u8]) -> State<W>
    ensures { result ≡ after_blocks W.width (rounds_of W.width rounds) m s d.now (fulls W.width d.now) }
{
    unwritten(s, rounds, m, SEALING, d)
}

// The padded block of the bytes left.
fn absorb_last<W: Word>(s: State<W>, rounds: u32, m: u8, left: &[u8]) -> State<W>
    requires { length left.now < rate W.width }
    ensures { result ≡ after_left W.width (rounds_of W.width rounds) m s left.now }
{
    turn(s, rounds, m, &padded(left))
}

// A part taken in with its mark: nothing of an empty one; else its full blocks, and a padded one.
pub fn absorb<W: Word>(from: State<W>, rounds: u32, m: u8, d: &[u8]) -> State<W>
    ensures { result ≡ after_part W.width (rounds_of W.width rounds) m from d.now }
{
    if d.is_empty() {
        return from;
    }
    let at = in_fulls::<W>(d);
    absorb_last(absorb_full(from, rounds, m, d), rounds, m, &d[at..])
}

// The full blocks of a body, and their ciphertext.
pub(crate) fn encrypt_full<W: Word>(s: State<W>, rounds: u32, d: &[u8], out: &mut [u8]) -> State<W>
    requires { length out.old ≡ length d.now }
    ensures state { result ≡ after_blocks W.width (rounds_of W.width rounds) body_mark s d.now (fulls W.width d.now) }
    ensures output { out.new ≡ cipher_fulls W.width (rounds_of W.width rounds) s d.now out.old }
{
    turns(s, rounds, BODY_MARK, SEALING, d, out)
}

// The padded block of the bytes left, and as many bytes of the new rate.
fn encrypt_last<W: Word>(s: State<W>, rounds: u32, left: &[u8], out: &mut [u8]) -> State<W>
    requires { (length left.now < rate W.width) × (length out.old ≡ length left.now) }
    ensures state { result ≡ after_left W.width (rounds_of W.width rounds) body_mark s left.now }
    ensures output { out.new ≡ cipher_left W.width (rounds_of W.width rounds) s left.now }
{
    let t = absorb_last(s, rounds, BODY_MARK, left);
    show_rate(t, 0, out);
    t
}

// A body and its ciphertext, where the output is as long as the body.
fn encrypt_exact<W: Word>(s: State<W>, rounds: u32, d: &[u8], out: &mut [u8]) -> State<W>
    requires { length out.old ≡ length d.now }
    ensures state { result ≡ after_part W.width (rounds_of W.width rounds) body_mark s d.now }
    ensures output { out.new ≡ ciphertext W.width (rounds_of W.width rounds) s d.now }
{
    if d.is_empty() {
        return s;
    }
    let at = in_fulls::<W>(d);
    let t = encrypt_full(s, rounds, d, &mut *out);
    encrypt_last(t, rounds, &d[at..], &mut out[at..])
}

// A body taken in, and its ciphertext written; nothing where the output is not as long as the body.
pub fn encrypt<W: Word>(s: State<W>, rounds: u32, d: &[u8], out: &mut [u8]) -> State<W>
    ensures state { result ≡ cond (eqb (length out.old) (length d.now)) (after_part W.width (rounds_of W.width rounds) body_mark s d.now) s }
    ensures output { out.new ≡ cond (eqb (length out.old) (length d.now)) (ciphertext W.width (rounds_of W.width rounds) s d.now) out.old }
{
    if out.len() == d.len() {
        encrypt_exact(s, rounds, d, out)
    } else {
        s
    }
}

// The full blocks of a ciphertext: their message is written, and taken in.
fn decrypt_full<W: Word>(s: State<W>, rounds: u32, c: &[u8], out: &mut [u8]) -> State<W>
    requires { length out.old ≡ length c.now }
    ensures state { result ≡ after_message_fulls W.width (rounds_of W.width rounds) s c.now }
    ensures output { out.new ≡ message_fulls W.width (rounds_of W.width rounds) s c.now out.old }
{
    turns(s, rounds, BODY_MARK, OPENING, c, out)
}

// The bytes left: their message is written, and taken in with its padding.
fn decrypt_last<W: Word>(s: State<W>, rounds: u32, left: &[u8], out: &mut [u8]) -> State<W>
    requires { (length left.now < rate W.width) × (length out.old ≡ length left.now) }
    ensures state { result ≡ after_left W.width (rounds_of W.width rounds) body_mark s (message_left W.width (rounds_of W.width rounds) s left.now) }
    ensures output { out.new ≡ message_left W.width (rounds_of W.width rounds) s left.now }
{
    let e = enter(s, rounds, BODY_MARK);
    show_rate(xor_block(e, &filled(left)), 0, &mut *out);
    xor_block(e, &padded(out))
}

// A ciphertext and its message, where the output is as long as the ciphertext.
fn decrypt_exact<W: Word>(s: State<W>, rounds: u32, c: &[u8], out: &mut [u8]) -> State<W>
    requires { length out.old ≡ length c.now }
    ensures state { result ≡ after_part W.width (rounds_of W.width rounds) body_mark s (message W.width (rounds_of W.width rounds) s c.now) }
    ensures output { out.new ≡ message W.width (rounds_of W.width rounds) s c.now }
{
    if c.is_empty() {
        return s;
    }
    let at = in_fulls::<W>(c);
    let t = decrypt_full(s, rounds, c, &mut *out);
    decrypt_last(t, rounds, &c[at..], &mut out[at..])
}

// The message of a body's ciphertext written, and taken in; nothing where the output is not as long as the ciphertext.
pub fn decrypt<W: Word>(s: State<W>, rounds: u32, c: &[u8], out: &mut [u8]) -> State<W>
    ensures state { result ≡ cond (eqb (length out.old) (length c.now)) (after_part W.width (rounds_of W.width rounds) body_mark s (message W.width (rounds_of W.width rounds) s c.now)) s }
    ensures output { out.new ≡ cond (eqb (length out.old) (length c.now)) (message W.width (rounds_of W.width rounds) s c.now) out.old }
{
    if out.len() == c.len() {
        decrypt_exact(s, rounds, c, out)
    } else {
        s
    }
}
