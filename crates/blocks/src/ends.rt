// How a state begins, and the tag at its end.
ghost use Rattle.std.specs.Prelude.{◌≡◌, cond, eqb, length, replicate};
ghost use Rattle.norx.specs.Norx.{row_bytes, tag_bits, row_of, bytes_of_row, start as norx_start, tag_of, same as same_of};
ghost use Rattle.rules.specs.Rules.{rounds_of, tag_bytes};

use super::rows::{load_row, store_row};
use super::turns::enter_keyed;
use permutation::upper_constants;
use rules::w64::TAG as LONGEST_TAG;
use rules::{NO_MARK, PARALLELISM, TAG_MARK};
use texts::same;
use words::state::{Row, State};
use words::word::{Word, row_bytes};

// The words of a key or of a nonce; four zeros where it has not the length of one.
#[inline(always)]
pub fn row<W: Word>(b: &[u8]) -> Row<W>
    ensures { result ≡ cond (eqb (length b.now) (row_bytes W.width)) (row_of W.width b.now) (replicate 4 0) }
{
    if b.len() == row_bytes::<W>() {
        load_row(b)
    } else {
        Row::zeros()
    }
}

// The state that a key and a nonce begin with.
pub fn start<W: Word>(rounds: u32, k: Row<W>, n: Row<W>) -> State<W>
    ensures { result ≡ norx_start W.width (rounds_of W.width rounds) (tag_bits W.width) k n }
{
    let (u8_to_u11, u12_to_u15) = upper_constants::<W>();
    let numbers = Row(
        W::of_number(W::bits()),
        W::of_number(W::rounds_of(rounds)),
        W::of_number(PARALLELISM),
        W::of_number(4 * W::bits()),
    );
    let s = State {
        a: n,
        b: k,
        c: u8_to_u11,
        d: u12_to_u15.xor(numbers),
    };
    enter_keyed(s, rounds, NO_MARK, k)
}

// The state's last row at the end of all parts, whose bytes are the tag.
fn finished<W: Word>(rounds: u32, k: Row<W>, s: State<W>) -> Row<W>
    ensures { bytes_of_row W.width result ≡ tag_of W.width (rounds_of W.width rounds) (tag_bits W.width) k s }
{
    let t = enter_keyed(enter_keyed(s, rounds, TAG_MARK, k), rounds, NO_MARK, k);
    t.d
}

// The tag of a state that took in all its parts, written; nothing where the output has not the length of one.
pub fn tag<W: Word>(rounds: u32, k: Row<W>, s: State<W>, out: &mut [u8])
    ensures { out.new ≡ cond (eqb (length out.old) (tag_bytes W.width)) (tag_of W.width (rounds_of W.width rounds) (tag_bits W.width) k s) out.old }
{
    if out.len() == row_bytes::<W>() {
        store_row(finished(rounds, k, s), out);
    }
}

// Whether the tag of a state that took in all its parts is this one; every byte of it is looked at.
pub fn tag_is<W: Word>(rounds: u32, k: Row<W>, s: State<W>, theirs: &[u8]) -> bool
    ensures { result ≡ same_of theirs.now (tag_of W.width (rounds_of W.width rounds) (tag_bits W.width) k s) }
{
    let mut bytes = [0; LONGEST_TAG];
    let own = &mut bytes[0..row_bytes::<W>()];
    store_row(finished(rounds, k, s), &mut *own);
    same(theirs, own)
}
