// A body sealed and a text opened, from the state where the body begins.
// Where the trailer is empty the state goes on to the tag from where it is: what absorb gives back would be a copy.
ghost use Rattle.std.specs.Prelude.{◌≡◌, cond, ◌+◌, eqb, length, replicate};
ghost use Rattle.norx.specs.Norx.{tag_bits};
ghost use Rattle.rules.specs.Rules.{rounds_of, tag_bytes};
ghost use Rattle.rules.specs.Calls.{answer_of, out_of};
ghost use Rattle.sealing.specs.Bodies.{sealed_from, opened_from};

use answers::Refusal;
use blocks::ends::{tag, tag_is};
use rules::TRAILER_MARK;
use sponge::parts::{absorb, decrypt, encrypt};
use texts::clear;
use words::state::{Row, State};
use words::word::{Word, row_bytes};

// Seals a body: ciphertext and tag are written; nothing where the output is not as long as both.
pub fn seal<W: Word>(
    s: State<W>,
    rounds: u32,
    key: Row<W>,
    body: &[u8],
    trailer: &[u8],
    out: &mut [u8],
)
    ensures { out.new ≡ cond (eqb (length out.old) (length body.now + tag_bytes W.width)) (sealed_from W.width (rounds_of W.width rounds) (tag_bits W.width) key s body.now trailer.now) out.old }
{
    let n = body.len();
    if out.len() == n + row_bytes::<W>() {
        let t = encrypt(s, rounds, body, &mut out[0..n]);
        if trailer.len() == 0 {
            tag(rounds, key, t, &mut out[n..]);
        } else {
            let u = absorb(t, rounds, TRAILER_MARK, trailer);
            tag(rounds, key, u, &mut out[n..]);
        }
    }
}

// What an opening answers by whether the tag that came is its own; where it is not, the output is cleared.
#[inline(always)]
fn judged(own: bool, out: &mut [u8]) -> Result<(), Refusal>
    ensures answer { result ≡ cond own (Ok tt) (Err Refusal.TagDiffers) }
    ensures output { out.new ≡ cond own out.old (replicate (length out.old) 0) }
{
    if own {
        return Ok(());
    }
    clear(out);
    Err(Refusal::TagDiffers)
}

// Opens a sealed text: its message is written where the tag is its own, and else zeros; nothing, and 5, where the text is not as long as the output and a tag.
pub fn open<W: Word>(
    s: State<W>,
    rounds: u32,
    key: Row<W>,
    sealed: &[u8],
    trailer: &[u8],
    out: &mut [u8],
) -> Result<(), Refusal>
    ensures answer { result ≡ cond (eqb (length sealed.now) (length out.old + tag_bytes W.width)) (answer_of (opened_from W.width (rounds_of W.width rounds) (tag_bits W.width) key s sealed.now trailer.now)) (Err Refusal.OutputLength) }
    ensures output { out.new ≡ cond (eqb (length sealed.now) (length out.old + tag_bytes W.width)) (out_of (opened_from W.width (rounds_of W.width rounds) (tag_bits W.width) key s sealed.now trailer.now) (length out.old)) out.old }
{
    let n = out.len();
    if sealed.len() != n + row_bytes::<W>() {
        return Err(Refusal::OutputLength);
    }
    let u = decrypt(s, rounds, &sealed[0..n], &mut *out);
    let theirs = &sealed[n..];
    if trailer.len() == 0 {
        return judged(tag_is(rounds, key, u, theirs), out);
    }
    let v = absorb(u, rounds, TRAILER_MARK, trailer);
    judged(tag_is(rounds, key, v, theirs), out)
}
