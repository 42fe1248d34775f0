// A block, what comes before it, and the bytes that it leaves.
ghost use Rattle.std.specs.Prelude.{◌≡◌, ◌+◌, ◌≤◌, length, take, drop};
ghost use Rattle.norx.specs.Norx.{rate, xor_block, rate_of, entered};
ghost use Rattle.rules.specs.Rules.{rounds_of};

use blocks::block::Block;
use blocks::blocks::xored;
use blocks::turns::{SEALING, unwritten};
use words::state::State;
use words::word::Word;

// A block xored into s0..s11.
#[inline(always)]
pub(crate) fn xor_block<W: Word>(s: State<W>, b: &Block<W>) -> State<W>
    ensures { result ≡ xor_block W.width s b.now }
{
    xored(s, b.bytes())
}

// One block: the mark, P, and the block xored in.
pub(crate) fn turn<W: Word>(s: State<W>, rounds: u32, m: u8, b: &Block<W>) -> State<W>
    ensures { result ≡ xor_block W.width (entered W.width (rounds_of W.width rounds) m s) b.now }
{
    unwritten(s, rounds, m, SEALING, b.bytes())
}

// The mark and P alone: a block of zeros changes nothing.
pub(crate) fn enter<W: Word>(s: State<W>, rounds: u32, m: u8) -> State<W>
    ensures { result ≡ entered W.width (rounds_of W.width rounds) m s }
{
    turn(s.owned(), rounds, m, &Block::zeros())
}

// As many of the rate's bytes, from place j on, as the output is long.
#[inline(always)]
pub(crate) fn show_rate<W: Word>(t: State<W>, j: usize, out: &mut [u8])
    requires { j + length out.old ≤ rate W.width }
    ensures { out.new ≡ take (length out.old) (drop j (rate_of W.width t)) }
{
    let r = Block::of_rate(t);
    out.copy_from_slice(&r.bytes()[j..j + out.len()]);
}
