// The bytes left of a part, in a block.
ghost use Rattle.std.specs.Prelude.{◌≡◌, ◌++◌, ◌-◌, ◌<◌, ◌≤◌, length, replicate};
ghost use Rattle.norx.specs.Norx.{rate, padded as padded_of};

use blocks::block::Block;
use words::word::{Word, rate};

// The left bytes of a part in a block of zeros.
#[inline(always)]
pub(crate) fn filled<W: Word>(left: &[u8]) -> Block<W>
    requires { length left.now ≤ rate W.width }
    ensures { result ≡ left.now ++ replicate (rate W.width - length left.now) 0 }
{
    let mut b = Block::zeros();
    b.lay(0, left);
    b
}

// The padded block: 01 xored into the byte behind the left bytes, and 80 (hexadecimal) into the last.
#[inline(always)]
pub(crate) fn padded<W: Word>(left: &[u8]) -> Block<W>
    requires { length left.now < rate W.width }
    ensures { result ≡ padded_of (rate W.width) left.now }
{
    let mut b = filled(left);
    b.xor_at(left.len(), 0x01);
    b.xor_at(rate::<W>() - 1, 0x80);
    b
}
