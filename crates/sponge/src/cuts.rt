// Where a part is cut into blocks.
ghost use Rattle.std.specs.Prelude.{◌≡◌, ◌-◌, ◌*◌, ◌%◌, ◌<◌, ◌≤◌, length};
ghost use Rattle.norx.specs.Norx.{rate};
ghost use Rattle.norx.specs.Blocks.{fulls};

use words::word::{Word, rate};

// How many bytes of a text stand in its full blocks.
#[inline(always)]
pub(crate) fn in_fulls<W: Word>(d: &[u8]) -> usize
    ensures fulls { result ≡ fulls W.width d.now * rate W.width }
    ensures within { result ≤ length d.now }
    ensures short { length d.now - result < rate W.width }
{
    let r = rate::<W>();
    d.len() / r * r
}

// The place that n bytes of a part reach in a block.
#[inline(always)]
pub(crate) fn place<W: Word>(n: usize) -> usize
    ensures place { result ≡ n % rate W.width }
    ensures within { result < rate W.width }
{
    n % rate::<W>()
}
