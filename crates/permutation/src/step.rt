// A step of G on one column.
ghost use Rattle.std.specs.Prelude.{◌≡◌, ◌%◌};
ghost use Rattle.std.specs.Int.Bits.{bit_xor};
ghost use Rattle.norx.specs.Norx.{bits, ror, h_of};

use words::word::Word;

// One step of G: H(x, y), and z xored with it and rotated right.
#[inline(always)]
pub(crate) fn step<W: Word>(x: W, y: W, z: W, right: u32) -> (W, W)
    ensures h { W.value result.0 ≡ h_of W.width (W.value x) (W.value y) }
    ensures turned { W.value result.1 ≡ ror W.width (right % bits W.width) (bit_xor (h_of W.width (W.value x) (W.value y)) (W.value z)) }
{
    let n = x.h(y);
    (n, n.xor(z).rotated(right))
}
