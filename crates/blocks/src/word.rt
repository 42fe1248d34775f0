// A word in the bytes of a slice.
ghost use Rattle.std.specs.Prelude.{◌≡◌, ◌+◌, ◌≤◌, length, take, drop};
ghost use Rattle.norx.specs.Norx.{word_bytes, word_of, bytes_of};
ghost use Rattle.norx.specs.Turns.{put};

use words::word::Word;

// The word at a place.
#[inline(always)]
pub(crate) fn load_at<W: Word>(b: &[u8], at: usize) -> W
    requires { at + word_bytes W.width ≤ length b.now }
    ensures { W.value result ≡ word_of (take (word_bytes W.width) (drop at b.now)) }
{
    W::load(&b[at..at + W::bytes()])
}

// The bytes of a word written at a place.
#[inline(always)]
pub(crate) fn store_at<W: Word>(x: W, b: &mut [u8], at: usize)
    requires { at + word_bytes W.width ≤ length b.old }
    ensures { b.new ≡ put b.old at (bytes_of (word_bytes W.width) (W.value x)) (word_bytes W.width) }
{
    x.store(&mut b[at..at + W::bytes()]);
}
