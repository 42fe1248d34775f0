// Texts copied, compared to the end, and cleared to the end.
#![tactic(auto)]

ghost use Rattle.std.specs.Prelude.{◌≡◌, ◌<◌, ◌≤◌, ◌++◌, length, drop, replicate};
ghost use Rattle.norx.specs.Norx.{same as same_of};

// Whether two texts are the same; where they are of one length, every byte is looked at.
pub fn same(a: &[u8], b: &[u8]) -> bool
    ensures { result ≡ same_of a.now b.now }
{
    if a.len() != b.len() {
        return false;
    }
    let mut ok = true;
    for (x, y) in a.iter().zip(b) {
        ok &= x == y;
    }
    ok
}

// Zeros in every byte.
pub fn clear(out: &mut [u8])
    ensures { out.new ≡ replicate (length out.old) 0 }
{
    out.fill(0);
}

// The bytes laid over the front of a text; where it has no room for all of them it stays as it was.
pub fn copy(from: &[u8], to: &mut [u8])
    ensures laid { length from.now ≤ length to.old → to.new ≡ from.now ++ drop (length from.now) to.old }
    ensures kept { length to.old < length from.now → to.new ≡ to.old }
{
    if from.len() <= to.len() {
        to[..from.len()].copy_from_slice(from);
    }
}
