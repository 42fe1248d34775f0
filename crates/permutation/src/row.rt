// A step of G over rows.
ghost use Rattle.std.specs.Prelude.{◌≡◌, ◌∷◌, [], ◌%◌};
ghost use Rattle.norx.specs.Norx.{bits};
ghost use Rattle.norx.specs.Rows.{stepped};

use super::step::step;
use words::state::Row;
use words::word::Word;

// The step in four columns at once, whose words stand in the rows x, y and z; in the order of columns that was measured to be quick.
#[inline(always)]
pub(crate) fn row_step<W: Word>(x: Row<W>, y: Row<W>, z: Row<W>, right: u32) -> (Row<W>, Row<W>)
    ensures { result.0 ∷ result.1 ∷ [] ≡ stepped W.width (right % bits W.width) x y z }
{
    let (n0, m0) = step(x.0, y.0, z.0, right);
    let (n3, m3) = step(x.3, y.3, z.3, right);
    let (n1, m1) = step(x.1, y.1, z.1, right);
    let (n2, m2) = step(x.2, y.2, z.2, right);
    (Row(n0, n1, n2, n3), Row(m0, m1, m2, m3))
}
