// The core permutation, at either width: what a round is.
#![tactic(auto)]

ghost use Rattle.std.specs.Prelude.{◌≡◌, [], ◌∷◌};
ghost use Rattle.norx.specs.Norx.{row, word_at, g_of, on_columns, on_diagonals, f_of, constants, row_at};

use row::row_step;
use words::state::{Row, State};
use words::word::Word;

pub mod rounds;
mod row;
mod step;

// G on the four columns at once, by four steps over rows: no word waits for another column's. a1 is the row a after one step, and so on.
#[inline(always)]
fn column_step<W: Word>(s: State<W>) -> State<W>
    ensures { result ≡ on_columns (g_of W.width) s }
{
    let (a1, d1) = row_step(s.a, s.b, s.d, W::r0());
    let (c1, b1) = row_step(s.c, d1, s.b, W::r1());
    let (a2, d2) = row_step(a1, b1, d1, W::r2());
    let (c2, b2) = row_step(c1, d2, b1, W::r3());
    State {
        a: a2,
        b: b2,
        c: c2,
        d: d2,
    }
}

// A row from its second word on, and around.
#[inline(always)]
fn from_second<W: Word>(r: Row<W>) -> Row<W>
    ensures { result ≡ row (word_at r 1) (word_at r 2) (word_at r 3) (word_at r 0) }
{
    Row(r.1, r.2, r.3, r.0)
}

#[inline(always)]
fn from_third<W: Word>(r: Row<W>) -> Row<W>
    ensures { result ≡ row (word_at r 2) (word_at r 3) (word_at r 0) (word_at r 1) }
{
    Row(r.2, r.3, r.0, r.1)
}

#[inline(always)]
fn from_fourth<W: Word>(r: Row<W>) -> Row<W>
    ensures { result ≡ row (word_at r 3) (word_at r 0) (word_at r 1) (word_at r 2) }
{
    Row(r.3, r.0, r.1, r.2)
}

// The diagonals are picked into columns, and put back.
#[inline(always)]
fn diagonal_step<W: Word>(s: State<W>) -> State<W>
    ensures { result ≡ on_diagonals (g_of W.width) s }
{
    let t = column_step(State {
        a: s.a,
        b: from_second(s.b),
        c: from_third(s.c),
        d: from_fourth(s.d),
    });
    State {
        a: t.a,
        b: from_fourth(t.b),
        c: from_third(t.c),
        d: from_second(t.d),
    }
}

#[inline(always)]
pub(crate) fn round<W: Word>(s: State<W>) -> State<W>
    ensures { result ≡ f_of W.width s }
{
    diagonal_step(column_step(s))
}

// The constants that a start lays into the rows 2 and 3.
#[inline(always)]
pub fn upper_constants<W: Word>() -> (Row<W>, Row<W>)
    ensures { result.0 ∷ result.1 ∷ [] ≡ row_at (constants W.width) 2 ∷ row_at (constants W.width) 3 ∷ [] }
{
    let (u8, u9, u10, u11) = W::u8_to_u11();
    let (u12, u13, u14, u15) = W::u12_to_u15();
    (Row(u8, u9, u10, u11), Row(u12, u13, u14, u15))
}
