// The mark of a part, as the loop over blocks takes it.
ghost use Rattle.std.specs.Prelude.{◌≡◌, ⊤, ℕ, replicate};
ghost use Rattle.norx.specs.Norx.{row, word_at, marked as marked_of};

use std::alloc::AllocError;
use std::marker::Model;
use words::state::{Row, State};
use words::word::Word;

// A row that is xored into row 3, zeros but for its last word: the compiler then keeps row 3 in one register. A contract sees the number that it is.
#[derive(Copy)]
pub(crate) struct Mark<W: Word> {
    words: Row<W>,
}

impl<W: Word> Model for Mark<W> {
    ghost Value = { ℕ };

    ghost view = { λ m. word_at m.words 3 };

    ghost invariant = { λ m. m.words ≡ row 0 0 0 (word_at m.words 3) };

    ghost inverse = { λ n. record { words = row 0 0 0 n } };
}

impl<W: Word> Clone for Mark<W> {
    ghost is_clone = { λ x y. y ≡ x };

    ghost is_infallible = { λ _. ⊤ };

    fn clone(&self) -> Result<Self, AllocError> {
        Ok(*self)
    }
}

impl<W: Word> Mark<W> {
    #[inline(always)]
    pub(crate) fn of_number(m: u8) -> Mark<W>
        ensures { result ≡ m }
    {
        let zero = W::of_number(0);
        Mark {
            words: Row(zero, zero, zero, W::of_number(m as u32)),
        }
    }
}

// The mark xored into s15.
#[inline(always)]
pub(crate) fn marked<W: Word>(s: State<W>, m: Mark<W>) -> State<W>
    ensures { result ≡ marked_of m s }
{
    let t = s.owned();
    State {
        a: t.a,
        b: t.b,
        c: t.c,
        d: t.d.xor(m.words),
    }
}
