// A row of four words, and the state: four rows.
ghost use Rattle.std.specs.Prelude.{◌≡◌, ⊤, ℕ, List, ◌/◌, ◌%◌, cond, ltb, replicate};
ghost use Rattle.norx.specs.Norx.{State, row, rows, word_at, row_at, xor_row};
ghost use Rattle.norx.specs.Whole.{Words, Whole};

use super::word::Word;
use std::alloc::AllocError;
use std::marker::Model;

// A contract sees the list of its numbers.
#[derive(Copy)]
pub struct Row<W: Word>(pub W, pub W, pub W, pub W);

impl<W: Word> Model for Row<W> {
    ghost Value = { List ℕ };

    ghost view = { λ r. row (W.value r.0) (W.value r.1) (W.value r.2) (W.value r.3) };

    ghost inverse = { λ v. record { 0 = W.word (word_at v 0); 1 = W.word (word_at v 1); 2 = W.word (word_at v 2); 3 = W.word (word_at v 3) } };

    ghost inverse_ok = { λ r h i. record { 0 = W.back r.0 i; 1 = W.back r.1 i; 2 = W.back r.2 i; 3 = W.back r.3 i } };
}

// A contract sees the list of its rows. Its columns are what G works on: a column has a word of each.
#[derive(Copy)]
pub struct State<W: Word> {
    pub a: Row<W>,
    pub b: Row<W>,
    pub c: Row<W>,
    pub d: Row<W>,
}

impl<W: Word> Model for State<W> {
    ghost Value = { State };

    ghost view = { λ s. rows s.a s.b s.c s.d };

    ghost inverse = { λ v. record { a = row_at v 0; b = row_at v 1; c = row_at v 2; d = row_at v 3 } };
}

impl<W: Word> Clone for Row<W> {
    ghost is_clone = { λ x y. y ≡ x };

    ghost is_infallible = { λ _. ⊤ };

    fn clone(&self) -> Result<Self, AllocError> {
        Ok(*self)
    }
}

impl<W: Word> Clone for State<W> {
    ghost is_clone = { λ x y. y ≡ x };

    ghost is_infallible = { λ _. ⊤ };

    fn clone(&self) -> Result<Self, AllocError> {
        Ok(*self)
    }
}

impl<W: Word> Row<W> {
    // A row of zeros.
    #[inline(always)]
    pub fn zeros() -> Row<W>
        ensures { result ≡ replicate 4 0 }
    {
        let zero = W::of_number(0);
        Row(zero, zero, zero, zero)
    }

    // The row of four numbers.
    #[inline(always)]
    pub fn of_numbers(a: u32, b: u32, c: u32, d: u32) -> Row<W>
        ensures { result ≡ row a b c d }
    {
        Row(
            W::of_number(a),
            W::of_number(b),
            W::of_number(c),
            W::of_number(d),
        )
    }

    // Its word at place i as a number; 0 where there is none.
    pub fn number(self, i: usize) -> u64
        ensures { result ≡ word_at self i }
    {
        match i {
            0 => self.0.number(),
            1 => self.1.number(),
            2 => self.2.number(),
            3 => self.3.number(),
            _ => 0,
        }
    }

    // Two rows xored word by word.
    #[inline(always)]
    pub fn xor(self, q: Row<W>) -> Row<W>
        ensures { result ≡ xor_row self q }
    {
        Row(
            self.0.xor(q.0),
            self.1.xor(q.1),
            self.2.xor(q.2),
            self.3.xor(q.3),
        )
    }

    // A row as it is, and with it that its words are numbers of their width.
    #[inline(always)]
    pub fn owned(self) -> Row<W>
        ensures same { result ≡ self }
        ensures words { Words W.width self }
    {
        Row(
            self.0.owned(),
            self.1.owned(),
            self.2.owned(),
            self.3.owned(),
        )
    }
}

impl<W: Word> State<W> {
    // A state of zeros.
    #[inline(always)]
    pub fn zeros() -> State<W>
        ensures { result ≡ replicate 4 (replicate 4 0) }
    {
        State {
            a: Row::zeros(),
            b: Row::zeros(),
            c: Row::zeros(),
            d: Row::zeros(),
        }
    }

    // Its i'th word, row by row, as a number; 0 where there is none.
    pub fn number(self, i: usize) -> u64
        ensures { result ≡ cond (ltb i 16) (word_at (row_at self (i / 4)) (i % 4)) 0 }
    {
        match i / 4 {
            0 => self.a.number(i % 4),
            1 => self.b.number(i % 4),
            2 => self.c.number(i % 4),
            3 => self.d.number(i % 4),
            _ => 0,
        }
    }

    // The same of a state.
    #[inline(always)]
    pub fn owned(self) -> State<W>
        ensures same { result ≡ self }
        ensures whole { Whole W.width self }
    {
        State {
            a: self.a.owned(),
            b: self.b.owned(),
            c: self.c.owned(),
            d: self.d.owned(),
        }
    }
}
