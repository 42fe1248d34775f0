// One block, with room for the longer ones of both widths.
ghost use Rattle.std.specs.Prelude.{◌≡◌, List, ℕ, cond, ◌+◌, leb, length, take, replicate};
ghost use Rattle.norx.specs.Norx.{rate, rate_of, xor_at};
ghost use Rattle.norx.specs.Turns.{put};

use super::blocks::store_rate;
use rules::w64::RATE as LONGEST;
use std::marker::{Model, PhantomData};
use words::state::State;
use words::word::{Word, rate};

// A contract sees the list of its R bytes.
#[derive(Drop)]
pub struct Block<W: Word> {
    bytes: [u8; LONGEST],
    width: PhantomData<W>,
}

impl<W: Word> Model for Block<W> {
    ghost Value = { List ℕ };

    ghost view = { λ b. take (rate W.width) b.bytes };
}

impl<W: Word> Block<W> {
    // A block of zeros.
    #[inline(always)]
    pub fn zeros() -> Block<W>
        ensures { result ≡ replicate (rate W.width) 0 }
    {
        Block {
            bytes: [0; LONGEST],
            width: PhantomData,
        }
    }

    // The bytes of s0..s11.
    #[inline(always)]
    pub fn of_rate(s: State<W>) -> Block<W>
        ensures { result ≡ rate_of W.width s }
    {
        let mut bytes = [0; LONGEST];
        store_rate(s, &mut bytes[0..rate::<W>()]);
        Block {
            bytes,
            width: PhantomData,
        }
    }

    // Its bytes.
    #[inline(always)]
    pub fn bytes(&self) -> &[u8]
        ensures bytes { result.now ≡ self.now }
        ensures long { length self.now ≡ rate W.width }
    {
        &self.bytes[0..rate::<W>()]
    }

    // Bytes laid at a place; nothing where they have no room.
    #[inline(always)]
    pub fn lay(&mut self, at: usize, d: &[u8])
        ensures { self.new ≡ cond (leb (at + length d.now) (rate W.width)) (put self.old at d.now (length d.now)) self.old }
    {
        let n = rate::<W>();
        if at <= n && d.len() <= n - at {
            self.bytes[at..at + d.len()].copy_from_slice(d);
        }
    }

    // A byte xored in at a place; nothing where there is none.
    #[inline(always)]
    pub fn xor_at(&mut self, at: usize, v: u8)
        ensures { self.new ≡ xor_at self.old at v }
    {
        if at < rate::<W>() {
            self.bytes[at] ^= v;
        }
    }
}
