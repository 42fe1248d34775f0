// A word of either width, and the numbers that follow from it.
ghost use Rattle.std.specs.Prelude.{◌≡◌, ℕ, [], ◌∷◌, ◌*◌, ◌%◌, ◌<◌, ◌^◌, cond, eqb, length, map};
ghost use Rattle.std.specs.Int.Bits.{bit_xor};
ghost use Rattle.norx.specs.Norx.{Width, bits, word_bytes, row_bytes, rate, r0, r1, r2, r3, row, row_at, word_of, bytes_of, ror, h_of, constants};
ghost use Rattle.rules.specs.Rules.{rounds_of};

pub trait Word: Copy {
    // Which of the two widths it is, the number that a word is, and the word that a number is.
    ghost width: { Width };

    ghost value: { Self → ℕ };

    ghost word: { ℕ → Self };

    // A word is its number, and no more.
    ghost back: { (x : Self) → word (value x) ≡ x };

    // The bytes of a word.
    fn bytes() -> usize
        ensures { result ≡ word_bytes width };

    // The bits of a word.
    fn bits() -> u32
        ensures { result ≡ bits width };

    // How far G rotates, in the order of its steps.
    fn r0() -> u32
        ensures { result ≡ r0 width };

    fn r1() -> u32
        ensures { result ≡ r1 width };

    fn r2() -> u32
        ensures { result ≡ r2 width };

    fn r3() -> u32
        ensures { result ≡ r3 width };

    // The constants that a start lays into the rows 2 and 3.
    fn u8_to_u11() -> (Self, Self, Self, Self)
        ensures { row (value result.0) (value result.1) (value result.2) (value result.3) ≡ row_at (constants width) 2 };

    fn u12_to_u15() -> (Self, Self, Self, Self)
        ensures { row (value result.0) (value result.1) (value result.2) (value result.3) ≡ row_at (constants width) 3 };

    // How many rounds P does where so many are asked: at 32 bits one at least, so that no way leads round them.
    fn rounds_of(rounds: u32) -> u32
        ensures { result ≡ rounds_of width rounds };

    // A number of 32 bits as a word.
    fn of_number(n: u32) -> Self
        ensures { value result ≡ n };

    // A word as a number of 64 bits.
    fn number(self) -> u64
        ensures { result ≡ value self };

    // The word of its bytes, the least first; zero where they are not as many.
    fn load(b: &[u8]) -> Self
        ensures { value result ≡ cond (eqb (length b.now) (word_bytes width)) (word_of b.now) 0 };

    // The bytes of a word written, the least first; nothing where the output is not as long.
    fn store(self, out: &mut [u8])
        ensures { out.new ≡ cond (eqb (length out.old) (word_bytes width)) (bytes_of (word_bytes width) (value self)) out.old };

    fn xor(self, y: Self) -> Self
        ensures { value result ≡ bit_xor (value self) (value y) };

    // H(x, y).
    fn h(self, y: Self) -> Self
        ensures { value result ≡ h_of width (value self) (value y) };

    // Rotated right, by the number modulo the width.
    fn rotated(self, right: u32) -> Self
        ensures { value result ≡ ror width (right % bits width) (value self) };

    // A word as it is, and with it that it is a number of its width.
    fn owned(self) -> Self
        ensures same { result ≡ self }
        ensures fits { value self < 2 ^ bits width };
}

// The bytes of a row, which a key, a nonce and a tag have too.
#[inline(always)]
pub fn row_bytes<W: Word>() -> usize
    ensures { result ≡ row_bytes W.width }
{
    4 * W::bytes()
}

// The rate R: the bytes of a block.
#[inline(always)]
pub fn rate<W: Word>() -> usize
    ensures { result ≡ rate W.width }
{
    12 * W::bytes()
}
