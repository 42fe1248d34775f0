// Words of 64 bits.
ghost use Rattle.std.specs.Prelude.{refl};
ghost use Rattle.norx.specs.Norx.{word64};

use super::word::Word;
use rules::w64::{R0, R1, R2, R3, WIDTH, WORD};

impl Word for u64 {
    ghost width = { word64 };

    ghost value = { λ x. x };

    ghost word = { λ n. n };

    ghost back = { λ x. refl };

    #[inline(always)]
    fn bytes() -> usize {
        WORD
    }

    #[inline(always)]
    fn bits() -> u32 {
        WIDTH as u32
    }

    #[inline(always)]
    fn r0() -> u32 {
        R0
    }

    #[inline(always)]
    fn r1() -> u32 {
        R1
    }

    #[inline(always)]
    fn r2() -> u32 {
        R2
    }

    #[inline(always)]
    fn r3() -> u32 {
        R3
    }

    #[inline(always)]
    fn u8_to_u11() -> (u64, u64, u64, u64) {
        (
            0xb15e641748de5e6b,
            0xaa95e955e10f8410,
            0x28d1034441a9dd40,
            0x7f31bbf964e93bf5,
        )
    }

    #[inline(always)]
    fn u12_to_u15() -> (u64, u64, u64, u64) {
        (
            0xb5e9e22493dffb96,
            0xb980c852479fafbd,
            0xda24516bf55eafd4,
            0x86026ae8536f1501,
        )
    }

    #[inline(always)]
    fn rounds_of(rounds: u32) -> u32 {
        rounds
    }

    #[inline(always)]
    fn of_number(n: u32) -> u64 {
        n as u64
    }

    #[inline(always)]
    fn number(self) -> u64 {
        self
    }

    #[inline(always)]
    fn load(b: &[u8]) -> u64 {
        if b.len() == 8 {
            u64::from_le_bytes([b[0], b[1], b[2], b[3], b[4], b[5], b[6], b[7]])
        } else {
            0
        }
    }

    #[inline(always)]
    fn store(self, out: &mut [u8]) {
        if out.len() == 8 {
            out.copy_from_slice(&self.to_le_bytes());
        }
    }

    #[inline(always)]
    fn xor(self, y: u64) -> u64 {
        self ^ y
    }

    #[inline(always)]
    fn h(self, y: u64) -> u64 {
        self ^ y ^ ((self & y) << 1)
    }

    #[inline(always)]
    fn rotated(self, right: u32) -> u64 {
        self.rotate_right(right)
    }

    #[inline(always)]
    fn owned(self) -> u64 {
        self
    }
}
