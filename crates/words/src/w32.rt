// Words of 32 bits.
ghost use Rattle.std.specs.Prelude.{refl};
ghost use Rattle.norx.specs.Norx.{word32};

use super::word::Word;
use rules::w32::{R0, R1, R2, R3, WIDTH, WORD};

impl Word for u32 {
    ghost width = { word32 };

    ghost value = { λ x. x };

    ghost word = { λ n. n };

    ghost back = { λ x. refl };

    #[inline(always)]
    fn bytes() -> usize {
        WORD
    }

    #[inline(always)]
    fn bits() -> u32 {
        WIDTH
    }

    #[inline(always)]
    fn r0() -> u32 {
        R0
    }

    #[inline(always)]
    fn r1() -> u32 {
        R1
    }

    #[inline(always)]
    fn r2() -> u32 {
        R2
    }

    #[inline(always)]
    fn r3() -> u32 {
        R3
    }

    #[inline(always)]
    fn u8_to_u11() -> (u32, u32, u32, u32) {
        (0xa3d8d930, 0x3fa8b72c, 0xed84eb49, 0xedca4787)
    }

    #[inline(always)]
    fn u12_to_u15() -> (u32, u32, u32, u32) {
        (0x335463eb, 0xf994220b, 0xbe0bf5c9, 0xd7c49104)
    }

    #[inline(always)]
    fn rounds_of(rounds: u32) -> u32 {
        rounds.max(1)
    }

    #[inline(always)]
    fn of_number(n: u32) -> u32 {
        n
    }

    #[inline(always)]
    fn number(self) -> u64 {
        self as u64
    }

    #[inline(always)]
    fn load(b: &[u8]) -> u32 {
        if b.len() == 4 {
            u32::from_le_bytes([b[0], b[1], b[2], b[3]])
        } else {
            0
        }
    }

    #[inline(always)]
    fn store(self, out: &mut [u8]) {
        if out.len() == 4 {
            out.copy_from_slice(&self.to_le_bytes());
        }
    }

    #[inline(always)]
    fn xor(self, y: u32) -> u32 {
        self ^ y
    }

    #[inline(always)]
    fn h(self, y: u32) -> u32 {
        self ^ y ^ ((self & y) << 1)
    }

    #[inline(always)]
    fn rotated(self, right: u32) -> u32 {
        self.rotate_right(right)
    }

    #[inline(always)]
    fn owned(self) -> u32 {
        self
    }
}
