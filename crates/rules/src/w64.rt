// The numbers of 64-bit words, each of them once: constants, since an array's length has to be one.
use super::SEGMENT_NUMBER;

// The bits of a word, as rotation counts them.
pub const WORD_BITS: u32 = 64;

// The words of a start: the width in bits, the parallelism, and the tag bits.
pub const WIDTH: u64 = 64;

pub const PARALLELISM: u64 = super::PARALLELISM as u64;

pub const TAG_BITS: u64 = 256;

// How far G rotates, in the order of its steps.
pub const R0: u32 = 8;

pub const R1: u32 = 19;

pub const R2: u32 = 40;

pub const R3: u32 = 63;

// Bytes of a word, and of the first words of a row.
pub const WORD: usize = 8;

pub const TWO_WORDS: usize = 2 * WORD;

pub const THREE_WORDS: usize = 3 * WORD;

// Bytes of a row, which a key and a nonce have too, and of the first rows.
pub const ROW: usize = 4 * WORD;

pub const TWO_ROWS: usize = 2 * ROW;

// Bytes of a job's nonce: what the number of a segment leaves of a nonce.
pub const JOB_NONCE: usize = ROW - SEGMENT_NUMBER;

// The rate R: bytes of a block.
pub const RATE: usize = 3 * ROW;

// Bytes of a tag.
pub const TAG: usize = 32;
