// Numbers from a fixed seed: Lehmer's generator modulo the prime 2147483647, with two multipliers.

const PRIME: u64 = 2147483647;

pub(crate) const SEED: u64 = 20260504;

// The number that a job begins with, from the one that the job before it began with.
pub(crate) fn next_job(x: u64) -> u64 {
    x % PRIME * 16807 % PRIME
}

// The number for a piece, from that for the piece before it.
pub(crate) fn next_piece(x: u64) -> u64 {
    x % PRIME * 48271 % PRIME
}
