// A toy of the home-made seal: a checksum of each piece, by itself.
use std::io;

// The sum of the bytes, modulo 65536.
pub(crate) fn checksum(piece: &[u8]) -> u16 {
    piece
        .iter()
        .fold(0, |sum: u16, b| sum.wrapping_add(u16::from(*b)))
}

// Prints whether a piece has the checksum that it was sent with.
pub(crate) fn look(rt: &impl Print, name: &str, piece: &[u8], sent: u16) -> io::Result<()> {
    let sum = checksum(piece);
    let verdict = if sum == sent { "good" } else { "bad" };
    println!(rt; "  {name}, sent with {sent}, has {sum} -> {verdict}")
}
