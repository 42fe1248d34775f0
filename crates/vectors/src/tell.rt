// What is written of bytes and words, each behind a space.
use crate::asked::BYTES_MOST;
use std::io;

// Bytes in hexadecimal; `-` for none.
pub(crate) fn bytes(rt: &impl Print, bytes: &[u8]) -> io::Result<()> {
    let mut digits = [0; 2 * BYTES_MOST];
    let n = spelled::write_bytes(bytes, &mut digits);
    rt.print(" ")?;
    rt.write_all(digits.get(..n).unwrap_or(&[]))
}

// A word with all of its digits.
pub(crate) fn word(rt: &impl Print, word: u64, wide: bool) -> io::Result<()> {
    if wide {
        print!(rt; " {word:016x}")
    } else {
        print!(rt; " {word:08x}")
    }
}
