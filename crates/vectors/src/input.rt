// Standard input.
use std::io::Read;

// Reads once, and gives the bytes that came: none where the input has ended, or cannot be read, which is said.
pub(crate) fn read<'a>(rt: &impl Eprint, stdin: &mut impl Read, chunk: &'a mut [u8]) -> &'a [u8] {
    let n = match stdin.read(chunk) {
        Ok(n) => n,
        Err(_) => {
            let _ = rt.eprintln("vectors: standard input cannot be read");
            0
        }
    };
    &chunk[..n]
}
