// What the jobs that are mixed have in common, and parts of texts.
pub(crate) const KEY: [u8; 32] = *b"the key of tool 4 and the office";

pub(crate) const NONCE: [u8; 32] = *b"the first nonce, of 32 bytes too";

pub(crate) const OTHER_NONCE: [u8; 32] = *b"the other nonce, of 32 bytes too";

pub(crate) const NOTE: [u8; 18] = *b"tool 4, two passes";

pub(crate) const TRAILER: [u8; 15] = *b"lot 7, 40 parts";

pub(crate) const LINE: [u8; 15] = *b"G1 X80.0 Z-6.0\n";

pub(crate) const OTHER_LINE: [u8; 15] = *b"G1 X80.0 Z-4.0\n";

// Fills a body with one line, again and again.
pub(crate) fn fill(body: &mut [u8], line: &[u8; 15]) {
    for (i, b) in body.iter_mut().enumerate() {
        *b = line[i % 15];
    }
}

// The n bytes from a place on, or as many as there are.
pub(crate) fn part(b: &[u8], from: usize, n: usize) -> &[u8] {
    let rest = b.get(from..).unwrap_or(&[]);
    &rest[..n.min(rest.len())]
}
