// The works in one call, at a width given as a number.
ghost use Rattle.std.specs.Prelude.{◌≤◌};

use crate::job::{EDITION, KEY, Line, NONCE, Work};
use answers::Refusal;
use places::front::front;
use words::word::row_bytes;

// The header is that of a session without a note.
pub(crate) fn run(
    line: Line,
    body: &[u8],
    sealed: &mut [u8],
    out: &mut [u8],
) -> Result<(), Refusal> {
    let Line {
        width,
        rounds,
        work,
    } = line;
    let n = row(width);
    let (key, nonce, header) = (&KEY[..n], &NONCE[..n], front(EDITION));
    match work {
        Work::Seal => sealing::seal(width, rounds, key, nonce, &header, body, b"", sealed).answer,
        Work::Check => {
            let Some(out) = out.get_mut(..body.len()) else {
                return Err(Refusal::OutputLength);
            };
            sealing::open(width, rounds, key, nonce, &header, sealed, b"", out).answer
        }
    }
}

// The bytes of a key, of a nonce and of a tag.
pub(crate) fn row(width: u32) -> usize
    ensures { result ≤ 32 }
{
    if width == 32 {
        row_bytes::<u32>()
    } else {
        row_bytes::<u64>()
    }
}
