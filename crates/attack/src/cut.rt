// A long job of an edition, cut into two segments, and what these are sealed to.
ghost use Rattle.std.specs.Prelude.{◌≤◌};

use crate::job::{KEY, NOTE, fill, part};
use places::terms::Terms;
use rules::w64::TAG;
use rules::{SEGMENT, SEGMENT_NUMBER};
use words::word::row_bytes;

// The bytes of the last segment.
const REST: usize = 100;

// Room for the body of a job and for both segments, at either width.
pub(crate) const ROOM: usize = 2 * (SEGMENT + REST + TAG);

// What a receiver has to know of a job, its body, and its segments as they are sealed.
#[derive(Drop)]
pub(crate) struct Job<'a> {
    pub width: u32,
    pub terms: Terms,
    pub nonce: &'a [u8],
    pub body: &'a [u8],
    pub first: &'a [u8],
    pub last: &'a [u8],
}

// The bytes of a key, which a tag has too.
pub(crate) fn row(width: u32) -> usize
    ensures { result ≤ 32 }
{
    if width == 64 {
        row_bytes::<u64>()
    } else {
        row_bytes::<u32>()
    }
}

// The bytes of a job's nonce.
pub(crate) fn nonce_length(width: u32) -> usize {
    row(width).saturating_sub(SEGMENT_NUMBER)
}

pub(crate) fn key(width: u32) -> &'static [u8] {
    part(&KEY, 0, row(width))
}

impl<'a> Job<'a> {
    // Seals both segments of a job whose body is one line again and again, in a room that is lent.
    pub(crate) fn sealed(
        width: u32,
        terms: Terms,
        nonce: &'a [u8],
        line: &[u8; 15],
        room: &'a mut [u8; ROOM],
    ) -> Job<'a> {
        let (body, rest) = room.split_at_mut(SEGMENT + REST);
        let (first, rest) = rest.split_at_mut(SEGMENT + row(width));
        let last = &mut rest[..REST + row(width)];
        fill(body, line);
        seal(width, terms, nonce, 0, part(body, 0, SEGMENT), first);
        seal(width, terms, nonce, 1, part(body, SEGMENT, REST), last);
        Job {
            width,
            terms,
            nonce,
            body,
            first,
            last,
        }
    }

    // What segment i says; nothing where there is none.
    pub(crate) fn message(&self, i: u8) -> &[u8] {
        match i {
            0 => part(self.body, 0, SEGMENT),
            1 => part(self.body, SEGMENT, REST),
            _ => &[],
        }
    }
}

fn seal(width: u32, terms: Terms, nonce: &[u8], index: u64, body: &[u8], out: &mut [u8]) {
    let key = key(width);
    segments::seal(
        width,
        key,
        nonce,
        terms,
        &NOTE,
        index,
        index == 1,
        body,
        out,
    );
}
