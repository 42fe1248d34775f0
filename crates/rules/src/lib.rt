// The numbers that rule every call, each of them once, and in calls what they decide.
#![tactic(auto)]

ghost use Rattle.std.specs.Prelude.{◌≡◌};
ghost use Rattle.rules.specs.Rules.{rounds_ok, lengths_ok};

pub mod calls;
pub mod w32;
pub mod w64;

// The longest header, body and trailer, in bytes.
pub const LONGEST_HEADER: usize = 65536;

pub const LONGEST_BODY: usize = 16777216;

pub const LONGEST_TRAILER: usize = LONGEST_HEADER;

// The bytes that stand in front of the note in the header of a session.
pub const FRONT: usize = 16;

// The longest note, 65520: what the front leaves of a header.
pub const LONGEST_NOTE: usize = LONGEST_HEADER - FRONT;

// The bytes of a segment, of which the last alone may have fewer, and the most segments of a job.
pub const SEGMENT: usize = 65536;

pub const MOST_SEGMENTS: u64 = 1048576;

// The longest job in segments, 68719476736 bytes: as many as the most segments have.
pub const LONGEST_JOB: u64 = MOST_SEGMENTS * SEGMENT as u64;

// The bytes of the number in a segment's nonce, which stands behind the nonce of its job.
pub const SEGMENT_NUMBER: usize = 8;

// The marks of header, body, trailer and tag.
pub const HEADER_MARK: u8 = 0x01;

pub const BODY_MARK: u8 = 0x02;

pub const TRAILER_MARK: u8 = 0x04;

pub const TAG_MARK: u8 = 0x08;

// Where P runs with no mark.
pub const NO_MARK: u8 = 0x00;

// The parallelism of NORX here.
pub const PARALLELISM: u32 = 1;

// Rounds are 4 or 6.
pub fn rounds_ok(rounds: u32) -> bool
    ensures { result ≡ rounds_ok rounds }
{
    (rounds == 4) | (rounds == 6)
}

// A key and a nonce have the length of a row.
pub fn lengths_ok(row: usize, key: usize, nonce: usize) -> bool
    ensures { result ≡ lengths_ok row key nonce }
{
    (key == row) & (nonce == row)
}
