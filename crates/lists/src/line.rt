// One line of a list, read at a place of a text.
ghost use Rattle.std.specs.Prelude.{◌≡◌, ◌<◌, ◌≤◌, length};
ghost use Rattle.fields.specs.Fields.{newline};
ghost use Rattle.lists.specs.Places.{ended_by, PartIs, LineIs, is_first, RestIs, SegmentIs};

use cutting::segment_ok;
use decimal::number_at;
use rules::SEGMENT;

// The four numbers of a line, and the place behind it.
#[derive(Clone, Copy)]
pub struct Line {
    pub job: u64,
    pub revision: u64,
    pub index: u64,
    pub body: u64,
    pub next: usize,
}

// Whether the byte stop stands at a place; at the text's end none does.
fn ended_by(text: &[u8], at: usize, stop: u8) -> bool
    ensures { result ≡ ended_by text.now at stop }
{
    match text.get(at) {
        Some(byte) => *byte == stop,
        None => false,
    }
}

// The number at a place, where the byte stop ends it, and the place behind that byte.
fn part_at(text: &[u8], at: usize, stop: u8) -> Option<(u64, usize)>
    requires { stop < 48 }
    ensures { PartIs text.now at stop result }
{
    let (value, end) = number_at(text, at)?;
    if !ended_by(text, end, stop) {
        return None;
    }
    Some((value, end + 1))
}

// The line at a place.
pub(crate) fn line_at(text: &[u8], at: usize) -> Option<Line>
    ensures { LineIs text.now at result }
{
    let (job, a) = part_at(text, at, b'\t')?;
    let (revision, b) = part_at(text, a, b'\t')?;
    let (index, c) = part_at(text, b, b'\t')?;
    let (body, next) = part_at(text, c, b'\n')?;
    Some(Line {
        job,
        revision,
        index,
        body,
        next,
    })
}

// Whether these can be the index and the body length of a first line.
pub(crate) fn first_ok(index: u64, body: u64) -> bool
    ensures { result ≡ is_first index body }
{
    (index == 0) & segment_ok(0, true, body as usize)
}

// The number at a place that a newline ends, quickly where it is that of a full segment.
fn body_at(text: &[u8], at: usize) -> Option<(u64, usize)>
    requires { at ≤ length text.now }
    ensures { PartIs text.now at newline result }
{
    let full = b"65536\n";
    if text[at..].starts_with(full) {
        return Some((SEGMENT as u64, at + full.len()));
    }
    part_at(text, at, b'\n')
}

// The body length behind index i at a place, and the place behind them; as the body may end there, any length of a last segment.
fn rest_at(text: &[u8], at: usize, i: u64) -> Option<(u64, usize)>
    ensures { RestIs text.now at i result }
{
    let (index, middle) = part_at(text, at, b'\t')?;
    if index != i {
        return None;
    }
    let (body, next) = body_at(text, middle)?;
    if !segment_ok(i, true, body as usize) {
        return None;
    }
    Some((body, next))
}

// The body length that the line of segment i at a place says, and the place behind it, where that line begins as the text does: with the same bytes up to the index.
pub(crate) fn segment_at(text: &[u8], at: usize, front: usize, i: u64) -> Option<(u64, usize)>
    requires { (at ≤ length text.now) × (front ≤ length text.now) }
    ensures { SegmentIs text.now at front i result }
{
    if !text[at..].starts_with(&text[..front]) {
        return None;
    }
    rest_at(text, at + front, i)
}
