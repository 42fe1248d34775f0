// One line of a list, written at a place.
ghost use Rattle.std.specs.Prelude.{◌≡◌, [], ◌∷◌, ◌++◌, ◌+◌, ◌≤◌, ◌<◌, length};
ghost use Rattle.decimal.specs.Decimal.{num_text};
ghost use Rattle.decimal.specs.Laid.{laid};
ghost use Rattle.fields.specs.Fields.{newline};
ghost use Rattle.lists.specs.Pieces.{front_text, rest_text};

use decimal::{number_length, put_number};
use rules::SEGMENT;

// How long the front of a line is: job, revision, and a tab behind each.
pub(crate) fn front_length(job: u64, revision: u64) -> usize
    ensures { (result ≡ length (front_text job revision)) × (result ≤ 42) }
{
    number_length(job) + number_length(revision) + 2
}

// How long a line is without its index and its body length: the front, a tab and a newline.
pub(crate) fn plain_length(job: u64, revision: u64) -> usize
    ensures { (result ≡ length (front_text job revision) + 2) × (result ≤ 44) }
{
    front_length(job, revision) + 2
}

// Writes a number and the byte that ends it at a place, and gives the place behind them.
fn part(n: u64, stop: u8, out: &mut [u8], at: usize) -> usize
    requires { at + length (num_text n) < length out.old }
    ensures place { result ≡ at + length (num_text n ++ (stop ∷ [])) }
    ensures text { out.new ≡ laid out.old at (num_text n ++ (stop ∷ [])) }
{
    let end = put_number(n, &mut *out, at);
    out[end] = stop;
    end + 1
}

// Writes a text at a place, and gives the place behind it.
fn text(x: &[u8], out: &mut [u8], at: usize) -> usize
    requires { at + length x.now ≤ length out.old }
    ensures place { result ≡ at + length x.now }
    ensures text { out.new ≡ laid out.old at x.now }
{
    texts::copy(x, &mut out[at..]);
    at + x.len()
}

// Writes a body length and its newline at a place, quickly that of a full segment, and gives the place behind them.
fn ending(body: u64, out: &mut [u8], at: usize) -> usize
    requires { at + length (num_text body) < length out.old }
    ensures place { result ≡ at + length (num_text body ++ (newline ∷ [])) }
    ensures text { out.new ≡ laid out.old at (num_text body ++ (newline ∷ [])) }
{
    if body == SEGMENT as u64 {
        return text(b"65536\n", out, at);
    }
    part(body, b'\n', out, at)
}

// Writes the front of a line to the front of a buffer, and gives its length.
pub(crate) fn front(job: u64, revision: u64, out: &mut [u8]) -> usize
    requires { 42 ≤ length out.old }
    ensures length { result ≡ length (front_text job revision) }
    ensures text { out.new ≡ laid out.old 0 (front_text job revision) }
{
    let a = part(job, b'\t', &mut *out, 0);
    part(revision, b'\t', out, a)
}

// Writes a line with a front at a place, and gives the place behind it.
pub(crate) fn line(front: &[u8], index: u64, body: u64, out: &mut [u8], at: usize) -> usize
    requires { at + length (front.now ++ rest_text index body) ≤ length out.old }
    ensures place { result ≡ at + length (front.now ++ rest_text index body) }
    ensures text { out.new ≡ laid out.old at (front.now ++ rest_text index body) }
{
    let a = text(front, &mut *out, at);
    let b = part(index, b'\t', &mut *out, a);
    ending(body, out, b)
}
