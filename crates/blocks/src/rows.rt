// Rows of four words in the bytes of a slice.
ghost use Rattle.std.specs.Prelude.{◌≡◌, ◌+◌, ◌≤◌, length, take, drop};
ghost use Rattle.norx.specs.Norx.{row_bytes, row_of, bytes_of_row, xor_row};
ghost use Rattle.norx.specs.Turns.{put};

use super::word::{load_at, store_at};
use words::state::Row;
use words::word::{Word, row_bytes};

// The row of a row's bytes.
#[inline(always)]
pub(crate) fn load_row<W: Word>(b: &[u8]) -> Row<W>
    requires { length b.now ≡ row_bytes W.width }
    ensures { result ≡ row_of W.width b.now }
{
    let n = W::bytes();
    Row(
        load_at(b, 0),
        load_at(b, n),
        load_at(b, 2 * n),
        load_at(b, 3 * n),
    )
}

// The bytes of a row written.
#[inline(always)]
pub(crate) fn store_row<W: Word>(r: Row<W>, b: &mut [u8])
    requires { length b.old ≡ row_bytes W.width }
    ensures { b.new ≡ bytes_of_row W.width r }
{
    let n = W::bytes();
    store_at(r.0, &mut *b, 0);
    store_at(r.1, &mut *b, n);
    store_at(r.2, &mut *b, 2 * n);
    store_at(r.3, b, 3 * n);
}

// The row at a place.
#[inline(always)]
pub(crate) fn load_row_at<W: Word>(b: &[u8], at: usize) -> Row<W>
    requires { at + row_bytes W.width ≤ length b.now }
    ensures { result ≡ row_of W.width (take (row_bytes W.width) (drop at b.now)) }
{
    load_row(&b[at..at + row_bytes::<W>()])
}

// The bytes of a row written at a place.
#[inline(always)]
pub(crate) fn store_row_at<W: Word>(r: Row<W>, b: &mut [u8], at: usize)
    requires { at + row_bytes W.width ≤ length b.old }
    ensures { b.new ≡ put b.old at (bytes_of_row W.width r) (row_bytes W.width) }
{
    store_row(r, &mut b[at..at + row_bytes::<W>()]);
}

// A row xored with the bytes at a place, and its bytes then written there.
#[inline(always)]
pub(crate) fn seal_row<W: Word>(r: Row<W>, b: &[u8], out: &mut [u8], at: usize) -> Row<W>
    requires { (at + row_bytes W.width ≤ length b.now) × (at + row_bytes W.width ≤ length out.old) }
    ensures state { result ≡ xor_row r (row_of W.width (take (row_bytes W.width) (drop at b.now))) }
    ensures output { out.new ≡ put out.old at (bytes_of_row W.width result) (row_bytes W.width) }
{
    let x = r.xor(load_row_at(b, at));
    store_row_at(x, out, at);
    x
}

// The same bytes written; the new row is the one of the bytes that came.
#[inline(always)]
pub(crate) fn open_row<W: Word>(r: Row<W>, b: &[u8], out: &mut [u8], at: usize) -> Row<W>
    requires { (at + row_bytes W.width ≤ length b.now) × (at + row_bytes W.width ≤ length out.old) }
    ensures state { result ≡ row_of W.width (take (row_bytes W.width) (drop at b.now)) }
    ensures output { out.new ≡ put out.old at (bytes_of_row W.width (xor_row r result)) (row_bytes W.width) }
{
    let x = load_row_at(b, at);
    store_row_at(r.xor(x), out, at);
    x
}
