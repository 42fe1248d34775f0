// What one call and pieces give.
use crate::buffers::Buffers;
use crate::job::{Line, Work};
use answers::number;
use std::io;

// Prints the answers of both ways and, of sealing, whether both wrote the same bytes.
pub(crate) fn compare(rt: &impl Print, line: Line, buffers: &mut Buffers) -> io::Result<()> {
    let one_call = number(buffers.in_one_call(line));
    let pieces = number(buffers.in_pieces(line));
    let bytes = match line.work {
        Work::Seal if buffers.are_alike() => ", the same bytes",
        Work::Seal => ", other bytes",
        Work::Check => "",
    };
    println!(rt; "{line} answers {one_call} and {pieces}{bytes}")
}
