// A line read as a call: its name, and the words behind it by their kinds.
use crate::fault::Fault;
use crate::names::{Call, Kind, part_number, standing_number};
use decimal::read_number;
use dispatch::Words;
use spelled::read_bytes;

// The most words behind a call's name.
const MOST: usize = 11;

// The most bytes of a word, and of an output.
pub(crate) const BYTES_MOST: usize = 65632;

// The most bytes of all words of a line, of which five at most are bytes.
pub(crate) const TEXTS_MOST: usize = 5 * BYTES_MOST;

// A call, what its words say, the length of the output that is lent, and how many bytes its words have together.
#[derive(Clone, Copy)]
pub(crate) struct Asked {
    pub call: Call,
    pub words: Words,
    pub lent: Option<usize>,
    pub used: usize,
}

// Reads a line whose words are of the kinds of a call, and no others follow; their bytes are laid one behind the other.
pub(crate) fn read(line: &[u8], texts: &mut [u8]) -> Result<Asked, Fault> {
    let mut words = line.split(|b| *b == b' ');
    let call = words.next().and_then(Call::named).ok_or(Fault::NoCall)?;
    let mut used = 0;
    let mut numbers = [0; MOST];
    let mut lent = None;
    for (number, kind) in numbers.iter_mut().zip(call.kinds()) {
        let word = words.next().ok_or(Fault::NoCall)?;
        *number = said(*kind, word, &mut *texts, used)?;
        match kind {
            Kind::Bytes => used = *number,
            Kind::Length => lent = Some(*number),
            _ => {}
        }
    }
    if words.next().is_some() {
        return Err(Fault::NoCall);
    }
    Ok(Asked {
        call,
        words: named(numbers),
        lent,
        used,
    })
}

// What a word of a kind says; of bytes, which are laid from a place on, where they end.
fn said(kind: Kind, word: &[u8], texts: &mut [u8], from: usize) -> Result<usize, Fault> {
    let number = match kind {
        Kind::Bytes => lay(word, texts, from),
        Kind::Part => part_number(word),
        Kind::Standing => standing_number(word),
        Kind::Flag => number(word, 1),
        Kind::Short => number(word, u32::MAX as usize),
        Kind::Long => number(word, usize::MAX),
        Kind::Length => number(word, BYTES_MOST),
    };
    number.ok_or(Fault::NoCall)
}

// A number of at most so much.
fn number(word: &[u8], most: usize) -> Option<usize> {
    read_number(word).map(|n| n as usize).filter(|n| *n <= most)
}

// Lays the bytes of a word from a place on, and gives the place behind them.
fn lay(word: &[u8], texts: &mut [u8], from: usize) -> Option<usize> {
    let room = texts.get_mut(from..)?;
    let most = room.len().min(BYTES_MOST);
    let n = read_bytes(word, &mut room[..most])?;
    Some(from.saturating_add(n))
}

// The numbers as `dispatch` has them.
fn named(numbers: [usize; MOST]) -> Words {
    let [
        first,
        second,
        third,
        fourth,
        fifth,
        sixth,
        seventh,
        eighth,
        ninth,
        tenth,
        eleventh,
    ] = numbers;
    Words {
        first,
        second,
        third,
        fourth,
        fifth,
        sixth,
        seventh,
        eighth,
        ninth,
        tenth,
        eleventh,
    }
}
