// The works in pieces, at a width.
use crate::job::{EDITION, KEY, Line, NONCE, PIECE, Work, label, terms};
use answers::Refusal;
use session::check::Checking;
use session::seal::Sealing;
use words::word::{Word, row_bytes};

pub(crate) fn run<W: Word>(
    line: Line,
    body: &[u8],
    sealed: &[u8],
    out: &mut [u8],
) -> Result<(), Refusal> {
    let work = line.work;
    match work {
        Work::Seal => seal::<W>(line.rounds, body, out),
        Work::Check => check::<W>(line.rounds, sealed, body.len()),
    }
}

fn seal<W: Word>(rounds: u32, body: &[u8], out: &mut [u8]) -> Result<(), Refusal> {
    let n = body.len();
    if out.len() < n {
        return Err(Refusal::OutputLength);
    }
    let s = seal_pieces(start_sealing::<W>(rounds), body, &mut out[0..n]);
    close_sealing(s, &mut out[n..])
}

// The session that has accepted every piece of a body.
fn seal_pieces<W: Word>(session: Sealing<W>, body: &[u8], out: &mut [u8]) -> Sealing<W> {
    let mut s = session;
    let mut at: usize = 0;
    for (bytes, text) in body.chunks(PIECE).zip(out.chunks_mut(PIECE)) {
        s = seal_piece(s, at, bytes, text);
        at = at.saturating_add(bytes.len());
    }
    s
}

fn start_sealing<W: Word>(rounds: u32) -> Sealing<W> {
    let n = row_bytes::<W>();
    let step = Sealing::start(&KEY[..n], &NONCE[..n], terms(rounds));
    step.session
}

fn seal_piece<W: Word>(s: Sealing<W>, at: usize, bytes: &[u8], out: &mut [u8]) -> Sealing<W> {
    let step = s.piece(label(at), bytes, out);
    step.session
}

fn close_sealing<W: Word>(s: Sealing<W>, tag: &mut [u8]) -> Result<(), Refusal> {
    let step = s.close(EDITION, tag);
    step.answer
}

// Checks a text whose body has n bytes.
fn check<W: Word>(rounds: u32, sealed: &[u8], n: usize) -> Result<(), Refusal> {
    if sealed.len() < n {
        return Err(Refusal::TagLength);
    }
    let s = check_pieces(start_checking::<W>(rounds), &sealed[0..n]);
    close_checking(s, &sealed[n..])
}

// The session that has accepted every piece of a ciphertext.
fn check_pieces<W: Word>(session: Checking<W>, text: &[u8]) -> Checking<W> {
    let mut s = session;
    let mut at: usize = 0;
    for bytes in text.chunks(PIECE) {
        s = check_piece(s, at, bytes);
        at = at.saturating_add(bytes.len());
    }
    s
}

fn start_checking<W: Word>(rounds: u32) -> Checking<W> {
    let n = row_bytes::<W>();
    let step = Checking::start(&KEY[..n], &NONCE[..n], terms(rounds));
    step.session
}

fn check_piece<W: Word>(s: Checking<W>, at: usize, bytes: &[u8]) -> Checking<W> {
    let step = s.piece(label(at), bytes);
    step.session
}

fn close_checking<W: Word>(s: Checking<W>, tag: &[u8]) -> Result<(), Refusal> {
    let step = s.close(EDITION, tag);
    step.answer
}
