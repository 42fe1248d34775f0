// Jobs offered to checking sessions.
use crate::accepted::Accepted;
use crate::editions::Editions;
use crate::job::{LINE, NOTE, OTHER_LINE, TRAILER, part};
use crate::message::{Message, label, start};
use crate::offers::{Offer, offered};
use crate::random::{SEED, next_job, next_piece};
use crate::tally::Tally;
use crate::ways::{End, WAYS, Way};
use held::Held;
use places::{Label, Part};
use std::io;

// The message of the edition that a session is for, and that of the other.
#[derive(Clone, Copy)]
struct Pair<'a> {
    own: &'a Message<'a>,
    other: &'a Message<'a>,
}

impl<'a> Pair<'a> {
    fn turned(self) -> Pair<'a> {
        Pair {
            own: self.other,
            other: self.own,
        }
    }

    fn whose(self, foreign: bool) -> &'a Message<'a> {
        if foreign { self.other } else { self.own }
    }
}

// A session, and what it accepted.
#[derive(Drop)]
struct Run<'a> {
    pair: Pair<'a>,
    session: Held,
    accepted: Accepted,
}

// Offers the jobs of every way, prints how each way went, and gives them all together.
pub(crate) fn attack(
    rt: &impl Print,
    editions: Editions,
    nonce: &[u8],
    other_nonce: &[u8],
) -> io::Result<Tally> {
    let pair = Pair {
        own: &Message::sealed(editions.own, nonce, &LINE),
        other: &Message::sealed(editions.other, other_nonce, &OTHER_LINE),
    };
    let mut all = Tally::default();
    for way in WAYS {
        let tally = every_job(way, pair);
        println!(rt; "  {way}: {tally}")?;
        all = all + tally;
    }
    Ok(all)
}

// Offers every job of a way, in turn to a session for the one edition and to one for the other.
fn every_job(way: Way, pair: Pair) -> Tally {
    let mut tally = Tally::default();
    let mut x = SEED;
    for n in 0..way.jobs() {
        let turn = if n % 2 == 0 { pair } else { pair.turned() };
        tally = tally + play(way, n / 2, x, turn);
        x = next_job(x);
    }
    tally
}

// Offers the m'th job of a way to a session for its own edition.
fn play(way: Way, m: u32, seed: u64, pair: Pair) -> Tally {
    let mut run = Run::begun(pair, pair.whose(way.foreign_nonce(m)).nonce);
    let mut x = seed;
    for p in 0..16 {
        let had = run.accepted.body;
        run.offer(offered(way, m, p, had, x));
        x = next_piece(x);
    }
    run.close(way.ending(m, x))
}

impl<'a> Run<'a> {
    // A session that has accepted the note, begun with a nonce.
    fn begun(pair: Pair<'a>, nonce: &[u8]) -> Run<'a> {
        let edition = pair.own.edition;
        let mut run = Run {
            pair,
            session: start(true, nonce, edition),
            accepted: Accepted::none(nonce == pair.own.nonce),
        };
        run.piece(label(edition, Part::Note, 0), &NOTE);
        run
    }

    fn offer(&mut self, o: Offer) {
        let text: &[u8] = match o.part {
            Part::Note => &NOTE,
            Part::Body => &self.pair.whose(o.foreign_bytes).text,
            Part::Trailer => &TRAILER,
        };
        let said = self.pair.whose(o.foreign_label).edition;
        self.piece(label(said, o.part, o.offset), part(text, o.from, o.n));
    }

    // Offers a piece, and keeps what was accepted; where there are no bytes nothing is offered.
    fn piece(&mut self, label: Label, bytes: &[u8]) {
        if bytes.is_empty() {
            return;
        }
        let step = self.session.piece(label, bytes, &mut []);
        self.session = step.session;
        if step.answer.is_ok() {
            self.accepted.take(label.part, bytes, self.pair.own);
        }
    }

    // Offers the trailer, and closes the session. A job passed where the close is done; it is unmixed where all that was accepted, the tag and the close are the edition's own.
    fn close(&mut self, end: End) -> Tally {
        let own = self.pair.own;
        self.piece(label(own.edition, Part::Trailer, 0), &TRAILER);
        let said = self.pair.whose(end.foreign_close).edition;
        let tag = self.pair.whose(end.foreign_tag).tag();
        let session = self.session;
        let step = session.close(said, tag, &mut []);
        let unmixed = self.accepted.whole() && !end.foreign_close && tag == own.tag();
        Tally::one_job(unmixed, step.answer.is_ok())
    }
}
