// Long jobs of two editions, each sealed in two segments, which are mixed and offered to receivers.
use crate::cut::{Job, ROOM, nonce_length};
use crate::editions::Editions;
use crate::job::{LINE, NONCE, OTHER_LINE, OTHER_NONCE, part};
use crate::served::Served;
use crate::tally::Tally;
use places::terms::{Edition, Terms};
use std::io;

// Offers every job at a width, prints how they went, and gives them all together.
pub(crate) fn attack(rt: &impl Print, width: u32, e: Editions) -> io::Result<Tally> {
    let tally = either_nonce(width, 4, e) + either_nonce(width, 6, e);
    println!(rt; "  {}: {tally}", e.name)?;
    Ok(tally)
}

// The two editions with a nonce for each, and with one for both.
fn either_nonce(width: u32, rounds: u32, e: Editions) -> Tally {
    let mut own_room = [0; ROOM];
    let mut other_room = [0; ROOM];
    let n = nonce_length(width);
    let nonce = part(&NONCE, 0, n);
    let terms = |edition: Edition| Terms { rounds, edition };
    let own = Job::sealed(width, terms(e.own), nonce, &LINE, &mut own_room);
    let apart = Job::sealed(
        width,
        terms(e.other),
        part(&OTHER_NONCE, 0, n),
        &OTHER_LINE,
        &mut other_room,
    );
    let tally = under(nonce, &own, &apart) + under(apart.nonce, &own, &apart);
    let shared = Job::sealed(width, terms(e.other), nonce, &OTHER_LINE, &mut other_room);
    tally + under(nonce, &own, &shared)
}

// A receiver for each edition, started with that nonce.
fn under(nonce: &[u8], own: &Job, other: &Job) -> Tally {
    jobs(&Served::started(own, nonce), other) + jobs(&Served::started(other, nonce), own)
}

// Every two of the eight offers, one after the other. A receiver is a value: from what it is after the first offer, it goes on with each second one.
fn jobs(s: &Served, other: &Job) -> Tally {
    each_offer(s, other, |s| each_offer(s, other, twice_judged))
}

// The first segment or the last one, of the one edition or of the other, called the last or not: what comes of each.
fn each_offer<F: Fn(&Served) -> Tally>(s: &Served, other: &Job, judged: F) -> Tally
    requires { F.IsAlwaysCallable judged }
{
    let own = s.own;
    let mut tally = Tally::default();
    for sealed in [own.first, own.last, other.first, other.last] {
        tally = tally + judged(&s.offered(false, sealed)) + judged(&s.offered(true, sealed));
    }
    tally
}

// As a job by itself, and with the own last segment behind it.
fn twice_judged(s: &Served) -> Tally {
    s.verdict() + s.offered(true, s.own.last).verdict()
}
