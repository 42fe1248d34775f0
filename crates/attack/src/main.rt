// Tries to make a job of two revisions pass, and one of two jobs, at both widths, and counts what passes.
#![tactic(auto)]

mod accepted;
mod cut;
mod editions;
mod job;
mod message;
mod mixes;
mod offers;
mod order;
mod random;
mod served;
mod sessions;
mod tally;
mod ways;

use cut::row;
use editions::{Editions, JOBS, REVISIONS};
use job::{NONCE, OTHER_NONCE, part};
use std::io;
use tally::Tally;

fn main(rt: HostRuntime) -> io::Result<()> {
    in_pieces(&rt)?;
    in_segments(&rt)
}

fn in_pieces(rt: &impl Print) -> io::Result<()> {
    rt.print(
        "Two texts of 300 bytes, of two revisions of one job or of two jobs in one revision,\n\
         sealed under one key with 4 rounds, are mixed and offered to checking sessions. What\n\
         is offered passes when its close answers 0. It is unmixed when the bytes accepted are\n\
         all of the session's job and revision, whole and in their order, and the nonce, the\n\
         tag and the close are of these too. All else is mixed.\n",
    )?;
    let mut all = Tally::default();
    for editions in [REVISIONS, JOBS] {
        all = all + pieces_at(rt, 32, editions)? + pieces_at(rt, 64, editions)?;
    }
    all.print_all(rt)
}

fn pieces_at(rt: &impl Print, width: u32, editions: Editions) -> io::Result<Tally> {
    let name = editions.name;
    let nonce = part(&NONCE, 0, row(width));
    let other_nonce = part(&OTHER_NONCE, 0, row(width));
    println!(rt; "{width}-bit words, {name}, a nonce for each")?;
    let apart = sessions::attack(rt, editions, nonce, other_nonce)?;
    println!(rt; "{width}-bit words, {name}, one nonce for both")?;
    let shared = sessions::attack(rt, editions, nonce, nonce)?;
    Ok(apart + shared)
}

fn in_segments(rt: &impl Print) -> io::Result<()> {
    rt.print(
        "\nTwo texts of 65636 bytes of the same editions, each sealed in two segments with 4 and\n\
         with 6 rounds, are mixed and offered to receivers: every two segments, first or last,\n\
         of the one or the other, called the last or not; and the same with the right last one\n\
         behind them. What is offered passes when the receiver is complete. It is unmixed when\n\
         all that was handed out is the receiver's own text, whole, under its own nonce.\n",
    )?;
    let mut all = Tally::default();
    for width in [32, 64] {
        println!(rt; "{width}-bit words, in segments")?;
        all = all + mixes::attack(rt, width, REVISIONS)? + mixes::attack(rt, width, JOBS)?;
    }
    all.print_segments(rt)
}
