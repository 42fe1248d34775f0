// Reads calls from standard input, one a line, and writes a line for each: what the library answered and what it left behind. docs/VECTORS.md has the language.
#![tactic(auto)]

mod asked;
mod call;
mod fault;
mod input;
mod made;
mod names;
mod reading;
mod run;
mod show;
mod tell;

use asked::{BYTES_MOST, TEXTS_MOST};
use call::LINE_MOST;
use fault::Fault;
use run::Run;
use std::io::Read;

fn main(rt: HostRuntime) {
    if let Err(fault) = answer_all(&rt, &mut rt.stdin()) {
        let _ = eprintln!(rt; "vectors: {fault}");
    }
}

// Answers every line, until the input ends. A proved loop has to end, so it has a number of turns that no run uses up. All that a line may need stands here, so that no memory has to be asked for.
fn answer_all(rt: &(impl Print + Eprint), stdin: &mut impl Read) -> Result<(), Fault> {
    let mut chunk = [0; 65536];
    let mut line = [0; LINE_MOST + 1];
    let mut texts = [0; TEXTS_MOST];
    let mut out = [0; BYTES_MOST];
    let mut run = Run::new();
    for _ in 0..u64::MAX {
        let bytes = input::read(rt, stdin, &mut chunk);
        if bytes.is_empty() {
            break;
        }
        run.take(rt, bytes, &mut line, &mut texts, &mut out)?;
    }
    run.end(rt, &line, &mut texts, &mut out)
}
