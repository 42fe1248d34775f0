// A body through a session in pieces beside one call on the same bytes: what each gives or, where the word `measure` asks for it, how long each takes.
#![tactic(auto)]

mod buffers;
mod compare;
mod job;
mod measure;
mod one_call;
mod pieces;

use buffers::Buffers;
use compare::compare;
use job::{BODY, Line, SEALED, Work};
use measure::measure;
use std::env::Env;
use std::io;

fn main(rt: HostRuntime) -> io::Result<()> {
    let mut buffers = Buffers {
        body: [0x5a; BODY],
        sealed: [0; SEALED],
        out: [0; SEALED],
    };
    if asked(&rt) {
        each_line(&mut buffers, |line, buffers| measure(&rt, line, buffers))
    } else {
        each_line(&mut buffers, |line, buffers| compare(&rt, line, buffers))
    }
}

// Whether the program is started with the word that asks for times.
fn asked(rt: &impl Env) -> bool {
    let mut word = [0; 4096];
    match rt.arg(1, &mut word) {
        Ok(n) => matches!(&word[..n], b"measure"),
        Err(_) => false,
    }
}

// Prints every line: both widths, each with both rounds.
fn each_line<F: Fn(Line, &mut Buffers) -> io::Result<()>>(
    buffers: &mut Buffers,
    print: F,
) -> io::Result<()>
    requires { F.IsAlwaysCallable print }
{
    for width in [32, 64] {
        both_works(width, 4, &mut *buffers, &print)?;
        both_works(width, 6, &mut *buffers, &print)?;
    }
    Ok(())
}

// What is sealed is then checked.
fn both_works<F: Fn(Line, &mut Buffers) -> io::Result<()>>(
    width: u32,
    rounds: u32,
    buffers: &mut Buffers,
    print: F,
) -> io::Result<()>
    requires { F.IsAlwaysCallable print }
{
    for work in [Work::Seal, Work::Check] {
        let line = Line {
            width,
            rounds,
            work,
        };
        print(line, buffers)?;
    }
    Ok(())
}
