// How long one call and pieces take.
use crate::buffers::Buffers;
use crate::job::Line;
use answers::Refusal;
use std::io;
use std::time::CpuClock;

const TURNS: u32 = 200;

// Microseconds of processor time, the least of all turns.
#[derive(Clone, Copy)]
struct Best {
    one_call: u64,
    pieces: u64,
}

// Prints the times of both ways.
pub(crate) fn measure(
    rt: &(impl Print + CpuClock),
    line: Line,
    buffers: &mut Buffers,
) -> io::Result<()> {
    let Best { one_call, pieces } = turns(rt, line, buffers);
    println!(rt; "{line} {one_call} {pieces}")
}

// Both ways, which take turns at being first.
fn turns(rt: &impl CpuClock, line: Line, buffers: &mut Buffers) -> Best {
    let mut best = Best {
        one_call: u64::MAX,
        pieces: u64::MAX,
    };
    for i in 0..TURNS {
        if i % 2 == 0 {
            best.one_call(rt, line, buffers);
            best.pieces(rt, line, buffers);
        } else {
            best.pieces(rt, line, buffers);
            best.one_call(rt, line, buffers);
        }
    }
    best
}

impl Best {
    fn one_call(&mut self, rt: &impl CpuClock, line: Line, buffers: &mut Buffers) {
        self.one_call = least(self.one_call, timed(rt, || buffers.in_one_call(line)));
    }

    fn pieces(&mut self, rt: &impl CpuClock, line: Line, buffers: &mut Buffers) {
        self.pieces = least(self.pieces, timed(rt, || buffers.in_pieces(line)));
    }
}

fn least(best: u64, time: Option<u64>) -> u64 {
    time.map_or(best, |t| t.min(best))
}

// How long a work takes; none where it is refused.
fn timed<F: FnOnce() -> Result<(), Refusal>>(rt: &impl CpuClock, work: F) -> Option<u64>
    requires { F.IsAlwaysCallable work }
{
    let begin = now(rt);
    let answer = work();
    let end = now(rt);
    if answer.is_ok() {
        end.checked_sub(begin)
    } else {
        None
    }
}

// The processor time so far, in microseconds, or 0 where the system does not tell it.
fn now(rt: &impl CpuClock) -> u64 {
    match rt.process_cpu_time() {
        Ok(d) => u64::try_from(d.as_micros()).unwrap_or(0),
        Err(_) => 0,
    }
}
