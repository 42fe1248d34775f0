// The library's calls on segments, receivers and lists, their arguments in plain numbers and stretches of one memory. A flag is a number: 1 says yes, and any other no.
ghost use Rattle.std.specs.Prelude.{◌≡◌};
ghost use Rattle.dispatch.specs.Segments.{segment_call, segment_call_out, receiver_call, take_call, take_call_out, put_receiver_call, list_call, list_call_out};

use crate::{Words, low, stretch, terms};
use answers::{Outcome, Refusal};
use cutting::Waiting;
use held::receiver::{HeldReceiver, HeldReceiverStep};

// Seals a segment: width, rounds, key, nonce, job, revision, note, index, whether it is the last, body.
pub fn segment(a: Words, memory: &[u8], out: &mut [u8]) -> Outcome
    ensures outcome { result ≡ segment_call a memory.now out.old }
    ensures output { out.new ≡ segment_call_out a memory.now out.old }
{
    segments::seal(
        low(a.first),
        stretch(memory, 0, a.third),
        stretch(memory, a.third, a.fourth),
        terms(a.second, a.fifth, a.sixth),
        stretch(memory, a.fourth, a.seventh),
        a.eighth as u64,
        a.ninth == 1,
        stretch(memory, a.seventh, a.tenth),
        out,
    )
}

// Starts a receiver: width, which is 64 or else 32, rounds, key, nonce, job, revision.
pub fn receiver(a: Words, memory: &[u8]) -> HeldReceiverStep
    ensures { result ≡ receiver_call a memory.now }
{
    HeldReceiver::start(
        a.first == 64,
        stretch(memory, 0, a.third),
        stretch(memory, a.third, a.fourth),
        terms(a.second, a.fifth, a.sixth),
    )
}

// Takes a segment: note, whether it is the last, sealed segment.
pub fn take(a: Words, memory: &[u8], held: HeldReceiver, out: &mut [u8]) -> HeldReceiverStep
    ensures step { result ≡ take_call a memory.now held out.old }
    ensures output { out.new ≡ take_call_out a memory.now held out.old }
{
    held.take(
        stretch(memory, 0, a.first),
        a.second == 1,
        stretch(memory, a.first, a.third),
        out,
    )
}

// The same receiver, waiting elsewhere: index, whether it is complete, rounds.
pub fn put(a: Words, held: HeldReceiver) -> HeldReceiver
    ensures { result ≡ put_receiver_call a held }
{
    let waiting = Waiting {
        index: a.first as u64,
        complete: a.second == 1,
    };
    held.put(waiting, low(a.third))
}

// Writes a list: job, revision, bytes of the body.
pub fn list(a: Words, out: &mut [u8]) -> Result<(), Refusal>
    ensures answer { result ≡ list_call a out.old }
    ensures output { out.new ≡ list_call_out a out.old }
{
    lists::write_list(a.first as u64, a.second as u64, a.third as u64, out)
}
