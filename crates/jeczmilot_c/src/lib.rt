// The C library: the symbols that include/jeczmilot.h declares, each of which is the function of jeczmilot with that name, under the same clauses.
#![tactic(auto)]

ghost use Rattle.std.specs.Prelude.{◌≡◌};
ghost use Rattle.answers.specs.Answers.{number_of};
ghost use Rattle.sealing.specs.Widths.{seal_answer_at, seal_runs_at, seal_out_at, open_answer_at, open_runs_at, open_out_at};
ghost use Rattle.sealing.specs.Promises.{SealsAt, OpensAt};
ghost use Rattle.segments.specs.Segments.{segment_answer_at, segment_runs_at, segment_out_at, take_answer_at, take_runs_at, take_out_at};
ghost use Rattle.lists.specs.Written.{list_length, write_answer, write_out};
ghost use Rattle.jeczmilot.specs.Numbers.{yes, terms_of, waiting_of};
ghost use Rattle.jeczmilot.specs.Readings.{ReadAsNumbers};

use jeczmilot::{ListNumbers, OutcomeNumbers};

// Seals a body at the width given as a number.
#[unsafe(no_mangle)]
pub extern "C" fn norx_seal(
    width: u32,
    rounds: u32,
    key: &[u8],
    nonce: &[u8],
    header: &[u8],
    body: &[u8],
    trailer: &[u8],
    out: &mut [u8],
) -> OutcomeNumbers
    ensures answer { result.answer ≡ number_of (seal_answer_at width rounds key.now nonce.now header.now body.now trailer.now out.old) }
    ensures runs { result.runs ≡ seal_runs_at width rounds key.now nonce.now header.now body.now trailer.now out.old }
    ensures output { out.new ≡ seal_out_at width rounds key.now nonce.now header.now body.now trailer.now out.old }
    ensures promise { SealsAt width rounds key.now nonce.now header.now body.now trailer.now out.old result.answer result.runs out.new }
{
    jeczmilot::norx_seal(width, rounds, key, nonce, header, body, trailer, out)
}

// Opens a sealed text at the width given as a number.
#[unsafe(no_mangle)]
pub extern "C" fn norx_open(
    width: u32,
    rounds: u32,
    key: &[u8],
    nonce: &[u8],
    header: &[u8],
    sealed: &[u8],
    trailer: &[u8],
    out: &mut [u8],
) -> OutcomeNumbers
    ensures answer { result.answer ≡ number_of (open_answer_at width rounds key.now nonce.now header.now sealed.now trailer.now out.old) }
    ensures runs { result.runs ≡ open_runs_at width rounds key.now nonce.now header.now sealed.now trailer.now out.old }
    ensures output { out.new ≡ open_out_at width rounds key.now nonce.now header.now sealed.now trailer.now out.old }
    ensures promise { OpensAt width rounds key.now nonce.now header.now sealed.now trailer.now out.old result.answer result.runs out.new }
{
    jeczmilot::norx_open(width, rounds, key, nonce, header, sealed, trailer, out)
}

// Seals a segment of a job at the width given as a number; of last, 0 is no and every other number yes.
#[unsafe(no_mangle)]
pub extern "C" fn norx_segment_seal(
    width: u32,
    rounds: u32,
    key: &[u8],
    nonce: &[u8],
    job: u64,
    revision: u64,
    note: &[u8],
    index: u64,
    last: u32,
    body: &[u8],
    out: &mut [u8],
) -> OutcomeNumbers
    ensures answer { result.answer ≡ number_of (segment_answer_at width key.now nonce.now (terms_of rounds job revision) note.now index (yes last) body.now out.old) }
    ensures runs { result.runs ≡ segment_runs_at width key.now nonce.now (terms_of rounds job revision) note.now index (yes last) body.now out.old }
    ensures output { out.new ≡ segment_out_at width key.now nonce.now (terms_of rounds job revision) note.now index (yes last) body.now out.old }
{
    jeczmilot::norx_segment_seal(
        width, rounds, key, nonce, job, revision, note, index, last, body, out,
    )
}

// Opens the segment of a job that is awaited, at the width given as a number; of complete and last, 0 is no and every other number yes.
#[unsafe(no_mangle)]
pub extern "C" fn norx_segment_open(
    width: u32,
    rounds: u32,
    key: &[u8],
    nonce: &[u8],
    job: u64,
    revision: u64,
    note: &[u8],
    index: u64,
    complete: u32,
    last: u32,
    sealed: &[u8],
    out: &mut [u8],
) -> OutcomeNumbers
    ensures answer { result.answer ≡ number_of (take_answer_at width key.now nonce.now (terms_of rounds job revision) note.now (waiting_of index complete) (yes last) sealed.now out.old) }
    ensures runs { result.runs ≡ take_runs_at width key.now nonce.now (terms_of rounds job revision) note.now (waiting_of index complete) (yes last) sealed.now out.old }
    ensures output { out.new ≡ take_out_at width key.now nonce.now (terms_of rounds job revision) note.now (waiting_of index complete) (yes last) sealed.now out.old }
{
    jeczmilot::norx_segment_open(
        width, rounds, key, nonce, job, revision, note, index, complete, last, sealed, out,
    )
}

// How long the list of a body of so many bytes is; 0 where it has none.
#[unsafe(no_mangle)]
pub extern "C" fn norx_list_length(job: u64, revision: u64, body: u64) -> usize
    ensures { result ≡ list_length job revision body }
{
    jeczmilot::norx_list_length(job, revision, body)
}

// Writes the list of a body of so many bytes; the answer is its number.
#[unsafe(no_mangle)]
pub extern "C" fn norx_list_write(job: u64, revision: u64, body: u64, out: &mut [u8]) -> u32
    ensures answer { result ≡ number_of (write_answer job revision body out.old) }
    ensures output { out.new ≡ write_out job revision body out.old }
{
    jeczmilot::norx_list_write(job, revision, body, out)
}

// Reads a text as a list.
#[unsafe(no_mangle)]
pub extern "C" fn norx_list_read(text: &[u8]) -> ListNumbers
    ensures { ReadAsNumbers text.now result }
{
    jeczmilot::norx_list_read(text)
}
