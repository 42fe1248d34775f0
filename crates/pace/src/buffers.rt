// The buffers that the works are done on, in one call and in pieces.
use crate::job::{BODY, Line, SEALED};
use crate::one_call::row;
use crate::{one_call, pieces};
use answers::Refusal;

// One call seals the body into sealed, and pieces into out; sealed is what is checked, and one call opens it into out. Both have room for the longer tag.
#[derive(Drop)]
pub(crate) struct Buffers {
    pub body: [u8; BODY],
    pub sealed: [u8; SEALED],
    pub out: [u8; SEALED],
}

impl Buffers {
    pub(crate) fn in_one_call(&mut self, line: Line) -> Result<(), Refusal> {
        let n = BODY + row(line.width);
        let sealed = &mut self.sealed[..];
        let out = &mut self.out[..];
        one_call::run(line, &self.body, &mut sealed[..n], &mut out[..n])
    }

    pub(crate) fn in_pieces(&mut self, line: Line) -> Result<(), Refusal> {
        let n = BODY + row(line.width);
        let sealed = &self.sealed[..n];
        let out = &mut self.out[..];
        if line.width == 32 {
            pieces::run::<u32>(line, &self.body, sealed, &mut out[..n])
        } else {
            pieces::run::<u64>(line, &self.body, sealed, &mut out[..n])
        }
    }

    // Whether one call and pieces sealed to the same bytes.
    pub(crate) fn are_alike(&self) -> bool {
        self.sealed[..] == self.out[..]
    }
}
