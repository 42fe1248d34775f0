// The run so far: the session and the receiver that are kept, and how many bytes are there of the line that is being read.
use crate::call::answer;
use crate::fault::Fault;
use dispatch::kept::Kept;
use held::Held;
use held::receiver::HeldReceiver;

#[derive(Clone, Copy)]
pub(crate) struct Run {
    kept: Kept,
    gathered: usize,
}

impl Run {
    pub(crate) fn new() -> Run {
        let kept = Kept {
            session: Held::closed(false, true),
            receiver: HeldReceiver::none(true),
        };
        Run { kept, gathered: 0 }
    }

    // Takes what a read brought: a newline ends a line, and any other byte is gathered as far as the line has room, which the byte that shows that it is too long has too.
    pub(crate) fn take(
        &mut self,
        rt: &impl Print,
        bytes: &[u8],
        line: &mut [u8],
        texts: &mut [u8],
        out: &mut [u8],
    ) -> Result<(), Fault> {
        for b in bytes {
            if *b == b'\n' {
                self.answer(rt, line, &mut *texts, &mut *out)?;
            } else if let Some(next) = line.get_mut(self.gathered) {
                *next = *b;
                self.gathered = self.gathered.saturating_add(1);
            }
        }
        Ok(())
    }

    // Takes the end of the input: a last line needs no newline.
    pub(crate) fn end(
        &mut self,
        rt: &impl Print,
        line: &[u8],
        texts: &mut [u8],
        out: &mut [u8],
    ) -> Result<(), Fault> {
        if self.gathered == 0 {
            return Ok(());
        }
        self.answer(rt, line, texts, out)
    }

    fn answer(
        &mut self,
        rt: &impl Print,
        line: &[u8],
        texts: &mut [u8],
        out: &mut [u8],
    ) -> Result<(), Fault> {
        let text = line.get(..self.gathered).unwrap_or(&[]);
        self.gathered = 0;
        answer(rt, text, &mut self.kept, texts, out)
    }
}
