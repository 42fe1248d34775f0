// How what is printed reads: editions, texts, pieces and answers.
use answers::{Refusal, number};
use places::terms::Edition;
use places::{Label, Part};
use std::fmt;

// 7/12 is revision 12 of job 7.
#[derive(Clone, Copy)]
pub(crate) struct Named(pub Edition);

impl fmt::Display for Named {
    fn fmt<W: fmt::Write>(&self, f: &mut fmt::Formatter<W>) -> fmt::Result {
        write!(f, "{}/{}", self.0.job, self.0.revision)
    }
}

// A text on one line: "/" stands for the end of each of its lines.
#[derive(Clone, Copy)]
pub(crate) struct OnOneLine<'a>(pub &'a [u8]);

impl fmt::Display for OnOneLine<'_> {
    fn fmt<W: fmt::Write>(&self, f: &mut fmt::Formatter<W>) -> fmt::Result {
        for b in self.0 {
            f.write_char(if *b == b'\n' { '/' } else { char::from(*b) })?;
        }
        Ok(())
    }
}

// What a piece says of itself.
#[derive(Clone, Copy)]
pub(crate) struct Said(pub Label);

impl fmt::Display for Said {
    fn fmt<W: fmt::Write>(&self, f: &mut fmt::Formatter<W>) -> fmt::Result {
        let part = match self.0.part {
            Part::Note => "note",
            Part::Body => "body",
            Part::Trailer => "trailer",
        };
        write!(
            f,
            "{}, {part} from {}",
            Named(self.0.edition),
            self.0.offset
        )
    }
}

// The number of an answer and what it means.
#[derive(Clone, Copy)]
pub(crate) struct Answered(pub Result<(), Refusal>);

impl fmt::Display for Answered {
    fn fmt<W: fmt::Write>(&self, f: &mut fmt::Formatter<W>) -> fmt::Result {
        let n = number(self.0);
        match self.0 {
            Ok(()) => write!(f, "{n}, done"),
            Err(refusal) => write!(f, "{n}, refused: {refusal}"),
        }
    }
}
