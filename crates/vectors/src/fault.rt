// Why a line is not answered.
use std::{fmt, io};

#[derive(Debug, Drop)]
pub(crate) enum Fault {
    NoCall,
    Unwritten,
}

impl fmt::Display for Fault {
    fn fmt<W: fmt::Write>(&self, f: &mut fmt::Formatter<W>) -> fmt::Result {
        match self {
            Fault::NoCall => write!(f, "the line is no call"),
            Fault::Unwritten => write!(f, "standard output cannot be written"),
        }
    }
}

impl From<io::Error> for Fault {
    fn from(_e: io::Error) -> Fault {
        Fault::Unwritten
    }
}
