// The calls by their names, the words that stand behind each, and the parts and the standings.
use places::{Part, Standing};

// Every call; `dispatch` knows a call by its number here.
#[derive(Clone, Copy, PartialEq, Eq)]
pub(crate) enum Call {
    Constants,
    Seal,
    Open,
    Sealing,
    Checking,
    Piece,
    Close,
    Check,
    Show,
    Put,
    Segment,
    Receiver,
    Take,
    Await,
    List,
    Read,
    Fields,
}

// What a word says: a number of 32 or of 64 bits, 0 or 1, bytes, a part, a standing, or the length of an output or how many fields.
#[derive(Clone, Copy)]
pub(crate) enum Kind {
    Short,
    Long,
    Flag,
    Bytes,
    Part,
    Standing,
    Length,
}

impl Call {
    pub(crate) fn named(word: &[u8]) -> Option<Call> {
        match word {
            b"constants" => Some(Call::Constants),
            b"seal" => Some(Call::Seal),
            b"open" => Some(Call::Open),
            b"sealing" => Some(Call::Sealing),
            b"checking" => Some(Call::Checking),
            b"piece" => Some(Call::Piece),
            b"close" => Some(Call::Close),
            b"check" => Some(Call::Check),
            b"show" => Some(Call::Show),
            b"put" => Some(Call::Put),
            b"segment" => Some(Call::Segment),
            b"receiver" => Some(Call::Receiver),
            b"take" => Some(Call::Take),
            b"await" => Some(Call::Await),
            b"list" => Some(Call::List),
            b"read" => Some(Call::Read),
            b"fields" => Some(Call::Fields),
            _ => None,
        }
    }

    // The kinds of the words behind the name.
    pub(crate) fn kinds(self) -> &'static [Kind] {
        use Kind::{Bytes, Flag, Length, Long, Part, Short, Standing};
        match self {
            Call::Constants => &[Short],
            Call::Seal | Call::Open => &[Short, Short, Bytes, Bytes, Bytes, Bytes, Bytes, Length],
            Call::Sealing | Call::Checking | Call::Receiver => {
                &[Short, Short, Bytes, Bytes, Long, Long]
            }
            Call::Piece => &[Long, Long, Part, Long, Bytes, Length],
            Call::Close => &[Long, Long, Length],
            Call::Check => &[Long, Long, Bytes],
            Call::Show => &[],
            Call::Put => &[Long, Long, Long, Short, Long, Long, Standing],
            Call::Segment => &[
                Short, Short, Bytes, Bytes, Long, Long, Bytes, Long, Flag, Bytes, Length,
            ],
            Call::Take => &[Bytes, Flag, Bytes, Length],
            Call::Await => &[Long, Flag, Short],
            Call::List => &[Long, Long, Long, Length],
            Call::Read => &[Bytes],
            Call::Fields => &[Bytes, Length],
        }
    }

    pub(crate) fn reports_runs(self) -> bool {
        matches!(
            self,
            Call::Seal | Call::Open | Call::Close | Call::Check | Call::Segment | Call::Take
        )
    }
}

// The number that `dispatch` has for a part.
pub(crate) fn part_number(word: &[u8]) -> Option<usize> {
    match word {
        b"note" => Some(0),
        b"body" => Some(1),
        b"trailer" => Some(2),
        _ => None,
    }
}

// The number that it has for a standing.
pub(crate) fn standing_number(word: &[u8]) -> Option<usize> {
    match word {
        b"closed" => Some(0),
        b"note" => Some(1),
        b"body" => Some(2),
        b"trailer" => Some(3),
        _ => None,
    }
}

pub(crate) fn standing_name(standing: Standing) -> &'static str {
    match standing {
        Standing::Closed => "closed",
        Standing::Open(Part::Note) => "note",
        Standing::Open(Part::Body) => "body",
        Standing::Open(Part::Trailer) => "trailer",
    }
}
