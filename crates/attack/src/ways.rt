// The ways in which jobs are offered.
use std::fmt;

#[derive(Clone, Copy)]
pub(crate) enum Way {
    // The first bytes of one edition and the rest of the other, in both orders, with either tag and under either nonce.
    Cut,
    // Two pieces of one edition in each other's place.
    Swapped,
    // A piece twice.
    Repeated,
    // A piece left out.
    Dropped,
    // Six pieces with bytes, offsets and labels changed at random, then the rest of the honest job.
    Random,
    // The honest job whole and in every cut into two, also with retries between that are refused.
    Honest,
}

pub(crate) const WAYS: [Way; 6] = [
    Way::Cut,
    Way::Swapped,
    Way::Repeated,
    Way::Dropped,
    Way::Random,
    Way::Honest,
];

impl fmt::Display for Way {
    fn fmt<W: fmt::Write>(&self, f: &mut fmt::Formatter<W>) -> fmt::Result {
        f.write_str(match self {
            Way::Cut => "first bytes of one, rest of the other",
            Way::Swapped => "two pieces swapped",
            Way::Repeated => "a piece repeated",
            Way::Dropped => "a piece dropped",
            Way::Random => "pieces changed at random",
            Way::Honest => "honest pieces, refused retries",
        })
    }
}

impl Way {
    // How many jobs a way has: half of them for sessions of the one edition, half of the other.
    pub(crate) fn jobs(self) -> u32 {
        match self {
            Way::Cut => 4800,
            Way::Swapped => 580,
            Way::Repeated | Way::Dropped => 104,
            Way::Random => 4000,
            Way::Honest => 1200,
        }
    }

    // Whether a session for the m'th job is begun with the nonce of the other edition.
    pub(crate) fn foreign_nonce(self, m: u32) -> bool {
        matches!(self, Way::Cut) && 1200 <= m
    }

    // The end of the m'th job of a way for one edition.
    pub(crate) fn ending(self, m: u32, x: u64) -> End {
        match self {
            Way::Cut => End {
                foreign_tag: m % 2 == 1,
                foreign_close: false,
            },
            Way::Random => End {
                foreign_tag: x % 4 == 0,
                foreign_close: x / 4 % 8 == 0,
            },
            Way::Swapped | Way::Repeated | Way::Dropped | Way::Honest => End::default(),
        }
    }
}

// How a job ends: with the tag of the other edition, or a close under it.
#[derive(Clone, Copy, Default)]
pub(crate) struct End {
    pub foreign_tag: bool,
    pub foreign_close: bool,
}
