// Which two editions are mixed.
use places::terms::Edition;

// The edition that a session is for, the other one, and what both are called.
#[derive(Clone, Copy)]
pub(crate) struct Editions {
    pub name: &'static str,
    pub own: Edition,
    pub other: Edition,
}

pub(crate) const REVISIONS: Editions = Editions {
    name: "revisions 11 and 12 of job 7",
    own: Edition {
        job: 7,
        revision: 11,
    },
    other: Edition {
        job: 7,
        revision: 12,
    },
};

pub(crate) const JOBS: Editions = Editions {
    name: "jobs 7 and 8 in revision 3",
    own: Edition {
        job: 7,
        revision: 3,
    },
    other: Edition {
        job: 8,
        revision: 3,
    },
};
