// How many jobs were offered, and how many passed.
use std::ops::Add;
use std::{fmt, io};

#[derive(Clone, Copy, Default)]
pub(crate) struct Count {
    pub offered: u64,
    pub passed: u64,
}

impl Add for Count {
    type Output = Count;

    fn add(self, other: Count) -> Count {
        Count {
            offered: self.offered.saturating_add(other.offered),
            passed: self.passed.saturating_add(other.passed),
        }
    }
}

#[derive(Clone, Copy, Default)]
pub(crate) struct Tally {
    pub mixed: Count,
    pub unmixed: Count,
}

impl Add for Tally {
    type Output = Tally;

    fn add(self, other: Tally) -> Tally {
        Tally {
            mixed: self.mixed + other.mixed,
            unmixed: self.unmixed + other.unmixed,
        }
    }
}

impl fmt::Display for Tally {
    fn fmt<W: fmt::Write>(&self, f: &mut fmt::Formatter<W>) -> fmt::Result {
        let Tally { mixed, unmixed } = *self;
        write!(f, "{} mixed, {} passed; ", mixed.offered, mixed.passed)?;
        write!(f, "{} unmixed, {} passed", unmixed.offered, unmixed.passed)
    }
}

impl Tally {
    pub(crate) fn one_job(is_unmixed: bool, passed: bool) -> Tally {
        let one = Count {
            offered: 1,
            passed: u64::from(passed),
        };
        let none = Count::default();
        let (mixed, unmixed) = if is_unmixed { (none, one) } else { (one, none) };
        Tally { mixed, unmixed }
    }

    pub(crate) fn print_all(self, rt: &impl Print) -> io::Result<()> {
        let Tally { mixed, unmixed } = self;
        println!(rt; "Of {} mixed jobs {} passed.", mixed.offered, mixed.passed)?;
        println!(rt;
            "Of {} unmixed jobs (whole, in every cut into two, in small pieces, with refused",
            unmixed.offered
        )?;
        println!(rt; "retries between) {} passed.", unmixed.passed)
    }

    pub(crate) fn print_segments(self, rt: &impl Print) -> io::Result<()> {
        let Tally { mixed, unmixed } = self;
        println!(rt;
            "Of {} mixed jobs in segments {} passed.",
            mixed.offered, mixed.passed
        )?;
        println!(rt;
            "Of {} unmixed jobs in segments (with a refused one between) {} passed.",
            unmixed.offered, unmixed.passed
        )
    }
}
