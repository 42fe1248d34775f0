// What a session is begun for, and which edition a session, a piece or a close is of.
ghost use Rattle.std.specs.Prelude.{◌≡◌};
ghost use Rattle.places.specs.Terms.{terms_ok, of_edition};

use answers::{Refusal, need};
use rules::rounds_ok;

// Which job, and which revision of it, a session, a piece or a close is of.
#[derive(Clone, Copy, Default)]
pub struct Edition {
    pub job: u64,
    pub revision: u64,
}

// What a session is begun for.
#[derive(Clone, Copy, Default)]
pub struct Terms {
    pub rounds: u32,
    pub edition: Edition,
}

// Whether a sound session may have these terms: the rounds are 4 or 6.
pub(crate) fn terms_ok(terms: Terms) -> bool
    ensures { result ≡ terms_ok terms }
{
    rounds_ok(terms.rounds)
}

// What an edition that is given is answered: 12, 6, else 0.
#[tactic(auto, unfolding(crate::specs::Terms::of_edition, answers::specs::Answers::need_of))]
pub(crate) fn of_edition(given: Edition, own: Edition) -> Result<(), Refusal>
    ensures { result ≡ of_edition given own }
{
    need(given.job == own.job, Refusal::OtherJob)?;
    need(given.revision == own.revision, Refusal::OtherRevision)
}
