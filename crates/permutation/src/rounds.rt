// P: rounds, one after another.
ghost use Rattle.std.specs.Prelude.{◌≡◌};
ghost use Rattle.norx.specs.Norx.{p_of};
ghost use Rattle.rules.specs.Rules.{rounds_of};

use super::round;
use words::state::State;
use words::word::Word;

// P: as many rounds as are asked, at 32 bits one at least: no way leads round the loop there, so that the compiler can keep each row in one register.
#[inline(always)]
pub fn permute<W: Word>(s: State<W>, rounds: u32) -> State<W>
    ensures { result ≡ p_of W.width (rounds_of W.width rounds) s }
{
    let mut t = s;
    for _ in 0..W::rounds_of(rounds) {
        t = round(t);
    }
    t
}
