// A making, and then a run of events, one call after the other.
ghost use Rattle.std.specs.Prelude.{◌≡◌};
ghost use Rattle.controller.specs.TurnedBack.{making_refused};
ghost use Rattle.controller.specs.Lent.{before, Makes, Keeps};
ghost use Rattle.events.specs.Played as rule;

use crate::run;
use base::Refusal;
use config::Uc8253Config;
use controller::{Lent, Uc8253};
use uc8253::power_on;

// The record after the last event; of a refused making no event is run.
pub fn play(
    config: Uc8253Config,
    events: &[u8],
    answers: &mut [u16],
    lent: &mut Lent<'_>,
) -> Result<Uc8253, Refusal>
    ensures makes { Makes (rule.played config events.now) (making_refused config) result lent }
    ensures answers_after { answers.new
        ≡ rule.answers_played config events.now (before lent) answers.old }
    ensures kept { Keeps lent }
{
    let chip = power_on(config, lent)?;
    let ran = run(chip, events, answers, lent);
    Ok(ran.chip)
}
