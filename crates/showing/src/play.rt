// A capture that was read, through the controller: its refusals, the making, and then its events.
ghost use Rattle.std.specs.Prelude.{◌≡◌};
ghost use Rattle.base.specs.RefusalNumbers.{number_of, number_in};
ghost use Rattle.capture.specs.Reading.{Reads};
ghost use Rattle.controller.specs.Lent.{before, Makes, Keeps};
ghost use Rattle.showing.specs.Played as rule;

use crate::is_panel;
use base::Refusal;
use capture::{Capture, too_many};
use controller::{Lent, Uc8253};
use output::Form;

// What turned the file back, else, for `panel`, 10 for a panel that is too large.
fn refusal(form: Form, c: Capture) -> Result<(), Refusal>
    ensures { number_in result ≡ rule.number_for form (number_of c.refused) c.config }
{
    match c.refused {
        Some(refused) => Err(refused),
        None if is_panel(form) && too_many(c.config) => Err(Refusal::TooManyPixels),
        None => Ok(()),
    }
}

// What turns the file back, if anything does, before a making.
pub fn tested(form: Form, file: &[u8]) -> Result<(), Refusal>
    ensures { number_in result ≡ rule.tested_by form file.now }
{
    refusal(form, capture::read(file))
}

// The file's tests, then 5 for what is lent; the making; its events.
pub(crate) fn play(
    form: Form,
    file: &[u8],
    c: Capture,
    answers: &mut [u16],
    lent: &mut Lent<'_>,
) -> Result<Uc8253, Refusal>
    requires { Reads file.now c }
    ensures makes { Makes (rule.played form file.now) (rule.play_refused form file.now) result lent }
    ensures answers_after { answers.new ≡ rule.answers_played form file.now (before lent) answers.old }
    ensures kept { Keeps lent }
{
    refusal(form, c)?;
    events::play(c.config, &file[..c.end], answers, lent)
}
