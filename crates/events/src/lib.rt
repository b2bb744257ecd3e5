// A run of events, ten bytes each (document 01, "The capture program"): each does what its call on
// the controller does, and what the reads gave is written into the lent answers.
//
// No function has a condition: places past the end of the bytes read as 0, and an answer for which
// there is no room is not kept.
#![tactic(auto)]

mod playing;
mod steps;

ghost use Rattle.std.specs.Prelude.{◌≡◌, ◌+◌, ◌*◌, ◌^◌, ◌<◌, set};
ghost use Rattle.base.specs.RefusalNumbers.{number_of};
ghost use Rattle.controller.specs.World.{world};
ghost use Rattle.controller.specs.Lent.{before, after, Gives, Done, Keeps};
ghost use Rattle.event.specs.Events as rule;
ghost use Rattle.streams.specs.InnerStretch as stretch;

use base::Refusal;
use capture::{EVENT_BYTES, NO_READ};
use controller::{Lent, Uc8253};
pub use event::{Event, event_at};
pub use playing::play;
pub use steps::{Stepped, read_number, step};
use streams::stream;

// The record after a run, and the first refusal of an event, if there was one.
#[derive(Clone, Copy)]
pub struct Ran {
    pub chip: Uc8253,
    pub refused: Option<Refusal>,
}

// Entry i becomes x; past the end nothing is put.
fn put(answers: &mut [u16], i: usize, x: u16)
    ensures { answers.new ≡ set answers.old i x }
{
    if i < answers.len() {
        answers[i] = x;
    }
}

// So many answers from a place on become that of an event that reads nothing.
fn mark(answers: &mut [u16], from: usize, count: usize)
    requires { from + count < 2 ^ 64 }
    ensures { answers.new ≡ stretch.marked from count answers.old }
{
    let mut k: usize = 0;
    while k < count {
        put(answers, from + k, NO_READ);
        k += 1;
    }
}

// The record after some events, their first refusal, and how many there were.
#[derive(Clone, Copy)]
struct Went {
    chip: Uc8253,
    refused: Option<Refusal>,
    done: usize,
}

// The next events: those of a run of pixel bytes, else one.
fn next_events(
    p: Uc8253,
    events: &[u8],
    from: usize,
    answers: &mut [u16],
    lent: &mut Lent<'_>,
) -> Went
    requires { from < rule.events_in events.now }
    ensures goes { stretch.Goes events.now from result.done (world p (before lent))
        (world result.chip (after lent)) answers.old answers.new
        (number_of result.refused) }
    ensures kept { Keeps lent }
{
    let (old, new, states, picture, rows) = (
        &mut *lent.old,
        &mut *lent.new,
        &mut *lent.states,
        &mut *lent.picture,
        &mut *lent.rows,
    );
    let f = stream(p, events, from, old, new, states, picture, rows);
    let chip = f.chip;
    if f.done != 0 {
        mark(answers, from, f.done);
        return Went {
            chip,
            refused: None,
            done: f.done,
        };
    }
    let event = event_at(events, from);
    let s = step(chip, event, lent);
    put(answers, from, s.answer);
    Went {
        chip: s.chip,
        refused: s.refused,
        done: 1,
    }
}

// All whole events of the bytes, one after the other: a refused one changes nothing, and the run goes on.
pub fn run(p: Uc8253, events: &[u8], answers: &mut [u16], lent: &mut Lent<'_>) -> Ran
    ensures done { Done (rule.ran events.now) (rule.refused events.now) p result.chip (number_of result.refused) lent }
    ensures gives { Gives (rule.answers events.now answers.old) p answers.new lent }
    ensures kept { Keeps lent }
{
    let count = events.len() / EVENT_BYTES;
    let mut chip = p;
    let mut refused = None;
    let mut i: usize = 0;
    while i < count {
        let s = next_events(chip, events, i, answers, lent);
        chip = s.chip;
        refused = refused.or(s.refused);
        i += s.done;
    }
    Ran { chip, refused }
}
