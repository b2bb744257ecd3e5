// Whether an event cuts the refresh that runs, asked before the event's call.
ghost use Rattle.std.specs.Prelude.{◌≡◌};
ghost use Rattle.cuts.specs.Cuts as rule;
ghost use Rattle.event.specs.Events as events;

use capture::RESET;
use controller::{Drive, Uc8253};
use event::Event;
use rules::drive_at;

// The value of a reset event that asserts the line.
const ASSERTED: u8 = 1;

// The clock at which reset was asserted, the whole frames until then, and those of the whole refresh.
#[derive(Clone, Copy)]
pub struct Cut {
    pub at: u64,
    pub frames: u64,
    pub of: u64,
}

#[tactic(auto, unfolding(event::specs::Events::asserts))]
fn asserts(event: Event) -> bool
    ensures { result ≡ events.asserts event }
{
    event.kind == RESET && event.value == ASSERTED
}

// The refresh is cut where the call drives its first frames alone.
#[tactic(auto, unfolding(crate::specs::Cuts::cut_by))]
pub fn cut_by(p: Uc8253, event: Event) -> Option<Cut>
    ensures { result ≡ rule.cut_by event p }
{
    match drive_at(p, event.time, asserts(event)) {
        Drive::Nothing | Drive::Whole => None,
        Drive::First(frames) => Some(Cut {
            at: p.now.max(event.time),
            frames,
            of: p.waveform.frames(),
        }),
    }
}
