// What is known of a dump after some words of its simulation.
ghost use Rattle.std.specs.Prelude.{◌≡◌};
ghost use Rattle.vcd_simulation.specs.Simulation as rule;

use vcd_bus::{Bus, quiet};

// What may come next.
#[derive(Clone, Copy)]
pub enum Wanted {
    // A simulation command.
    Command,
    // A value change of a section, or its end.
    Section,
    // Any word of a comment, or its end.
    Text,
    // The code of a vector or a real number with that level; and the same in a section. A level is a
    // number: what may not change, as callers of `feed` hand any in.
    Code(u8),
    SectionCode(u8),
    // The syntax was broken.
    Broken,
}

#[derive(Clone, Copy)]
pub struct Body {
    pub wanted: Wanted,
    // The last time.
    pub now: u64,
    pub bus: Bus,
}

// Before the first word.
pub fn begun() -> Body
    ensures { result ≡ rule.begun }
{
    Body {
        wanted: Wanted::Command,
        now: 0,
        bus: quiet(),
    }
}

// Whether a dump may end there.
pub fn is_over(b: Body) -> bool
    ensures { result ≡ rule.is_over b.wanted }
{
    matches!(b.wanted, Wanted::Command)
}
