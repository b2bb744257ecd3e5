// The areas that the registers give, held to the RAM: document 01, "A data byte".
ghost use Rattle.std.specs.Prelude.{◌≡◌, min};
ghost use Rattle.registers.specs.Written.{last_of, active_of, written_of};

use crate::{Area, LAST_COLUMN, LAST_ROW, Registers};

// The last of `size` places from `start`, held to `most`; a size of 0 counts as 1.
fn last(start: u16, size: u16, most: u16) -> u16
    ensures { result ≡ min (last_of start size) most }
{
    start.saturating_add(size.max(1) - 1).min(most)
}

impl Registers {
    // The active area that `TRES` and `GSST` set, within the RAM.
    #[tactic(auto, unfolding(crate::specs::Written::active_of))]
    pub fn active(self) -> Area
        ensures { result ≡ active_of self }
    {
        Area {
            x0: self.start.h.min(LAST_COLUMN),
            y0: self.start.v.min(LAST_ROW),
            x1: last(self.start.h, self.resolution.h, LAST_COLUMN),
            y1: last(self.start.v, self.resolution.v, LAST_ROW),
        }
    }

    // The area that a pixel stream fills.
    #[tactic(auto, unfolding(crate::specs::Written::written_of))]
    pub fn written(self) -> Area
        ensures { result ≡ written_of self }
    {
        if self.partial {
            self.window
        } else {
            self.active()
        }
    }
}
