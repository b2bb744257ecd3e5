// The end of a refresh over planes and states (mod.rs: finish): no buffer of numbers, a row at a time.
#![tactic(auto)]

ghost use Rattle.std.specs.Prelude.{◌≡◌, ◌++◌, take, drop};
ghost use Rattle.numbers.specs.Number.{panel_numbers};
ghost use Rattle.pixels.specs.Drive.{driven};

use glass::Transfers;
use numbers::{Mapping, row_of_numbers};
use pixels::drive;

// No row of a panel is longer.
const LONGEST: usize = 65_536;

// The states from a place on move by the transfers of their numbers.
fn drive_from(states: &mut [i64], at: usize, numbers: &[u8], t: Transfers)
    ensures { states.new
        ≡ take at states.old ++ driven t.ww t.kw t.wk t.kk numbers.now (drop at states.old) }
{
    if at <= states.len() {
        drive(&mut states[at..], numbers, t);
    }
}

// Every state moves by the transfer of its pixel's number, which is worked out from the planes, row by
// row of the panel. An entry with no pixel stays.
pub fn drive_panel(states: &mut [i64], old: &[u8], new: &[u8], p: Mapping, t: Transfers)
    ensures { states.new
        ≡ driven t.ww t.kw t.wk t.kk (panel_numbers p old.now new.now) states.old }
{
    let width = p.columns.count as usize;
    let mut row = [0u8; LONGEST];
    for y in 0..p.rows.count {
        row_of_numbers(&mut row, old, new, p, y);
        drive_from(states, y as usize * width, &row[..width], t);
    }
}
