// The questions, which change nothing, and the taking of the rows.
#![tactic(auto)]

ghost use Rattle.std.specs.Prelude.{◌≡◌, true, false, ℕ, None};
ghost use Rattle.base.specs.RefusalNumbers.{number_in, given};
ghost use Rattle.controller.specs.World.{Buffers, world};
ghost use Rattle.controller.specs.Setters.{with_old, with_new, with_states, with_picture, with_rows};
ghost use Rattle.controller.specs.TurnedBack as tests;
ghost use Rattle.controller.specs.Calls as calls;
ghost use Rattle.controller.specs.Ask.{did, refused_by, answered};
ghost use Rattle.controller.specs.Ask as ask;
ghost use Rattle.controller.specs.Lent.{TurnsRows, Asked};

use base::Refusal;
use controller::{Uc8253, Work};
use diagnostic_log::{ROWS, taken};
use pixels::{all_states, draw_wide};
use ram::PLANE;
use rules::{busy_at, foreign};

// The record after the rows are taken, and how many there were.
#[derive(Clone, Copy)]
pub struct Taken {
    pub chip: Uc8253,
    pub count: u16,
}

// 6, then 5 for what is lent.
fn lent_refused(p: Uc8253, fits: bool) -> Result<(), Refusal>
    ensures { number_in result ≡ tests.lent_refused p fits }
{
    if foreign(p) {
        return Err(Refusal::ForeignRecord);
    }
    if fits {
        return Ok(());
    }
    Err(Refusal::BufferLength)
}

// The rows since the last taking, oldest first, are the first of the lent numbers, five a row.
pub fn take_diagnostics(p: Uc8253, rows: &[u64]) -> Result<Taken, Refusal>
    ensures turns_rows { TurnsRows (did ask.taking) p (given (λ (t : Taken). t.chip) p result) rows }
    ensures asked { (b : Buffers) → Asked ask.taking p (with_rows rows.now b) (number_in result)
        (ask.count (given (λ (t : Taken). t.count) 0 result)) }
{
    lent_refused(p, rows.len() == ROWS)?;
    let mut chip = p;
    chip.log = taken(p.log);
    Ok(Taken {
        chip,
        count: p.log.stored,
    })
}

// Whether `BUSY_N` is low at a time: the chip works or `RST_N` is low.
pub fn busy_pin(p: Uc8253, at: u64) -> Result<bool, Refusal>
    ensures { (b : Buffers) → Asked (ask.ask_busy at) p b (number_in result) (ask.low (given (λ low. low) false result)) }
{
    if foreign(p) {
        return Err(Refusal::ForeignRecord);
    }
    Ok(busy_at(p.mode, p.operation, at))
}

fn due_of(work: Work, until: u64) -> Option<u64>
    ensures { result ≡ calls.due_of work until }
{
    match work {
        Work::Nothing => None,
        Work::PowerOn => Some(until),
        Work::PowerOff => Some(until),
        Work::DeepSleep => Some(until),
        Work::SoftReset => Some(until),
        Work::HardwareReset => Some(until),
        Work::Refresh(_) => Some(until),
    }
}

// The next time that `BUSY_N` rises or a picture is published.
pub fn next_deadline(p: Uc8253) -> Result<Option<u64>, Refusal>
    ensures { (b : Buffers) → Asked ask.ask_deadline p b (number_in result) (ask.due (given (λ due. due) None result)) }
{
    if foreign(p) {
        return Err(Refusal::ForeignRecord);
    }
    Ok(due_of(p.operation.work, p.operation.until))
}

// A pixel of the lent plane, the old one or the new, nothing past the RAM.
pub fn ram_bit(p: Uc8253, plane: &[u8], x: u16, y: u16) -> Result<Option<u8>, Refusal>
    ensures asked { (b : Buffers) → Asked (ask.ask_bit true x y) p (with_old plane.now b) (number_in result)
        (ask.bit (given (λ found. found) None result)) }
    ensures asked_2 { (b : Buffers) → Asked (ask.ask_bit false x y) p (with_new plane.now b) (number_in result)
        (ask.bit (given (λ found. found) None result)) }
{
    lent_refused(p, plane.len() == PLANE)?;
    Ok(ram::ram_bit(plane, x, y))
}

// The refusal of the question for a row.
pub fn row_refused(p: Uc8253, picture: &[u8]) -> Result<(), Refusal>
    ensures { (y : ℕ) (b : Buffers)
        → number_in result ≡ refused_by (ask.ask_row y) (world p (with_picture picture.now b)) }
{
    let pixels = p.config.panel.sources as usize * p.config.panel.gates as usize;
    lent_refused(p, picture.len() == pixels)
}

// A row of the picture: that part of what is lent; an empty part for a row past the last, or where
// the question is refused.
pub fn row(p: Uc8253, picture: &[u8], y: u16) -> &[u8]
    ensures { (b : Buffers) → ask.part result.now ≡ answered (ask.ask_row y) (world p (with_picture picture.now b)) }
{
    let Ok(()) = row_refused(p, picture) else {
        return &picture[0..0];
    };
    if p.config.panel.gates <= y {
        return &picture[0..0];
    }
    let width = p.config.panel.sources as usize;
    let at = y as usize * width;
    &picture[at..at + width]
}

// 6; 5 for the states and the buffer, which has room for so many; the states by 7.
fn wide_refused(p: Uc8253, states: &[i64], room: usize) -> Result<(), Refusal>
    ensures { number_in result ≡ calls.wide_refused p states.now room }
{
    if foreign(p) {
        return Err(Refusal::ForeignRecord);
    }
    let pixels = p.config.panel.sources as usize * p.config.panel.gates as usize;
    if states.len() != pixels {
        return Err(Refusal::BufferLength);
    }
    if room != pixels {
        return Err(Refusal::BufferLength);
    }
    if all_states(states, p.config.optics.full_swing) {
        return Ok(());
    }
    Err(Refusal::ForeignContents)
}

// The picture of the states at a top, 0 standing for 255, into the lent buffer; a refused question
// leaves it (2026-03).
pub fn wide_picture(p: Uc8253, states: &[i64], wide: &mut [u16], top: u16) -> Result<(), Refusal>
    ensures { (b : Buffers) → Asked (ask.ask_picture top wide.old) p (with_states states.now b) (number_in result)
        (ask.wide wide.new) }
{
    wide_refused(p, states, wide.len())?;
    draw_wide(wide, states, p.config.optics.full_swing, top);
    Ok(())
}
