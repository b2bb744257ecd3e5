// The controller's calls (mod.rs), each given the record and what is lent: refused first, with no lent
// entry changed, and then the record that was given stands; else the clock moves, what has come to its
// end ends, and the call does its own.
//
// No call has a condition: every command, data byte, read, reset edge and time is accepted on every
// record that is not foreign.
#![tactic(auto)]

ghost use Rattle.controller.specs.Ask as ask;
ghost use Rattle.std.specs.Prelude.{None};
ghost use Rattle.base.specs.RefusalNumbers.{given};
ghost use Rattle.controller.specs.Lent.{Called, CalledFor, Answers, Keeps};

use arriving::arrive;
use base::Refusal;
use chip::{after_advance, after_command, after_data, after_read, after_reset, after_rule};
use controller::{Lent, Uc8253};
use data_bytes::read_of;
use lending::{come_lent, lend_command, lend_data, lend_read, lend_reset};
pub use making::{power_on, zeros};
pub use questions::{
    Taken, busy_pin, next_deadline, ram_bit, row, row_refused, take_diagnostics, wide_picture,
};

// What a read gives back: the record and the byte.
#[derive(Clone, Copy)]
pub struct ReadAnswer {
    pub chip: Uc8253,
    pub byte: Option<u8>,
}

// A command byte (D/C# low).
pub fn write_command(
    p: Uc8253,
    at: u64,
    command: u8,
    lent: &mut Lent<'_>,
) -> Result<Uc8253, Refusal>
    ensures called { Called (ask.command at command) p result lent }
    ensures kept { Keeps lent }
{
    come_lent(p, at, false, lent)?;
    lend_command(p, at, command, lent.rows);
    Ok(after_command(p, at, command))
}

// A data byte (D/C# high).
pub fn write_data(p: Uc8253, at: u64, byte: u8, lent: &mut Lent<'_>) -> Result<Uc8253, Refusal>
    ensures called { Called (ask.datum at byte) p result lent }
    ensures kept { Keeps lent }
{
    come_lent(p, at, false, lent)?;
    let (old, new, rows) = (&mut *lent.old, &mut *lent.new, &mut *lent.rows);
    lend_data(p, at, byte, old, new, rows);
    Ok(after_data(p, at, byte))
}

// The next byte of a read: what the controller drives, nothing when it drives nothing.
pub fn read_data(p: Uc8253, at: u64, lent: &mut Lent<'_>) -> Result<ReadAnswer, Refusal>
    ensures called { CalledFor (λ (a : ReadAnswer). a.chip) (ask.reading at) p result lent }
    ensures answers { Answers (ask.reading at) p (ask.byte (given (λ (a : ReadAnswer). a.byte) None result)) lent }
    ensures kept { Keeps lent }
{
    come_lent(p, at, false, lent)?;
    lend_read(p, at, lent.rows);
    let chip = after_read(p, at);
    let byte = read_of(arrive(p, at));
    Ok(ReadAnswer { chip, byte })
}

// `RST_N` went low (asserted) or was released.
pub fn set_reset(p: Uc8253, at: u64, asserted: bool, lent: &mut Lent<'_>) -> Result<Uc8253, Refusal>
    ensures called { Called (ask.reset at asserted) p result lent }
    ensures kept { Keeps lent }
{
    come_lent(p, at, asserted, lent)?;
    lend_reset(p, at, asserted, lent.rows);
    Ok(after_reset(p, at, asserted))
}

// Brings the chip to a time: an operation whose end has come ends, and a refresh publishes its
// picture.
pub fn advance(p: Uc8253, at: u64, lent: &mut Lent<'_>) -> Result<Uc8253, Refusal>
    ensures called { Called (ask.advance at) p result lent }
    ensures kept { Keeps lent }
{
    come_lent(p, at, false, lent)?;
    Ok(after_advance(p, at))
}

// VCOM's rule from the next refresh on: its table by its own frames, or by the pixel's phases (2026-08).
pub fn set_vcom_rule(
    p: Uc8253,
    at: u64,
    by_frame: bool,
    lent: &mut Lent<'_>,
) -> Result<Uc8253, Refusal>
    ensures called { Called (ask.vcom_rule at by_frame) p result lent }
    ensures kept { Keeps lent }
{
    come_lent(p, at, false, lent)?;
    Ok(after_rule(p, at, by_frame))
}
