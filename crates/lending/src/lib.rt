// What a call does to what is lent: it is turned back, by 6, 5 or 7, with every entry as it was; or a refresh that
// it ends drives the glass, new is copied to old, and the call's own goes into the planes and the rows.
#![tactic(auto)]

mod refreshes;

ghost use Rattle.std.specs.Prelude.{◌≡◌};
ghost use Rattle.lending.specs.InnerSteps as steps;
ghost use Rattle.lending.specs.Settled.{come_to};
ghost use Rattle.base.specs.RefusalNumbers.{number_in};
ghost use Rattle.controller.specs.Arrives.{arrived};
ghost use Rattle.controller.specs.Ask as ask;
ghost use Rattle.controller.specs.DataByte as plane;
ghost use Rattle.controller.specs.World.{buffers, world};
ghost use Rattle.controller.specs.Lent.{Keeps, before, after};
ghost use Rattle.controller.specs.TurnedBack.{turned_back};

use arriving::arrive;
use base::Refusal;
use chip::{told_command, told_data, told_read, told_reset};
use controller::{Lent, Notes, Uc8253};
use data_bytes::put_byte;
use pixels::all_states;
use refreshes::settle;
use rules::{ends_refresh, foreign, lengths_fit, store_notes};

// 7: a state out of range.
fn foreign_contents(swing: u64, states: &[i64]) -> Result<(), Refusal>
    ensures { number_in result ≡ steps.seven swing states.now }
{
    if all_states(states, swing) {
        return Ok(());
    }
    Err(Refusal::ForeignContents)
}

// 6, 5, 7 of a call at a time, which may assert reset.
fn turned_back(
    p: Uc8253,
    at: u64,
    asserted: bool,
    old: &[u8],
    new: &[u8],
    states: &[i64],
    picture: &[u8],
    rows: &[u64],
) -> Result<(), Refusal>
    ensures { number_in result
        ≡ turned_back asserted at (world p (buffers old.now new.now states.now picture.now rows.now)) }
{
    if foreign(p) {
        return Err(Refusal::ForeignRecord);
    }
    if lengths_fit(
        p.config,
        old.len(),
        new.len(),
        states.len(),
        picture.len(),
        rows.len(),
    ) {
        if ends_refresh(p, at, asserted) {
            return foreign_contents(p.config.optics.full_swing, states);
        }
        return Ok(());
    }
    Err(Refusal::BufferLength)
}

// A call comes at a time: it is turned back, or a refresh that it ends moves the glass and the old plane. The
// slices are apart, since a caller need not lend what only is read here, the new plane and the rows, to be written.
pub fn come(
    p: Uc8253,
    at: u64,
    asserted: bool,
    old: &mut [u8],
    new: &[u8],
    states: &mut [i64],
    picture: &mut [u8],
    rows: &[u64],
) -> Result<(), Refusal>
    ensures gives { number_in result
        ≡ turned_back asserted at (world p (buffers old.old new.now states.old picture.old rows.now)) }
    ensures comes { buffers old.new new.now states.new picture.new rows.now
        ≡ come_to asserted at p (buffers old.old new.now states.old picture.old rows.now) }
{
    turned_back(p, at, asserted, old, new, states, picture, rows)?;
    settle(p, at, asserted, old, new, states, picture);
    Ok(())
}

// The same of all that a call is lent.
pub fn come_lent(p: Uc8253, at: u64, asserted: bool, lent: &mut Lent<'_>) -> Result<(), Refusal>
    ensures gives { number_in result ≡ turned_back asserted at (world p (before lent)) }
    ensures comes { after lent ≡ come_to asserted at p (before lent) }
    ensures kept { Keeps lent }
{
    let (old, new, states, picture, rows) = (
        &mut *lent.old,
        &mut *lent.new,
        &mut *lent.states,
        &mut *lent.picture,
        &mut *lent.rows,
    );
    come(p, at, asserted, old, new, states, picture, rows)
}

// The rows store what a call at a time tells.
fn store(p: Uc8253, at: u64, notes: Notes, rows: &mut [u64])
    ensures { rows.new ≡ steps.stored at notes p rows.old }
{
    store_notes(p.log, p.now.max(at), notes, rows);
}

// The rows after a command byte.
pub fn lend_command(p: Uc8253, at: u64, command: u8, rows: &mut [u64])
    ensures { rows.new ≡ ask.rows_after (ask.command at command) p rows.old }
{
    store(p, at, told_command(p, at, command), rows);
}

// The planes and the rows after a data byte, whose call has come. The glass need not be lent.
pub fn lend_data(p: Uc8253, at: u64, byte: u8, old: &mut [u8], new: &mut [u8], rows: &mut [u64])
    ensures planes { (old.new ≡ plane.plane_byte plane.for_old byte (arrived at p) old.old)
        × (new.new ≡ ask.new_after (ask.datum at byte) p new.old) }
    ensures rows { rows.new ≡ ask.rows_after (ask.datum at byte) p rows.old }
{
    put_byte(arrive(p, at), byte, old, new);
    store(p, at, told_data(p, at, byte), rows);
}

// The rows after a read.
pub fn lend_read(p: Uc8253, at: u64, rows: &mut [u64])
    ensures { rows.new ≡ ask.rows_after (ask.reading at) p rows.old }
{
    store(p, at, told_read(p, at), rows);
}

// The rows after an edge of the reset line.
pub fn lend_reset(p: Uc8253, at: u64, asserted: bool, rows: &mut [u64])
    ensures { rows.new ≡ ask.rows_after (ask.reset at asserted) p rows.old }
{
    store(p, at, told_reset(p, at, asserted), rows);
}
