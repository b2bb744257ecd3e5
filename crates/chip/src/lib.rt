// The chip by itself: the record after a call, and what the call tells, from the record and the call alone. Nothing
// that is lent is looked at.
#![tactic(auto)]

ghost use Rattle.std.specs.Prelude.{◌≡◌};
ghost use Rattle.chip.specs.InnerSteps as steps;
ghost use Rattle.controller.specs.Ask as ask;
ghost use Rattle.controller.specs.Counting.{own};

use arriving::{arrive, edge_notes, reset_edge};
use command_bytes::{command_byte, command_note};
use controller::{Notes, Uc8253};
use data_bytes::{data_byte, data_note, read_byte, read_note};
use diagnostic::DiagnosticKind;
use rules::{close_note, logged};

// One diagnostic, or none.
fn alone(note: Option<DiagnosticKind>) -> Notes
    ensures { result ≡ steps.only note }
{
    Notes {
        first: note,
        second: None,
    }
}

// The previous command closes, then the command's own, once the call has arrived.
fn command_notes(here: Uc8253, command: u8) -> Notes
    ensures { result ≡ steps.command_notes command here }
{
    Notes {
        first: close_note(here.stage),
        second: command_note(here, command),
    }
}

// What a command byte tells.
pub fn told_command(p: Uc8253, at: u64, command: u8) -> Notes
    ensures { result ≡ ask.told_by (ask.command at command) p }
{
    command_notes(arrive(p, at), command)
}

// What a data byte tells.
pub fn told_data(p: Uc8253, at: u64, byte: u8) -> Notes
    ensures { result ≡ ask.told_by (ask.datum at byte) p }
{
    alone(data_note(arrive(p, at), byte))
}

// What a read tells.
pub fn told_read(p: Uc8253, at: u64) -> Notes
    ensures { result ≡ ask.told_by (ask.reading at) p }
{
    alone(read_note(arrive(p, at)))
}

// What an edge of the reset line tells.
pub fn told_reset(p: Uc8253, at: u64, asserted: bool) -> Notes
    ensures { result ≡ ask.told_by (ask.reset at asserted) p }
{
    edge_notes(arrive(p, at), asserted)
}

// The record after a command byte.
#[tactic(auto, unfolding(controller::specs::Ask::record_after))]
pub fn after_command(p: Uc8253, at: u64, command: u8) -> Uc8253
    ensures { result ≡ ask.record_after own (ask.command at command) p }
{
    let here = arrive(p, at);
    let notes = command_notes(here, command);
    logged(command_byte(here, command), notes)
}

// The record after a data byte.
#[tactic(auto, unfolding(controller::specs::Ask::record_after))]
pub fn after_data(p: Uc8253, at: u64, byte: u8) -> Uc8253
    ensures { result ≡ ask.record_after own (ask.datum at byte) p }
{
    let here = arrive(p, at);
    let notes = alone(data_note(here, byte));
    logged(data_byte(here, byte), notes)
}

// The record after a read.
#[tactic(auto, unfolding(controller::specs::Ask::record_after))]
pub fn after_read(p: Uc8253, at: u64) -> Uc8253
    ensures { result ≡ ask.record_after own (ask.reading at) p }
{
    let here = arrive(p, at);
    let notes = alone(read_note(here));
    logged(read_byte(here), notes)
}

// The record after an edge of the reset line.
#[tactic(auto, unfolding(controller::specs::Ask::record_after))]
pub fn after_reset(p: Uc8253, at: u64, asserted: bool) -> Uc8253
    ensures { result ≡ ask.record_after own (ask.reset at asserted) p }
{
    let here = arrive(p, at);
    let notes = edge_notes(here, asserted);
    logged(reset_edge(here, asserted), notes)
}

// The record after an advance.
#[tactic(auto, unfolding(controller::specs::Ask::record_after))]
pub fn after_advance(p: Uc8253, at: u64) -> Uc8253
    ensures { result ≡ ask.record_after own (ask.advance at) p }
{
    arrive(p, at)
}

// The record after event kind 6.
#[tactic(auto, unfolding(controller::specs::Ask::record_after))]
pub fn after_rule(p: Uc8253, at: u64, by_frame: bool) -> Uc8253
    ensures { result ≡ ask.record_after own (ask.vcom_rule at by_frame) p }
{
    let mut q = arrive(p, at);
    q.mode.vcom_by_frame = by_frame;
    q
}
