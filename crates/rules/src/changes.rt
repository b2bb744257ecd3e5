// The small changes of the record that every call makes: a diagnostic, the command under way, an
// operation begun or over.
ghost use Rattle.std.specs.Prelude.{◌≡◌};
ghost use Rattle.controller.specs.Setters.{with_current, with_operation, with_log, with_now};
ghost use Rattle.controller.specs.Tell.{log_noted, row_noted, log_told, rows_told};
ghost use Rattle.controller.specs.Arrives as arrives;
ghost use Rattle.controller.specs.Refresh as refresh;
ghost use Rattle.controller.specs.Glass.{driven_at};
ghost use Rattle.controller.specs.Counting.{own};

use crate::refused::ends_refresh;
use clock::{cycles, nanoseconds};
use controller::{Current, Drive, Notes, Operation, Stage, Uc8253, Work};
use diagnostic::DiagnosticKind;
use diagnostic_log::{Log, counted, store};
use waveform::whole_frames;

fn log_noted(log: Log, note: Option<DiagnosticKind>) -> Log
    ensures { result ≡ log_noted note log }
{
    match note {
        None => log,
        Some(_) => counted(log),
    }
}

fn row_noted(log: Log, clock: u64, note: Option<DiagnosticKind>, rows: &mut [u64])
    ensures { rows.new ≡ row_noted note clock log rows.old }
{
    if let Some(kind) = note {
        store(log, rows, clock, kind);
    }
}

// The log counts what a call tells.
pub fn logged(p: Uc8253, notes: Notes) -> Uc8253
    ensures { result ≡ with_log (log_told notes p.log) p }
{
    let first = log_noted(p.log, notes.first);
    Uc8253 {
        log: log_noted(first, notes.second),
        ..p
    }
}

// The rows store what a call tells, dated by the clock.
pub fn store_notes(log: Log, clock: u64, notes: Notes, rows: &mut [u64])
    ensures { rows.new ≡ rows_told notes clock log rows.old }
{
    row_noted(log, clock, notes.first, rows);
    row_noted(log_noted(log, notes.first), clock, notes.second, rows);
}

pub fn with_current(p: Uc8253, current: Current) -> Uc8253
    ensures { result ≡ with_current current p }
{
    Uc8253 {
        stage: Stage { current },
        ..p
    }
}

// Nothing runs any more.
pub fn rested(p: Uc8253) -> Uc8253
    ensures { result ≡ with_operation arrives.rest p }
{
    Uc8253 {
        operation: Operation {
            work: Work::Nothing,
            started: 0,
            until: 0,
        },
        ..p
    }
}

// An operation from the clock on, of so many nanoseconds.
pub fn start(p: Uc8253, work: Work, ns: u64) -> Uc8253
    ensures { result ≡ arrives.starting own work ns p }
{
    Uc8253 {
        operation: Operation {
            work,
            started: p.now,
            until: p.now.saturating_add(cycles(p.config.timing.rate, ns)),
        },
        ..p
    }
}

// The whole frames that a refresh has run once the clock is at a time: those of the time since its
// start, converted.
fn elapsed(p: Uc8253, at: u64) -> u64
    ensures { result ≡ refresh.elapsed own (with_now at p) }
{
    let run = at.saturating_sub(p.operation.started);
    whole_frames(nanoseconds(p.config.timing.rate, run), p.waveform.frame_ns)
}

// What a call at a time, which may assert reset, does to the glass.
#[tactic(auto, unfolding(controller::specs::Glass::driven_at))]
pub fn drive_at(p: Uc8253, at: u64, asserted: bool) -> Drive
    ensures { result ≡ driven_at own asserted at p }
{
    if !ends_refresh(p, at, asserted) {
        return Drive::Nothing;
    }
    let clock = p.now.max(at);
    if p.operation.until <= clock {
        Drive::Whole
    } else {
        Drive::First(elapsed(p, clock))
    }
}
