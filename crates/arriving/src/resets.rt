// The reset line.
ghost use Rattle.std.specs.Prelude.{◌≡◌};
ghost use Rattle.arriving.specs.InnerSteps as steps;
ghost use Rattle.controller.specs.Reset as rule;
ghost use Rattle.controller.specs.Counting.{own};
ghost use Rattle.controller.specs.Tell.{silent};

use crate::ends::publish;
use controller::{Current, Notes, Operation, Power, Uc8253, Work};
use diagnostic::DiagnosticKind;
use registers::{Luts, Registers};
use rules::{close_note, rested, start, with_current};

// A refresh that is cut publishes its picture, dated by the clock.
#[tactic(auto, unfolding(controller::specs::Refresh::cut_refresh))]
fn cut(p: Uc8253) -> Uc8253
    ensures { result ≡ rule.cut_by p.operation.work p }
{
    match p.operation.work {
        Work::Refresh(refresh) => publish(p, refresh.kind, true, p.now),
        _ => p,
    }
}

// Registers restored, power cut, nothing under way; RAM, data flag and VCOM's rule stay.
#[tactic(auto, unfolding(controller::specs::Reset::cleared))]
fn clear(p: Uc8253) -> Uc8253
    ensures { result ≡ rule.cleared p }
{
    let mut q = p;
    q.regs = Registers::reset(p.config.variant);
    q.luts = Luts::reset();
    q.mode.power = Power::InReset;
    q.mode.powered = false;
    with_current(rested(q), Current::Idle)
}

// Out of reset, `RST_N` goes low.
fn fall(p: Uc8253) -> Uc8253
    ensures { result ≡ steps.fallen p }
{
    clear(cut(p))
}

// Release starts the hardware reset.
fn rise(p: Uc8253) -> Uc8253
    ensures { result ≡ steps.risen p }
{
    let mut q = p;
    q.mode.power = Power::Running;
    start(q, Work::HardwareReset, p.config.timing.hardware_reset)
}

// `RST_N` went low or was released.
#[tactic(auto, unfolding(controller::specs::Reset::reset_edge))]
pub fn reset_edge(p: Uc8253, asserted: bool) -> Uc8253
    ensures { result ≡ rule.reset_edge own asserted p }
{
    match (p.mode.power, asserted) {
        (Power::Running | Power::Asleep, true) => fall(p),
        (Power::InReset, false) => rise(p),
        _ => p,
    }
}

fn cut_note(operation: Operation) -> Option<DiagnosticKind>
    ensures { result ≡ rule.cut_note operation.work }
{
    match operation.work {
        Work::Refresh(_) => Some(DiagnosticKind::ResetDuringRefresh),
        _ => None,
    }
}

fn silence() -> Notes
    ensures { result ≡ silent }
{
    Notes {
        first: None,
        second: None,
    }
}

// In mid-refresh kind 15; then the command under way closes.
fn fall_notes(p: Uc8253) -> Notes
    ensures { result ≡ steps.fallen_notes p }
{
    Notes {
        first: cut_note(p.operation),
        second: close_note(p.stage),
    }
}

// What an edge of the reset line tells.
pub fn edge_notes(p: Uc8253, asserted: bool) -> Notes
    ensures { result ≡ rule.edge_notes asserted p }
{
    match (p.mode.power, asserted) {
        (Power::Running | Power::Asleep, true) => fall_notes(p),
        _ => silence(),
    }
}
