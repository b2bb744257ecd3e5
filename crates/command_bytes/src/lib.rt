// What a command byte does to the record once its call has arrived, and what it tells: it is dropped, begun
// or executed. It asks nothing of the record.
#![tactic(auto)]

mod starts;

ghost use Rattle.std.specs.Prelude.{◌≡◌};
ghost use Rattle.command.specs.Kinds.{kind_of};
ghost use Rattle.controller.specs.Command as rule;
ghost use Rattle.controller.specs.Counting.{own};
ghost use Rattle.controller.specs.Setters.{with_regs, with_data_flag};

use command::{DRF, DSP, DTM1, DTM2, Kind, POF, PON, PTIN, PTOUT, kind};
use controller::{Active, Current, Mode, Uc8253, Work};
use diagnostic::DiagnosticKind;
use ram::Cursor;
use registers::Registers;
use rules::{barred, start, with_current};
use starts::{refresh, refresh_told};

// The command is under way, the cursor at the first column and row of the written area.
#[tactic(auto, unfolding(controller::specs::Command::begun))]
fn begin(p: Uc8253, command: u8, kind: Kind) -> Uc8253
    ensures { result ≡ rule.begun command kind p }
{
    let area = p.regs.written();
    let active = Active {
        command,
        kind,
        received: 0,
        read: 0,
        cursor: Cursor {
            x: area.x0,
            y: area.y0,
        },
        extra_reported: false,
        past_reported: false,
    };
    with_current(p, Current::Active(active))
}

fn with_partial(p: Uc8253, partial: bool) -> Uc8253
    ensures { result ≡ with_regs (rule.with_partial partial p.regs) p }
{
    Uc8253 {
        regs: Registers { partial, ..p.regs },
        ..p
    }
}

fn with_data_flag(p: Uc8253, data_flag: bool) -> Uc8253
    ensures { result ≡ with_data_flag data_flag p }
{
    Uc8253 {
        mode: Mode {
            data_flag,
            ..p.mode
        },
        ..p
    }
}

// What a command without parameters does at once. A PON on a powered chip gives no BUSY_N pulse.
#[tactic(auto, unfolding(controller::specs::Command::executed))]
fn execute(p: Uc8253, command: u8) -> Uc8253
    ensures { result ≡ rule.executed own command p }
{
    match command {
        PON if !p.mode.powered => start(p, Work::PowerOn, p.config.timing.power_on),
        POF if p.mode.powered => start(p, Work::PowerOff, p.config.timing.power_off),
        DRF => refresh(p),
        PTIN => with_partial(p, true),
        PTOUT => with_partial(p, false),
        DTM1 | DTM2 => with_data_flag(p, false),
        DSP => with_data_flag(p, true),
        _ => p,
    }
}

// A command that is not dropped.
fn accept(p: Uc8253, command: u8) -> Uc8253
    ensures { result ≡ rule.sorted_by own (kind_of command p.config.variant) command p }
{
    let kind = kind(command, p.config.variant);
    match kind {
        Kind::Unknown => with_current(p, Current::Ignoring),
        Kind::Unsupported(_) => begin(p, command, kind),
        Kind::Write(_) | Kind::Read => execute(begin(p, command, kind), command),
    }
}

// The record after a command byte.
#[tactic(auto, unfolding(controller::specs::Command::command_byte))]
pub fn command_byte(p: Uc8253, command: u8) -> Uc8253
    ensures { result ≡ rule.command_byte own command p }
{
    match barred(p.mode, p.operation, command) {
        None => accept(p, command),
        Some(_) => with_current(p, Current::Ignoring),
    }
}

// What a command that is not dropped tells.
fn accept_note(p: Uc8253, command: u8) -> Option<DiagnosticKind>
    ensures { result ≡ rule.sort_note (kind_of command p.config.variant) command p }
{
    match kind(command, p.config.variant) {
        Kind::Unknown => Some(DiagnosticKind::UnknownCommand { command }),
        Kind::Unsupported(_) => Some(DiagnosticKind::UnsupportedCommand { command }),
        Kind::Write(_) if command == DRF => refresh_told(p),
        Kind::Write(_) | Kind::Read => None,
    }
}

// What a command byte tells, beside what closes before it.
#[tactic(auto, unfolding(controller::specs::Command::command_note))]
pub fn command_note(p: Uc8253, command: u8) -> Option<DiagnosticKind>
    ensures { result ≡ rule.command_note command p }
{
    barred(p.mode, p.operation, command).or_else(|| accept_note(p, command))
}
