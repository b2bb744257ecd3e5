// What is reported of a command: as it closes, as it is turned away, as a refresh is.
ghost use Rattle.std.specs.Prelude.{◌≡◌};
ghost use Rattle.controller.specs.Command as rule;
ghost use Rattle.controller.specs.Refresh.{refresh_note};

use command::{FLG, LUTC, LUTKK, REV, VV, least_count};
use controller::{Active, Current, Mode, Operation, Power, Stage, Work};
use diagnostic::{BOOSTER, DiagnosticKind, KWR, OTP};
use registers::PsrFlag;

// The bytes of a LUT that the model reads.
const LUT_BYTES: u16 = 42;

// The command under way ends: too few parameters are reported, else a LUT of another length than KW
// mode reads, unless its extra bytes were reported already.
#[tactic(auto, unfolding(controller::specs::Command::closing_note))]
fn closing(a: Active) -> Option<DiagnosticKind>
    ensures { result ≡ rule.closing_note a }
{
    let least = least_count(a.kind);
    if a.received < least {
        return Some(DiagnosticKind::MissingData {
            command: a.command,
            expected: least,
            received: a.received,
        });
    }
    match a.command {
        LUTC..=LUTKK if !a.extra_reported && a.received != LUT_BYTES => Some(
            DiagnosticKind::LutLength {
                command: a.command,
                bytes: a.received,
            },
        ),
        _ => None,
    }
}

// What is told as the command under way closes.
pub fn close_note(stage: Stage) -> Option<DiagnosticKind>
    ensures { result ≡ rule.close_note stage.current }
{
    match stage.current {
        Current::Idle | Current::Ignoring => None,
        Current::Active(a) => closing(a),
    }
}

fn in_reset(power: Power) -> bool
    ensures { result ≡ rule.in_reset power }
{
    matches!(power, Power::InReset)
}

fn asleep(power: Power) -> bool
    ensures { result ≡ rule.asleep power }
{
    matches!(power, Power::Asleep)
}

// A soft or a hardware reset runs.
fn initialises(work: Work) -> bool
    ensures { result ≡ rule.initialises work }
{
    matches!(work, Work::SoftReset | Work::HardwareReset)
}

fn busy(work: Work) -> bool
    ensures { result ≡ rule.busy work }
{
    !matches!(work, Work::Nothing)
}

// Why a command is dropped, if it is.
#[tactic(auto, unfolding(controller::specs::Command::barred_note))]
pub fn barred(mode: Mode, operation: Operation, command: u8) -> Option<DiagnosticKind>
    ensures { result ≡ rule.barred_note mode.power operation.work command }
{
    if in_reset(mode.power) || initialises(operation.work) {
        return Some(DiagnosticKind::WhileInReset { command });
    }
    if asleep(mode.power) {
        return Some(DiagnosticKind::WhileAsleep { command });
    }
    if busy(operation.work) && !matches!(command, REV | FLG | VV) {
        return Some(DiagnosticKind::WhileBusy { command });
    }
    None
}

// Why a refresh is refused, if it is, by the first byte of PSR and the supplies.
#[tactic(auto, unfolding(controller::specs::Refresh::refresh_note))]
pub fn refresh_note(psr: u8, powered: bool) -> Option<DiagnosticKind>
    ensures { result ≡ refresh_note psr powered }
{
    if !PsrFlag::Reg.is_set(psr) {
        return Some(DiagnosticKind::RefreshNotModelled { what: OTP });
    }
    if !PsrFlag::Kw.is_set(psr) {
        return Some(DiagnosticKind::RefreshNotModelled { what: KWR });
    }
    if !PsrFlag::ShdN.is_set(psr) {
        return Some(DiagnosticKind::RefreshNotModelled { what: BOOSTER });
    }
    if !powered {
        return Some(DiagnosticKind::RefreshWithoutPower);
    }
    None
}
