// What a data byte and a read do to the record once their call has arrived, what they tell, and where a data byte
// puts its pixels. Nothing is asked of the record.
#![tactic(auto)]

mod pixel_bytes;
mod reading;

ghost use Rattle.std.specs.Prelude.{◌≡◌};
ghost use Rattle.controller.specs.DataByte as rule;
ghost use Rattle.controller.specs.Counting.{own};

use command::{Kind, Params};
use controller::{Active, Current, Uc8253, Use, Work};
use diagnostic::DiagnosticKind;
pub use pixel_bytes::{put_at, put_byte};
use pixel_bytes::{past_note, pixel_byte};
pub use reading::{read_byte, read_note, read_of};
use registers::{Luts, Registers};
use rules::{counted, purpose, start, with_current};

fn more(a: Active) -> Active
    ensures { result ≡ rule.more_of a }
{
    Active {
        received: counted(a.received),
        ..a
    }
}

// Later bytes are ignored silently.
fn softly(a: Active) -> Active
    ensures { result ≡ rule.soft_of a }
{
    Active {
        kind: Kind::Write(Params::Exactly(1)),
        extra_reported: true,
        ..a
    }
}

// The registers reset, power off.
fn soft_reset(p: Uc8253) -> Uc8253
    ensures { result ≡ rule.soft_reset own p }
{
    let mut q = p;
    q.regs = Registers::reset(p.config.variant);
    q.luts = Luts::reset();
    q.mode.powered = false;
    start(q, Work::SoftReset, p.config.timing.soft_reset)
}

fn register_byte(p: Uc8253, a: Active, byte: u8) -> Uc8253
    ensures { result ≡ rule.register_byte a byte p }
{
    Uc8253 {
        regs: p.regs.with_byte(a.command, a.received, byte),
        luts: p.luts.with_byte(a.command, a.received, byte),
        ..p
    }
}

// A data byte of an active command.
fn take_byte(p: Uc8253, a: Active, byte: u8) -> Uc8253
    ensures { result ≡ rule.used_by own (rule.purpose_of a byte) a byte p }
{
    let b = more(a);
    match purpose(a, byte) {
        Use::Extra => {
            let extra = Active {
                extra_reported: true,
                ..b
            };
            with_current(p, Current::Active(extra))
        }
        Use::Quiet | Use::Wrong => with_current(p, Current::Active(b)),
        Use::Soft => with_current(soft_reset(p), Current::Active(softly(b))),
        Use::Sleep => {
            let q = start(p, Work::DeepSleep, p.config.timing.deep_sleep);
            with_current(q, Current::Active(b))
        }
        Use::Register => with_current(register_byte(p, a, byte), Current::Active(b)),
        Use::Older | Use::Newer => pixel_byte(p, b),
    }
}

// The record after a data byte.
#[tactic(auto, unfolding(controller::specs::DataByte::data_byte))]
pub fn data_byte(p: Uc8253, byte: u8) -> Uc8253
    ensures { result ≡ rule.data_byte own byte p }
{
    match p.stage.current {
        Current::Idle => with_current(p, Current::Ignoring),
        Current::Ignoring => p,
        Current::Active(active) => take_byte(p, active, byte),
    }
}

fn take_note(p: Uc8253, a: Active, byte: u8) -> Option<DiagnosticKind>
    ensures { result ≡ rule.used_note (rule.purpose_of a byte) a byte p }
{
    match purpose(a, byte) {
        Use::Extra => Some(DiagnosticKind::ExtraData { command: a.command }),
        Use::Wrong => Some(DiagnosticKind::WrongCheckCode { code: byte }),
        Use::Older | Use::Newer => past_note(p, a),
        Use::Quiet | Use::Soft | Use::Sleep | Use::Register => None,
    }
}

// What a data byte tells.
#[tactic(auto, unfolding(controller::specs::DataByte::data_note))]
pub fn data_note(p: Uc8253, byte: u8) -> Option<DiagnosticKind>
    ensures { result ≡ rule.data_note byte p }
{
    match p.stage.current {
        Current::Idle => Some(DiagnosticKind::DataWithoutCommand { data: byte }),
        Current::Ignoring => None,
        Current::Active(active) => take_note(p, active, byte),
    }
}
