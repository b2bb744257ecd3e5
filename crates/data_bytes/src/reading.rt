// A read.
ghost use Rattle.std.specs.Prelude.{◌≡◌};
ghost use Rattle.controller.specs.Reading as rule;

use command::Kind;
use controller::{Active, Current, Uc8253};
use diagnostic::DiagnosticKind;
use rules::{counted, driven_byte, with_current};

// The record after a read: one byte more was read of a read command.
#[tactic(auto, unfolding(controller::specs::Reading::reading))]
pub fn read_byte(p: Uc8253) -> Uc8253
    ensures { result ≡ rule.reading p }
{
    match p.stage.current {
        Current::Active(a) if matches!(a.kind, Kind::Read) => {
            let active = Active {
                read: counted(a.read),
                ..a
            };
            with_current(p, Current::Active(active))
        }
        _ => p,
    }
}

// The byte of a read.
#[tactic(auto, unfolding(controller::specs::Reading::read_of))]
pub fn read_of(p: Uc8253) -> Option<u8>
    ensures { result ≡ rule.read_of p }
{
    match p.stage.current {
        Current::Active(a) if matches!(a.kind, Kind::Read) => driven_byte(p, a.command, a.read),
        _ => None,
    }
}

// What a read tells: a first one with no byte is reported.
#[tactic(auto, unfolding(controller::specs::Reading::read_note, controller::specs::Reading::read_of))]
pub fn read_note(p: Uc8253) -> Option<DiagnosticKind>
    ensures { result ≡ rule.read_note p }
{
    let byte = read_of(p);
    match p.stage.current {
        Current::Active(a) if matches!(a.kind, Kind::Read) && a.read == 0 && byte.is_none() => {
            Some(DiagnosticKind::NothingToRead { command: a.command })
        }
        _ => None,
    }
}
