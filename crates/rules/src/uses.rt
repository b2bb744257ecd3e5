// What a data byte of an active command is for.
ghost use Rattle.std.specs.Prelude.{◌≡◌};
ghost use Rattle.controller.specs.DataByte.{counted_of, doing, purpose_of};

use command::{DSLP, DTM1, DTM2, Kind, PSR, takes};
use controller::{Active, Use};
use registers::PsrFlag;

// `DSLP`'s check code.
const DEEP_SLEEP_CODE: u8 = 0xA5;

// A byte that the command takes.
#[tactic(auto, unfolding(controller::specs::DataByte::doing))]
fn does(command: u8, index: u16, byte: u8) -> Use
    ensures { result ≡ doing command index byte }
{
    match command {
        PSR if index == 0 && !PsrFlag::RstN.is_set(byte) => Use::Soft,
        DSLP if byte == DEEP_SLEEP_CODE => Use::Sleep,
        DSLP => Use::Wrong,
        DTM1 => Use::Older,
        DTM2 => Use::Newer,
        _ => Use::Register,
    }
}

#[tactic(auto, unfolding(controller::specs::DataByte::purpose_of))]
pub fn purpose(a: Active, byte: u8) -> Use
    ensures { result ≡ purpose_of a byte }
{
    if takes(a.kind, a.received) {
        match a.kind {
            Kind::Write(_) => does(a.command, a.received, byte),
            Kind::Read | Kind::Unsupported(_) | Kind::Unknown => Use::Quiet,
        }
    } else if a.extra_reported {
        Use::Quiet
    } else {
        Use::Extra
    }
}

// One byte more.
pub fn counted(n: u16) -> u16
    ensures { result ≡ counted_of n }
{
    n.saturating_add(1)
}
