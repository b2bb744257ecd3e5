// One event: the call that its kind stands for, with its refusal and what a read gave.
ghost use Rattle.std.specs.Prelude.{◌≡◌, None};
ghost use Rattle.base.specs.RefusalNumbers.{number_of, refusal_in};
ghost use Rattle.base.specs.RefusalNumbers.{given as record_of};
ghost use Rattle.controller.specs.Lent.{Gives, Done, Keeps};
ghost use Rattle.event.specs.Events as rule;

use crate::Event;
use base::Refusal;
use capture::{ADVANCE, COMMAND, DATA, NO_READ, NOTHING, READ, RESET, VCOM_RULE};
use controller::{Lent, Uc8253};
use uc8253::{ReadAnswer, advance, read_data, set_reset, set_vcom_rule, write_command, write_data};

// The record after an event, what turned it back, if anything did, and what a read gave.
#[derive(Clone, Copy)]
pub struct Stepped {
    pub chip: Uc8253,
    pub refused: Option<Refusal>,
    pub answer: u16,
}

// After a call that reads nothing, on a record.
fn no_read(p: Uc8253, given: Result<Uc8253, Refusal>) -> Stepped
    ensures { result ≡ record { chip = record_of (λ q. q) p given; refused = refusal_in given; answer = 257 } }
{
    match given {
        Ok(chip) => Stepped {
            chip,
            refused: None,
            answer: NO_READ,
        },
        Err(refusal) => Stepped {
            chip: p,
            refused: Some(refusal),
            answer: NO_READ,
        },
    }
}

// The number of what a read gave.
pub fn read_number(byte: Option<u8>) -> u16
    ensures { result ≡ rule.read_number byte }
{
    match byte {
        Some(b) => b as u16,
        None => NOTHING,
    }
}

// After a read, on a record.
fn with_byte(p: Uc8253, given: Result<ReadAnswer, Refusal>) -> Stepped
    ensures { result ≡ record {
      chip = record_of (λ (a : ReadAnswer). a.chip) p given;
      refused = refusal_in given;
      answer = rule.read_number (record_of (λ (a : ReadAnswer). a.byte) None given);
    } }
{
    match given {
        Ok(read) => Stepped {
            chip: read.chip,
            refused: None,
            answer: read_number(read.byte),
        },
        Err(refusal) => Stepped {
            chip: p,
            refused: Some(refusal),
            answer: NOTHING,
        },
    }
}

// The event's call; an event of any other kind does nothing.
pub fn step(p: Uc8253, event: Event, lent: &mut Lent<'_>) -> Stepped
    ensures done { Done (rule.event_done event) (rule.event_refused event) p result.chip (number_of result.refused) lent }
    ensures gives { Gives (rule.event_answer event) p result.answer lent }
    ensures kept { Keeps lent }
{
    let at = event.time;
    let value = event.value;
    match event.kind {
        COMMAND => no_read(p, write_command(p, at, value, lent)),
        DATA => no_read(p, write_data(p, at, value, lent)),
        READ => with_byte(p, read_data(p, at, lent)),
        RESET => no_read(p, set_reset(p, at, value == 1, lent)),
        ADVANCE => no_read(p, advance(p, at, lent)),
        VCOM_RULE => no_read(p, set_vcom_rule(p, at, value == 2, lent)),
        _ => Stepped {
            chip: p,
            refused: None,
            answer: NO_READ,
        },
    }
}
