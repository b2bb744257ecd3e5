// The controller for programs in other languages: the record crosses as numbers and plain structs,
// handed over and taken back, and each call is the one of `uc8253` or `events` that it passes on.
#![tactic(auto)]

mod handed;
mod taken;

ghost use Rattle.std.specs.Prelude.{◌≡◌, true, false, None};
ghost use Rattle.base.specs.RefusalNumbers.{refusal_number, number_in};
ghost use Rattle.capture.specs.Layout.{config_in};
ghost use Rattle.controller.specs.World.{Buffers, world};
ghost use Rattle.controller.specs.Setters.{with_old, with_new, with_states, with_rows};
ghost use Rattle.controller.specs.Calls.{made};
ghost use Rattle.controller.specs.Ask as ask;
ghost use Rattle.controller.specs.Lent.{held};
ghost use Rattle.exports.specs.Apart.{before, after};
ghost use Rattle.base.specs.RefusalNumbers.{given as record_of};
ghost use Rattle.event.specs.Events as runs;
ghost use Rattle.exports.specs.Taken.{record_taken};
ghost use Rattle.exports.specs.Given as rule;

use base::{Refusal, number_of};
use capture::{NO_READ, NOTHING, config};
use controller::{Lent, Uc8253};
use events::{read_number, run};
use handed::hand_over;
pub use handed::{Handed, HandedActive, HandedImage, HandedOperation};
use rules::{foreign, lent_fits};
use taken::taken;
use uc8253::{
    advance, busy_pin, next_deadline, power_on, ram_bit, read_data, set_reset, set_vcom_rule,
    take_diagnostics, wide_picture, write_command, write_data, zeros,
};

// The record after a call, what was handed in where the call was turned back; the number of the
// refusal, 0 where the call was taken. The answer is
// what a read gave, 256 for none, and 257 for a call that reads nothing; of a taking, how many rows.
#[repr(C)]
#[derive(Clone, Copy)]
pub struct Given {
    pub chip: Handed,
    pub refused: u8,
    pub answer: u16,
}

// The answer to a question, where there is one, and the number of the refusal.
#[repr(C)]
#[derive(Clone, Copy)]
pub struct Asked {
    pub value: u64,
    pub refused: u8,
    pub known: bool,
}

// A call that was turned back gives back what was handed in.
fn give(back: Handed, given: Result<Uc8253, Refusal>, answer: u16) -> Given
    ensures { (p : Uc8253) → result ≡ rule.given_of back (record_of (λ q. q) p given) (number_in given) answer }
{
    match given {
        Ok(chip) => Given {
            chip: hand_over(chip),
            refused: 0,
            answer,
        },
        Err(refusal) => Given {
            chip: back,
            refused: refusal.number(),
            answer,
        },
    }
}

// Making, under the configuration of a capture file.
#[unsafe(no_mangle)]
pub extern "C" fn jollanqe_make(
    file: &[u8],
    old: &mut [u8],
    new: &mut [u8],
    states: &mut [i64],
    picture: &mut [u8],
    rows: &mut [u64],
) -> Given
    ensures value { result ≡ rule.made_given (config_in file.now) (before old new states picture rows) }
    ensures rows_value { after old new states picture rows
        ≡ (made (config_in file.now) (before old new states picture rows)).lent }
{
    let mut lent = Lent {
        old,
        new,
        states,
        picture,
        rows,
    };
    give(
        hand_over(zeros()),
        power_on(config(file), &mut lent),
        NO_READ,
    )
}

// A command byte.
#[unsafe(no_mangle)]
pub extern "C" fn jollanqe_command(
    chip: Handed,
    at: u64,
    command: u8,
    old: &mut [u8],
    new: &mut [u8],
    states: &mut [i64],
    picture: &mut [u8],
    rows: &mut [u64],
) -> Given
    ensures { rule.Passes (ask.command at command) chip result old new states picture rows }
{
    let mut lent = Lent {
        old,
        new,
        states,
        picture,
        rows,
    };
    let p = taken(chip);
    give(chip, write_command(p, at, command, &mut lent), NO_READ)
}

// A data byte.
#[unsafe(no_mangle)]
pub extern "C" fn jollanqe_data(
    chip: Handed,
    at: u64,
    byte: u8,
    old: &mut [u8],
    new: &mut [u8],
    states: &mut [i64],
    picture: &mut [u8],
    rows: &mut [u64],
) -> Given
    ensures { rule.Passes (ask.datum at byte) chip result old new states picture rows }
{
    let mut lent = Lent {
        old,
        new,
        states,
        picture,
        rows,
    };
    let p = taken(chip);
    give(chip, write_data(p, at, byte, &mut lent), NO_READ)
}

// The next byte of a read.
#[unsafe(no_mangle)]
pub extern "C" fn jollanqe_read(
    chip: Handed,
    at: u64,
    old: &mut [u8],
    new: &mut [u8],
    states: &mut [i64],
    picture: &mut [u8],
    rows: &mut [u64],
) -> Given
    ensures { rule.Passes (ask.reading at) chip result old new states picture rows }
{
    let mut lent = Lent {
        old,
        new,
        states,
        picture,
        rows,
    };
    let p = taken(chip);
    match read_data(p, at, &mut lent) {
        Ok(read) => give(chip, Ok(read.chip), read_number(read.byte)),
        Err(refusal) => give(chip, Err(refusal), NOTHING),
    }
}

// The reset line goes low (asserted) or is released.
#[unsafe(no_mangle)]
pub extern "C" fn jollanqe_reset(
    chip: Handed,
    at: u64,
    asserted: bool,
    old: &mut [u8],
    new: &mut [u8],
    states: &mut [i64],
    picture: &mut [u8],
    rows: &mut [u64],
) -> Given
    ensures { rule.Passes (ask.reset at asserted) chip result old new states picture rows }
{
    let mut lent = Lent {
        old,
        new,
        states,
        picture,
        rows,
    };
    let p = taken(chip);
    give(chip, set_reset(p, at, asserted, &mut lent), NO_READ)
}

// VCOM's rule from the next refresh on: rule 2, by its own frames, or rule 1.
#[unsafe(no_mangle)]
pub extern "C" fn jollanqe_vcom_rule(
    chip: Handed,
    at: u64,
    by_frame: bool,
    old: &mut [u8],
    new: &mut [u8],
    states: &mut [i64],
    picture: &mut [u8],
    rows: &mut [u64],
) -> Given
    ensures { rule.Passes (ask.vcom_rule at by_frame) chip result old new states picture rows }
{
    let mut lent = Lent {
        old,
        new,
        states,
        picture,
        rows,
    };
    let p = taken(chip);
    give(chip, set_vcom_rule(p, at, by_frame, &mut lent), NO_READ)
}

// Brings the chip to a time.
#[unsafe(no_mangle)]
pub extern "C" fn jollanqe_advance(
    chip: Handed,
    at: u64,
    old: &mut [u8],
    new: &mut [u8],
    states: &mut [i64],
    picture: &mut [u8],
    rows: &mut [u64],
) -> Given
    ensures { rule.Passes (ask.advance at) chip result old new states picture rows }
{
    let mut lent = Lent {
        old,
        new,
        states,
        picture,
        rows,
    };
    let p = taken(chip);
    give(chip, advance(p, at, &mut lent), NO_READ)
}

// Every event of a run is turned back, by 6 or by 5.
fn turns_all_back(p: Uc8253, lent: &Lent<'_>) -> bool
    ensures { result ≡ rule.turns_all_back p (held lent.now) }
{
    foreign(p) || !lent_fits(p.config, lent)
}

// A run of events, ten bytes each; the refusal is the first one's.
#[unsafe(no_mangle)]
pub extern "C" fn jollanqe_run(
    chip: Handed,
    events: &[u8],
    answers: &mut [u16],
    old: &mut [u8],
    new: &mut [u8],
    states: &mut [i64],
    picture: &mut [u8],
    rows: &mut [u64],
) -> Given
    ensures value { result ≡ rule.ran_given events.now chip (before old new states picture rows) }
    ensures rows_value { after old new states picture rows
        ≡ (runs.ran events.now (world (record_taken chip) (before old new states picture rows))).lent }
    ensures answers_after { answers.new ≡ runs.answers events.now answers.old
        (world (record_taken chip) (before old new states picture rows)) }
{
    let mut lent = Lent {
        old,
        new,
        states,
        picture,
        rows,
    };
    let p = taken(chip);
    let kept = turns_all_back(p, &lent);
    let ran = run(p, events, answers, &mut lent);
    let refused = number_of(ran.refused);
    if kept {
        return Given {
            chip,
            refused,
            answer: NO_READ,
        };
    }
    Given {
        chip: hand_over(ran.chip),
        refused,
        answer: NO_READ,
    }
}

// The rows are taken: the answer is how many.
#[unsafe(no_mangle)]
pub extern "C" fn jollanqe_take(chip: Handed, rows: &[u64]) -> Given
    ensures { (b : Buffers) → result ≡ rule.given ask.taking chip (with_rows rows.now b) }
{
    match take_diagnostics(taken(chip), rows) {
        Ok(rows) => give(chip, Ok(rows.chip), rows.count),
        Err(refusal) => give(chip, Err(refusal), 0),
    }
}

// A question that was turned back has no answer.
fn unasked(refusal: Refusal) -> Asked
    ensures { result ≡ record { value = 0; refused = refusal_number refusal; known = false } }
{
    Asked {
        value: 0,
        refused: refusal.number(),
        known: false,
    }
}

// The answer to a question that was not turned back, if there is one.
fn answered(value: Option<u64>) -> Asked
    ensures { result ≡ rule.asked_of 0 (ask.due value) }
{
    match value {
        Some(value) => Asked {
            value,
            refused: 0,
            known: true,
        },
        None => Asked {
            value: 0,
            refused: 0,
            known: false,
        },
    }
}

// Whether `BUSY_N` is low at a time: 1 where it is.
#[unsafe(no_mangle)]
pub extern "C" fn jollanqe_busy(chip: Handed, at: u64) -> Asked
    ensures { (b : Buffers) → result ≡ rule.asked (ask.ask_busy at) chip b }
{
    match busy_pin(taken(chip), at) {
        Ok(low) => answered(Some(u64::from(low))),
        Err(refusal) => unasked(refusal),
    }
}

// The picture of the states at a top, 0 standing for 255, into the lent buffer.
#[unsafe(no_mangle)]
pub extern "C" fn jollanqe_picture(
    chip: Handed,
    states: &[i64],
    wide: &mut [u16],
    top: u16,
) -> Asked
    ensures value { (b : Buffers) → result ≡ rule.asked (ask.ask_picture top wide.old) chip (with_states states.now b) }
    ensures wide_after { (b : Buffers) → ask.wide wide.new
        ≡ ask.answered (ask.ask_picture top wide.old) (world (record_taken chip) (with_states states.now b)) }
{
    match wide_picture(taken(chip), states, wide, top) {
        Ok(()) => answered(Some(0)),
        Err(refusal) => unasked(refusal),
    }
}

// The next time that `BUSY_N` rises or a picture is published; none where nothing runs.
#[unsafe(no_mangle)]
pub extern "C" fn jollanqe_deadline(chip: Handed) -> Asked
    ensures { (b : Buffers) → result ≡ rule.asked ask.ask_deadline chip b }
{
    match next_deadline(taken(chip)) {
        Ok(due) => answered(due),
        Err(refusal) => unasked(refusal),
    }
}

// A pixel of the lent plane, the old one or the new; none past the RAM.
#[unsafe(no_mangle)]
pub extern "C" fn jollanqe_bit(chip: Handed, plane: &[u8], x: u16, y: u16) -> Asked
    ensures value { (b : Buffers) → result ≡ rule.asked (ask.ask_bit true x y) chip (with_old plane.now b) }
    ensures value_2 { (b : Buffers) → result ≡ rule.asked (ask.ask_bit false x y) chip (with_new plane.now b) }
{
    match ram_bit(taken(chip), plane, x, y) {
        Ok(Some(bit)) => answered(Some(u64::from(bit))),
        Ok(None) => answered(None),
        Err(refusal) => unasked(refusal),
    }
}
