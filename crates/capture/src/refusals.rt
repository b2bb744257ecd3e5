// What turns a capture back: 8, 9, 1 to 4, 13, in this order; and 10, which is the program's alone.
ghost use Rattle.std.specs.Prelude.{◌≡◌, ◌<◌};
ghost use Rattle.base.specs.RefusalNumbers.{number_in};
ghost use Rattle.capture.specs.Layout.{config_in};
ghost use Rattle.capture.specs.Refused as spec;
ghost use Rattle.capture.specs.InnerTrailer.{Trails};

use crate::kinds::{ADVANCE, COMMAND, DATA, READ, RESET, VCOM_RULE};
use crate::layout::{Trailer, pixels, rated};
use crate::words::byte;
use base::Refusal;
use config::Uc8253Config;

// Bytes of an event, and where in it the kind and the value stand.
pub(crate) const EVENT: u64 = 10;

const KIND: usize = 8;

const VALUE: usize = 9;

// Bytes after the events: a configuration without a rate, and the trailer.
const TAIL: u64 = 320;

// The largest file.
const MOST_BYTES: usize = 65_536;

const LAST_VARIANT: u8 = 1;

// The four flags.
const ALL_FLAGS: u8 = 15;

// The largest panel that the program plays, in pixels.
pub const MOST_PIXELS: usize = 8_000;

// The most events of a file.
pub const MOST_EVENTS: usize = 6_521;

// 8: the length is neither of the two that the trailer says, or out of range.
fn broken(file: &[u8], t: Trailer) -> bool
    requires { Trails file.now t }
    ensures { result ≡ spec.broken file.now }
{
    if file.len() < TAIL as usize {
        return true;
    }
    if MOST_BYTES < file.len() {
        return true;
    }
    if t.offset != EVENT * t.count {
        return true;
    }
    if file.len() as u64 == t.offset + TAIL {
        return false;
    }
    !rated(file, t)
}

// Whether the kind is listed, and the value for it.
#[tactic(auto, unfolding(crate::specs::Refused::listed))]
pub fn listed(kind: u8, value: u8) -> bool
    ensures { result ≡ spec.listed kind value }
{
    match kind {
        COMMAND | DATA => true,
        READ | ADVANCE => value == 0,
        RESET => value <= 1,
        VCOM_RULE => 1 <= value && value <= 2,
        _ => false,
    }
}

fn all_listed(file: &[u8], count: u64) -> bool
    requires { count < 4_294_967_296 }
    ensures { result ≡ spec.all_listed file.now count }
{
    for i in 0..count {
        let at = (EVENT * i) as usize;
        if !listed(byte(file, at, KIND), byte(file, at, VALUE)) {
            return false;
        }
    }
    true
}

// 9, of a configuration: a variant or a flag that is not listed.
pub fn bad_config(file: &[u8], at: usize) -> bool
    ensures { result ≡ spec.bad_config file.now at }
{
    if LAST_VARIANT < byte(file, at, 0) {
        return true;
    }
    ALL_FLAGS < byte(file, at, 1)
}

// 9: a variant, a flag or an event that is not listed.
fn bad_event(file: &[u8], t: Trailer) -> bool
    requires { Trails file.now t }
    ensures { result ≡ spec.bad_event file.now }
{
    if bad_config(file, t.offset as usize) {
        return true;
    }
    !all_listed(file, t.count)
}

// The first refusal that the file meets, whose trailer and configuration are these.
pub(crate) fn refused(file: &[u8], t: Trailer, config: Uc8253Config) -> Result<(), Refusal>
    requires trails { Trails file.now t }
    requires config_value { config ≡ config_in file.now }
    ensures { number_in result ≡ spec.file_refused file.now }
{
    if broken(file, t) {
        return Err(Refusal::BrokenCapture);
    }
    if bad_event(file, t) {
        return Err(Refusal::BadEvent);
    }
    config.validate()
}

// 10: more pixels than the program plays.
pub fn too_many(c: Uc8253Config) -> bool
    ensures { result ≡ spec.too_many c }
{
    MOST_PIXELS < pixels(c)
}
