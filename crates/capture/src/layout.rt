// The file's parts: the trailer at its end, and the configuration where the trailer points.
ghost use Rattle.std.specs.Prelude.{◌≡◌, ◌+◌, ◌-◌, ◌<◌, length};
ghost use Rattle.capture.specs.Little.{little};
ghost use Rattle.capture.specs.Layout as spec;
ghost use Rattle.capture.specs.InnerTrailer.{Trails};

use crate::words::{byte, number};
use clock::BILLION;
use config::{FRAME_RATE_CODES, Uc8253Config, Uc8253Geometry, Uc8253Timing, Variant};
use glass::Optics;

// How far the trailer's two numbers lie before the file's end.
const OFFSET_BACK: usize = 8;

const COUNT_BACK: usize = 4;

// Where the configuration's parts begin.
const FLAGS: usize = 1;

const SOURCES: usize = 2;

const GATES: usize = 4;

const INITIAL_GRAY: usize = 6;

const AMBIENT: usize = 7;

const FULL_SWING: usize = 8;

const POWER_ON: usize = 16;

const POWER_OFF: usize = 24;

const DEEP_SLEEP: usize = 32;

const SOFT_RESET: usize = 40;

const HARDWARE_RESET: usize = 48;

const PERIODS: usize = 56;

const RATE: usize = 312;

// Bytes after the events: a configuration with a rate, and the trailer.
const RATED_TAIL: u64 = 328;

// The flags by weight.
const ROWS_REVERSED: u8 = 1;

const COLUMNS_REVERSED: u8 = 2;

const POSITIVE_DRIVES_BLACK: u8 = 4;

const VCOM_BY_FRAME: u8 = 8;

// The trailer: the offset of the configuration, and how many events there are.
#[derive(Clone, Copy)]
pub(crate) struct Trailer {
    pub offset: u64,
    pub count: u64,
}

// The number of four bytes that begins so many bytes before the file's end.
fn word(file: &[u8], back: usize) -> u64
    ensures { (result ≡ little file.now (length file.now - back) 4) × (result < 4_294_967_296) }
{
    if file.len() < back {
        return number(file, 0, 4);
    }
    number(file, file.len() - back, 4)
}

pub(crate) fn trailer_of(file: &[u8]) -> Trailer
    ensures { Trails file.now result }
{
    let offset = word(file, OFFSET_BACK);
    let count = word(file, COUNT_BACK);
    Trailer { offset, count }
}

fn variant(b: u8) -> Variant
    ensures { result ≡ spec.variant_of b }
{
    if b == 0 {
        return Variant::Uc8253;
    }
    Variant::Uc8279d
}

// The number of two bytes at a place.
fn half(file: &[u8], at: usize) -> u16
    ensures { result ≡ little file.now at 2 }
{
    number(file, at, 2) as u16
}

fn panel(file: &[u8], at: usize) -> Uc8253Geometry
    requires { at < 4_294_967_296 }
    ensures { result ≡ spec.panel_of file.now at }
{
    let flags = byte(file, at, FLAGS);
    let sources = half(file, at + SOURCES);
    let gates = half(file, at + GATES);
    Uc8253Geometry {
        sources,
        gates,
        rows_reversed: flags / ROWS_REVERSED % 2 == 1,
        columns_reversed: flags / COLUMNS_REVERSED % 2 == 1,
    }
}

fn optics(file: &[u8], at: usize) -> Optics
    requires { at < 4_294_967_296 }
    ensures { result ≡ spec.optics_of file.now at }
{
    let flags = byte(file, at, FLAGS);
    let full_swing = number(file, at + FULL_SWING, 8);
    let initial_gray = byte(file, at, INITIAL_GRAY);
    Optics {
        full_swing,
        positive_drives_black: flags / POSITIVE_DRIVES_BLACK % 2 == 1,
        initial_gray,
    }
}

fn periods(file: &[u8], at: usize) -> [u64; FRAME_RATE_CODES]
    requires { at < 4_294_967_296 }
    ensures { result ≡ spec.periods_of file.now at 32 }
{
    let mut periods = [0; FRAME_RATE_CODES];
    for code in 0..FRAME_RATE_CODES {
        periods[code] = number(file, at + PERIODS + 8 * code, 8);
    }
    periods
}

fn timing(file: &[u8], at: usize, rate: u64) -> Uc8253Timing
    requires { at < 4_294_967_296 }
    ensures { result ≡ spec.timing_by rate file.now at }
{
    let power_on = number(file, at + POWER_ON, 8);
    let power_off = number(file, at + POWER_OFF, 8);
    let deep_sleep = number(file, at + DEEP_SLEEP, 8);
    let soft_reset = number(file, at + SOFT_RESET, 8);
    let hardware_reset = number(file, at + HARDWARE_RESET, 8);
    let frame_period = periods(file, at);
    Uc8253Timing {
        power_on,
        power_off,
        deep_sleep,
        soft_reset,
        hardware_reset,
        frame_period,
        rate,
    }
}

// The 312 bytes from a place on, with a rate.
fn config_at(file: &[u8], at: usize, rate: u64) -> Uc8253Config
    requires { at < 4_294_967_296 }
    ensures { result ≡ spec.config_by rate file.now at }
{
    let variant = variant(byte(file, at, 0));
    let panel = panel(file, at);
    let optics = optics(file, at);
    let timing = timing(file, at, rate);
    let ambient_celsius = byte(file, at, AMBIENT);
    let flags = byte(file, at, FLAGS);
    Uc8253Config {
        variant,
        panel,
        optics,
        timing,
        ambient_celsius,
        vcom_by_frame: flags / VCOM_BY_FRAME % 2 == 1,
    }
}

// The configuration of 312 bytes by themselves, at 1 GHz.
pub fn config_of(bytes: &[u8]) -> Uc8253Config
    ensures { result ≡ spec.config_of bytes.now 0 }
{
    config_at(bytes, 0, BILLION)
}

// Whether the configuration ends with a rate, by the file's length.
pub(crate) fn rated(file: &[u8], t: Trailer) -> bool
    requires { Trails file.now t }
    ensures { result ≡ spec.rated file.now }
{
    file.len() as u64 == t.offset + RATED_TAIL
}

fn rate_in(file: &[u8], t: Trailer) -> u64
    requires { Trails file.now t }
    ensures { result ≡ spec.rate_in file.now }
{
    if rated(file, t) {
        return number(file, t.offset as usize + RATE, 8);
    }
    BILLION
}

// The configuration where this trailer, the file's, points.
pub(crate) fn config_in(file: &[u8], t: Trailer) -> Uc8253Config
    requires { Trails file.now t }
    ensures { result ≡ spec.config_in file.now }
{
    let rate = rate_in(file, t);
    config_at(file, t.offset as usize, rate)
}

// The configuration where the trailer points, of any bytes.
pub fn config(file: &[u8]) -> Uc8253Config
    ensures { result ≡ spec.config_in file.now }
{
    let t = trailer_of(file);
    config_in(file, t)
}

// The pixels of a panel: sources × gates.
pub fn pixels(c: Uc8253Config) -> usize
    ensures { result ≡ spec.pixel_count c }
{
    c.panel.sources as usize * c.panel.gates as usize
}
