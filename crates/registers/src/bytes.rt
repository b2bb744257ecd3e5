// What a data byte does to the registers: document 01, "A data byte" (mod.rs, `parameter`).
ghost use Rattle.std.specs.Prelude.{◌≡◌};
ghost use Rattle.registers.specs.Bytes.{high_of, low_of, low_column, ten_bits, window_set, held_area, window_byte, byte_of};

use crate::{Area, LAST_COLUMN, LAST_ROW, Pair, Registers};
use command::{CDI, GSST, PLL, PSR, PTL, PWR, TRES};

// Bits 9:8 of `value` by the low two of `byte`.
fn high(value: u16, byte: u8) -> u16
    ensures { result ≡ high_of value byte }
{
    value % 256 + (byte % 4) as u16 * 256
}

// The low byte of `value`.
fn low(value: u16, byte: u8) -> u16
    ensures { result ≡ low_of value byte }
{
    value / 256 % 4 * 256 + byte as u16
}

// The low byte of a column, which loses its three low bits.
fn low_column(value: u16, byte: u8) -> u16
    ensures { result ≡ low_column value byte }
{
    value / 256 % 4 * 256 + (byte / 8 * 8) as u16
}

// `TRES` and `GSST`.
#[tactic(auto, unfolding(crate::specs::Bytes::ten_bits))]
pub fn ten_bits_pair(pair: Pair, index: u16, byte: u8) -> Pair
    ensures { result ≡ ten_bits index byte pair }
{
    match index {
        0 => Pair {
            h: high(pair.h, byte),
            v: pair.v,
        },
        1 => Pair {
            h: low_column(pair.h, byte),
            v: pair.v,
        },
        2 => Pair {
            h: pair.h,
            v: high(pair.v, byte),
        },
        _ => Pair {
            h: pair.h,
            v: low(pair.v, byte),
        },
    }
}

#[tactic(auto, unfolding(crate::specs::Bytes::held_area))]
fn held_area(area: Area) -> Area
    ensures { result ≡ held_area area }
{
    Area {
        x0: area.x0.min(LAST_COLUMN),
        y0: area.y0.min(LAST_ROW),
        x1: area.x1.min(LAST_COLUMN),
        y1: area.y1.min(LAST_ROW),
    }
}

// The byte alone: `PT_SCAN`, the ninth, changes nothing that the glass shows.
#[tactic(auto, unfolding(crate::specs::Bytes::window_set))]
fn window_set(area: Area, index: u16, byte: u8) -> Area
    ensures { result ≡ window_set index byte area }
{
    let mut next = area;
    match index {
        0 => next.x0 = high(area.x0, byte),
        1 => next.x0 = low_column(area.x0, byte),
        2 => next.x1 = high(area.x1, byte),
        3 => next.x1 = low_column(area.x1, byte) + 7,
        4 => next.y0 = high(area.y0, byte),
        5 => next.y0 = low(area.y0, byte),
        6 => next.y1 = high(area.y1, byte),
        7 => next.y1 = low(area.y1, byte),
        _ => {}
    }
    next
}

// `PTL`: the window keeps its ends in the RAM after every byte.
pub fn window_byte(area: Area, index: u16, byte: u8) -> Area
    ensures { result ≡ window_byte index byte area }
{
    held_area(window_set(area, index, byte))
}

impl Registers {
    // What data byte number `index`, from 0, of a command does to the registers. The soft reset of 00
    // is the caller's.
    #[tactic(auto, unfolding(crate::specs::Bytes::byte_of, crate::specs::Bytes::put_at))]
    pub fn with_byte(self, command: u8, index: u16, byte: u8) -> Registers
        ensures { result ≡ byte_of command index byte self }
    {
        let i = index as usize;
        let mut r = self;
        match command {
            PSR => {
                if i < r.psr.len() {
                    r.psr[i] = byte;
                }
            }
            PWR => {
                if i < r.power.len() {
                    r.power[i] = byte;
                }
            }
            PLL => {
                if i == 0 {
                    r.pll = byte;
                }
            }
            CDI => {
                if i < r.cdi.len() {
                    r.cdi[i] = byte;
                }
            }
            TRES => r.resolution = ten_bits_pair(self.resolution, index, byte),
            GSST => r.start = ten_bits_pair(self.start, index, byte),
            PTL => r.window = window_byte(self.window, index, byte),
            _ => {}
        }
        r
    }
}
