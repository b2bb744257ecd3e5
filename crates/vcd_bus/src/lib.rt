// The five signals of the bus, and the byte that is under way on it.
#![tactic(auto)]

ghost use Rattle.std.specs.Prelude.{◌≡◌};
ghost use Rattle.base.specs.Pick.{pick};
ghost use Rattle.vcd_bus.specs.Signals as rule;

// The levels are numbers, 0 and 1: what may not change, as callers of `takes` hand any in.
#[derive(Clone, Copy)]
pub struct Bus {
    pub cs: u8,
    pub dc: u8,
    pub clk: u8,
    pub mosi: u8,
    pub rst: u8,
    // How many bits of a byte were taken, and the last eight of all.
    pub bits: u8,
    pub byte: u8,
}

// Each signal counts as 1 before its first value.
pub fn quiet() -> Bus
    ensures { result ≡ rule.quiet }
{
    Bus {
        cs: 1,
        dc: 1,
        clk: 1,
        mosi: 1,
        rst: 1,
        bits: 0,
        byte: 0,
    }
}

fn rises(before: u8, after: u8) -> bool
    ensures { result ≡ rule.rises before after }
{
    before == 0 && after == 1
}

// `cs` takes a level, where the change is one of it.
pub fn on_cs(b: Bus, hit: bool, v: u8) -> Bus
    ensures { result ≡ pick hit (rule.selected v b) b }
{
    if hit { selected(b, v) } else { b }
}

fn selected(b: Bus, v: u8) -> Bus
    ensures { result ≡ rule.selected v b }
{
    let bits = if rises(b.cs, v) { 0 } else { b.bits };
    Bus { cs: v, bits, ..b }
}

pub fn on_dc(b: Bus, hit: bool, v: u8) -> Bus
    ensures { result ≡ pick hit (rule.data_or v b) b }
{
    if hit { with_dc(b, v) } else { b }
}

fn with_dc(b: Bus, v: u8) -> Bus
    ensures { result ≡ rule.data_or v b }
{
    Bus { dc: v, ..b }
}

pub fn on_mosi(b: Bus, hit: bool, v: u8) -> Bus
    ensures { result ≡ pick hit (rule.sent v b) b }
{
    if hit { with_mosi(b, v) } else { b }
}

fn with_mosi(b: Bus, v: u8) -> Bus
    ensures { result ≡ rule.sent v b }
{
    Bus { mosi: v, ..b }
}

// Whether a level of `clk` takes a bit.
pub fn takes(b: Bus, v: u8) -> bool
    ensures { result ≡ rule.takes v b }
{
    rises(b.clk, v) && b.cs == 0
}

// The last eight bits with one more.
pub fn shifted(b: Bus) -> u8
    ensures { result ≡ rule.shifted b }
{
    ((2 * u16::from(b.byte) + u16::from(b.mosi)) % 256) as u8
}

fn one_more(bits: u8) -> u8
    ensures { result ≡ rule.counted bits }
{
    ((u16::from(bits) + 1) % 8) as u8
}

// `clk` takes a level.
pub fn clocked(b: Bus, v: u8) -> Bus
    ensures { result ≡ rule.clocked v b }
{
    if takes(b, v) {
        Bus {
            clk: v,
            bits: one_more(b.bits),
            byte: shifted(b),
            ..b
        }
    } else {
        Bus { clk: v, ..b }
    }
}

// `rst` takes a level.
pub fn reset(b: Bus, v: u8) -> Bus
    ensures { result ≡ rule.reset v b }
{
    Bus { rst: v, ..b }
}
