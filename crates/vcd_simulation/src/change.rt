// A level for the signals of a code: what it does to the bus, and the events that it makes.
ghost use Rattle.std.specs.Prelude.{◌≡◌, [], ◌+◌, ◌≤◌, length};
ghost use Rattle.base.specs.Pick.{pick};
ghost use Rattle.vcd_declarations.specs.Codes.{five_in};
ghost use Rattle.vcd_bus.specs.Signals as rule;
ghost use Rattle.vcd_simulation.specs.Coded as coded;
ghost use Rattle.vcd_simulation.specs.Written.{written, Holds};

use crate::emit::emit;
use capture::{COMMAND, DATA, RESET};
use event::Event;
use vcd_bus::{Bus, clocked, on_cs, on_dc, on_mosi, reset, shifted, takes};
use vcd_declarations::{Codes, is_code};

// The bus after a change, and how many bytes of events are held.
#[derive(Clone, Copy)]
pub(crate) struct Changed {
    pub(crate) bus: Bus,
    pub(crate) held: usize,
}

// The bits before the last of a byte.
const LAST_BIT: u8 = 7;

fn byte_kind(dc: u8) -> u8
    ensures { result ≡ rule.byte_kind dc }
{
    if dc == 0 { COMMAND } else { DATA }
}

// `clk` takes a level: the eighth bit makes a byte. Two tests: as one value they were worked out without a
// branch, which took a little longer.
fn clock(b: Bus, v: u8, time: u64, out: &mut [u8], held: usize) -> Changed
    requires { held + 10 ≤ length out.old }
    ensures { (result.bus ≡ rule.clocked v b)
        × Holds (written (rule.byte_events time v b)) held result.held out.old out.new }
{
    let bus = clocked(b, v);
    if !takes(b, v) {
        return Changed { bus, held };
    }
    if b.bits != LAST_BIT {
        return Changed { bus, held };
    }
    let e = Event {
        time,
        kind: byte_kind(b.dc),
        value: shifted(b),
    };
    let held = emit(out, held, e);
    Changed { bus, held }
}

fn on_clk(b: Bus, hit: bool, v: u8, time: u64, out: &mut [u8], held: usize) -> Changed
    requires { held + 10 ≤ length out.old }
    ensures { (result.bus ≡ pick hit (rule.clocked v b) b)
        × Holds (written (pick hit (rule.byte_events time v b) [])) held result.held out.old out.new }
{
    if hit {
        clock(b, v, time, out, held)
    } else {
        Changed { bus: b, held }
    }
}

fn reset_value(v: u8) -> u8
    ensures { result ≡ rule.reset_value v }
{
    if v == 0 { 1 } else { 0 }
}

// `rst` takes a level.
fn edge(b: Bus, v: u8, time: u64, out: &mut [u8], held: usize) -> Changed
    requires { held + 10 ≤ length out.old }
    ensures { (result.bus ≡ rule.reset v b)
        × Holds (written (rule.reset_events time v b)) held result.held out.old out.new }
{
    let bus = reset(b, v);
    if b.rst == v {
        return Changed { bus, held };
    }
    let e = Event {
        time,
        kind: RESET,
        value: reset_value(v),
    };
    let held = emit(out, held, e);
    Changed { bus, held }
}

fn on_rst(b: Bus, hit: bool, v: u8, time: u64, out: &mut [u8], held: usize) -> Changed
    requires { held + 10 ≤ length out.old }
    ensures { (result.bus ≡ pick hit (rule.reset v b) b)
        × Holds (written (pick hit (rule.reset_events time v b) [])) held result.held out.old out.new }
{
    if hit {
        edge(b, v, time, out, held)
    } else {
        Changed { bus: b, held }
    }
}

// The five, in the order named.
pub(crate) fn change(
    head: &[u8],
    codes: Codes,
    code: &[u8],
    v: u8,
    time: u64,
    b: Bus,
    out: &mut [u8],
    held: usize,
) -> Changed
    requires { held + 20 ≤ length out.old }
    ensures { (result.bus ≡ coded.after_code (five_in head.now codes) code.now 5 v b)
        × Holds (written (coded.code_makes (five_in head.now codes) code.now 5 time v b)) held result.held
        out.old out.new }
{
    let b1 = on_cs(b, is_code(head, codes.cs, code), v);
    let b2 = on_dc(b1, is_code(head, codes.dc, code), v);
    let c = on_clk(b2, is_code(head, codes.clk, code), v, time, out, held);
    let b4 = on_mosi(c.bus, is_code(head, codes.mosi, code), v);
    on_rst(b4, is_code(head, codes.rst, code), v, time, out, c.held)
}
