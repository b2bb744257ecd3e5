// The number of each pixel of the panel: the table that drives it in a refresh (mod.rs,
// `ram_pixel` and `luts_of_pixels`).
#![tactic(auto)]

ghost use Rattle.std.specs.Prelude.{◌≡◌, not, ℕ, ◌<◌, ◌≤◌, ◌+◌, ◌*◌, length};
ghost use Rattle.numbers.specs.Filled.{filled};
ghost use Rattle.numbers.specs.InnerRow.{row_at, number_in, number_at, in_order, Outside, Whole, Some};
ghost use Rattle.numbers.specs.Number.{mapping_of, reversed_of, shown_at, transition_of, number_of};
ghost use Rattle.numbers.specs.Number.{some_below, between_both, outside_at, outside_some};

mod eights;

use base::{KK, KW, UNDRIVEN, WK, WW};
use config::{Uc8253Geometry, Variant};
use eights::number_bytes;
use ram::{bit, store};
use registers::{Area, PsrFlag, Registers};

// No area has this column or row: a number and no Option, as the definition `shown_at` has it.
const NOWHERE: u32 = 65_536;

// How the columns or the rows of the panel lie on the RAM's.
#[derive(Clone, Copy)]
pub struct Scan {
    // The panel's flag: the first is the last source or gate.
    pub reversed: bool,
    // Sources or gates.
    pub count: u16,
    // The bit of PSR: not mirrored in the active area.
    pub straight: bool,
}

// What the numbers of a refresh go by.
#[derive(Clone, Copy)]
pub struct Mapping {
    pub columns: Scan,
    pub rows: Scan,
    // The area of start and resolution.
    pub active: Area,
    // The area that is written.
    pub area: Area,
    // The bit that is white.
    pub white: u8,
}

impl Mapping {
    // By the panel's flags, the first byte of PSR, the areas, and the bit that CDI makes white.
    #[tactic(auto, unfolding(crate::specs::Number::mapping_of))]
    pub fn of(panel: Uc8253Geometry, regs: Registers, variant: Variant) -> Mapping
        ensures { result ≡ mapping_of panel regs variant }
    {
        let psr = regs.psr[0];
        Mapping {
            columns: Scan {
                reversed: panel.columns_reversed,
                count: panel.sources,
                straight: PsrFlag::Shl.is_set(psr),
            },
            rows: Scan {
                reversed: panel.rows_reversed,
                count: panel.gates,
                straight: PsrFlag::Ud.is_set(psr),
            },
            active: regs.active(),
            area: regs.written(),
            white: u8::from(regs.one_is_white(variant)),
        }
    }
}

fn reversed(scan: Scan, v: u16) -> u32
    ensures { result ≡ reversed_of scan v }
{
    if scan.reversed {
        scan.count.saturating_sub(1).saturating_sub(v) as u32
    } else {
        v as u32
    }
}

// The column or row of the RAM that a column or row of the panel shows, in an active area from
// first to last.
#[tactic(auto, unfolding(crate::specs::Number::shown_at))]
fn shown(scan: Scan, first: u16, last: u16, v: u16) -> u32
    ensures { result ≡ shown_at scan first last v }
{
    let s = reversed(scan, v);
    if scan.straight {
        s
    } else {
        (first as u32 + last as u32)
            .checked_sub(s)
            .unwrap_or(NOWHERE)
    }
}

#[tactic(auto, unfolding(crate::specs::Number::transition_of))]
fn table_number(old_white: bool, new_white: bool) -> u8
    ensures { result ≡ transition_of old_white new_white }
{
    match (old_white, new_white) {
        (true, true) => WW,
        (false, true) => KW,
        (true, false) => WK,
        (false, false) => KK,
    }
}

// A row of the RAM and the columns of it that lie inside both areas; lo above hi where none does.
#[derive(Clone, Copy)]
struct Row {
    row: u16,
    lo: u16,
    hi: u16,
}

impl Row {
    const NONE: Row = Row {
        row: 0,
        lo: 1,
        hi: 0,
    };
}

// The planes, the row of them that a row of the panel shows, and the bit that is white.
#[derive(Clone, Copy)]
struct Planes<'a> {
    old: &'a [u8],
    new: &'a [u8],
    row: Row,
    white: u8,
}

// Whether c lies outside of first ..= last or of from ..= to.
fn outside(first: u16, last: u16, from: u16, to: u16, c: u32) -> bool
    ensures { result ≡ not (between_both first last from to c) }
{
    c < first as u32 || (last as u32) < c || c < from as u32 || (to as u32) < c
}

// Row r of the RAM, if it lies inside both areas.
#[tactic(auto, unfolding(crate::specs::InnerRow::row_at))]
fn row_at(active: Area, area: Area, r: u32) -> Row
    ensures { result ≡ row_at active area r }
{
    if outside(active.y0, active.y1, area.y0, area.y1, r) {
        Row::NONE
    } else {
        Row {
            row: r as u16,
            lo: active.x0.max(area.x0),
            hi: active.x1.min(area.x1),
        }
    }
}

// The number of a pixel that shows column c of a row.
#[tactic(auto, unfolding(crate::specs::InnerRow::number_in))]
fn number_in(p: Planes, c: u32) -> u8
    ensures { result ≡ number_in p.entry.row p.entry.white p.entry.old.now p.entry.new.now c }
{
    let row = p.row;
    if c < row.lo as u32 || (row.hi as u32) < c {
        return UNDRIVEN;
    }
    let x = c as u16;
    let old = bit(p.old, x, row.row);
    let new = bit(p.new, x, row.row);
    table_number(old == p.white, new == p.white)
}

// How many columns from x on lie outside, up to the first that does not.
fn outside_from(count: u16, row: Row, x: u16) -> u16
    requires { x < count }
    ensures { Outside row x result count }
{
    if row.hi < x {
        count - x
    } else if x < row.lo {
        row.lo.min(count) - x
    } else {
        0
    }
}

// How many bytes of the RAM begin at column x and lie inside.
fn bytes_from(count: u16, row: Row, x: u16) -> u16
    requires { x < count }
    ensures { Whole row x result count }
{
    if x % 8 != 0 || x < row.lo || row.hi < x {
        return 0;
    }
    (count - x).min((row.hi - x).saturating_add(1)) / 8
}

// The columns from x on that lie outside, if the numbers have room for them. Answers how many.
fn leave_some(numbers: &mut [u8], count: u16, row: Row, x: u16) -> u16
    requires { x < count }
    ensures { (Outside row x result count) × (numbers.new ≡ filled (λ k. 255) x result numbers.old) }
{
    let n = outside_from(count, row, x);
    let at = x as usize;
    let end = at + n as usize;
    if end <= numbers.len() {
        numbers[at..end].fill(UNDRIVEN);
        n
    } else {
        0
    }
}

// The bytes from column x on that lie inside, if all three slices have them. Answers how many pixels.
fn number_whole(numbers: &mut [u8], p: Planes, count: u16, x: u16) -> u16
    requires { x < count }
    ensures { (x + result ≤ count)
        × (numbers.new
        ≡ filled (λ k. number_in p.entry.row p.entry.white p.entry.old.now p.entry.new.now (x + k)) x result numbers.old) }
{
    let bytes = bytes_from(count, p.row, x);
    let n = bytes as usize;
    let at = x as usize;
    let place = p.row.row as usize * 100 + at / 8;
    if place + n <= p.old.len().min(p.new.len()) && at + n * 8 <= numbers.len() {
        number_bytes(numbers, at, p.old, p.new, place, n, p.white);
        bytes * 8
    } else {
        0
    }
}

// The next pixels of a row that shows the columns of the RAM in their order, from column x on. Answers
// how many.
fn number_some(numbers: &mut [u8], p: Planes, count: u16, x: u16) -> u16
    requires { x < count }
    ensures { Some result x count
        × (numbers.new
        ≡ filled (λ k. number_in p.entry.row p.entry.white p.entry.old.now p.entry.new.now (x + k)) x result numbers.old) }
{
    let alone = leave_some(numbers, count, p.row, x);
    if 0 < alone {
        return alone;
    }
    let whole = number_whole(numbers, p, count, x);
    if 0 < whole {
        return whole;
    }
    store(numbers, x as usize, number_in(p, x as u32));
    1
}

// A row that shows the columns of the RAM in their order.
fn row_in_order(numbers: &mut [u8], p: Planes, count: u16)
    ensures { numbers.new
        ≡ filled (number_in p.entry.row p.entry.white p.entry.old.now p.entry.new.now) 0 count numbers.old }
{
    let mut x = 0;
    // no `for`: a turn passes as many pixels as it answers
    while x < count {
        x += number_some(numbers, p, count, x);
    }
}

// A row pixel by pixel.
fn row_singly(numbers: &mut [u8], p: Planes, columns: Scan, active: Area)
    ensures { numbers.new
        ≡ filled (number_at p.entry.row p.entry.white p.entry.old.now p.entry.new.now columns active) 0 columns.count numbers.old }
{
    for x in 0..columns.count {
        let c = shown(columns, active.x0, active.x1, x);
        store(numbers, x as usize, number_in(p, c));
    }
}

// Whether the panel shows the columns of the RAM in their order.
fn in_order(columns: Scan) -> bool
    ensures { result ≡ in_order columns }
{
    !columns.reversed && columns.straight
}

// The numbers of row y of the panel, from the slice's front on.
pub fn row_of_numbers(row: &mut [u8], old: &[u8], new: &[u8], p: Mapping, y: u16)
    ensures { row.new
        ≡ filled (λ x. number_of p old.now new.now x y) 0 p.columns.count row.old }
{
    let active = p.active;
    let r = shown(p.rows, active.y0, active.y1, y);
    let planes = Planes {
        old,
        new,
        row: row_at(active, p.area, r),
        white: p.white,
    };
    if in_order(p.columns) {
        row_in_order(row, planes, p.columns.count);
    } else {
        row_singly(row, planes, p.columns, active);
    }
}

// Whether some column or row of the panel shows one outside. Those shown lie side by side, so the
// first and the last tell.
fn ends_outside(scan: Scan, first: u16, last: u16, from: u16, to: u16) -> bool
    requires { 0 < scan.count }
    ensures { result ≡ some_below scan.count (outside_at scan first last from to) }
{
    let a = shown(scan, first, last, 0);
    let b = shown(scan, first, last, scan.count - 1);
    outside(first, last, from, to, a) || outside(first, last, from, to, b)
}

// Whether some pixel of the panel is left alone, by the areas: no plane is looked at.
#[tactic(auto, unfolding(crate::specs::Number::outside_some))]
pub fn some_outside(p: Mapping) -> bool
    ensures { result ≡ outside_some p }
{
    if p.columns.count == 0 || p.rows.count == 0 {
        return false;
    }
    let active = p.active;
    let area = p.area;
    ends_outside(p.columns, active.x0, active.x1, area.x0, area.x1)
        || ends_outside(p.rows, active.y0, active.y1, area.y0, area.y1)
}
