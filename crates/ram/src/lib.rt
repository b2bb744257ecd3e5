// The two planes of the RAM (mod.rs, `Ram`): 800 × 600 bits each, in lent bytes, 100 a row, the
// highest bit of a byte leftmost. A slice of any length is taken: past its end nothing is written
// and 0 is read.
#![tactic(auto)]

ghost use Rattle.std.specs.Prelude.{◌≡◌, ◌+◌, ◌-◌, ◌%◌, ◌<◌, ◌≤◌, min, length, get_or, set};
ghost use Rattle.ram.specs.Plane.{place as place_of, bit_at};
ghost use Rattle.ram.specs.Found.{ram_bit};
ghost use Rattle.ram.specs.Write.{put_inside, written, next_of};
ghost use Rattle.ram.specs.InnerBytewise.{whole_byte, copied_bytes};
ghost use Rattle.ram.specs.Copy.{copied_bits, copied_row, copied};

mod byte;

use byte::{bit_of, merged, with_bit};
use config::{RAM_GATES, RAM_SOURCES};
use registers::Area;

// Bytes of a row: 800 bits.
const ROW_BYTES: usize = RAM_SOURCES as usize / 8;

// The bytes of a plane: 800 × 600 bits.
pub const PLANE: usize = 60_000;

// The largest 16-bit number.
const LAST: u16 = 0xFFFF;

// Where the next pixel byte goes.
#[repr(C)]
#[derive(Clone, Copy)]
pub struct Cursor {
    pub x: u16,
    pub y: u16,
}

// Where the byte of a pixel stands.
fn place(x: usize, y: usize) -> usize
    requires { (x < 65536) × (y < 65536) }
    ensures { result ≡ place_of x y }
{
    y * ROW_BYTES + x / 8
}

// The byte at a place, 0 past the end.
pub fn byte_at(plane: &[u8], at: usize) -> u8
    ensures { result ≡ get_or plane.now at 0 }
{
    if at < plane.len() { plane[at] } else { 0 }
}

// A byte stored at a place, nothing past the end.
pub fn store(plane: &mut [u8], at: usize, byte: u8)
    ensures { plane.new ≡ set plane.old at byte }
{
    if at < plane.len() {
        plane[at] = byte;
    }
}

// The bit of a pixel.
pub fn bit(plane: &[u8], x: u16, y: u16) -> u8
    ensures { result ≡ bit_at plane.now x y }
{
    let at = place(x as usize, y as usize);
    bit_of(byte_at(plane, at), x as usize % 8)
}

// A pixel of the RAM, nothing past its 800 columns and 600 rows.
pub fn ram_bit(plane: &[u8], x: u16, y: u16) -> Option<u8>
    ensures { result ≡ ram_bit plane.now x y }
{
    if RAM_SOURCES <= x {
        return None;
    }
    if RAM_GATES <= y {
        return None;
    }
    Some(bit(plane, x, y))
}

// One bit, if it lies inside the area.
fn write_bit(plane: &mut [u8], area: Area, x: usize, y: u16, v: u8)
    requires { v < 2 }
    ensures { plane.new ≡ put_inside area plane.old x y v }
{
    if x > LAST as usize {
        return;
    }
    if !area.contains(x as u16, y) {
        return;
    }
    let at = place(x, y as usize);
    let b = with_bit(byte_at(plane, at), x % 8, v);
    store(plane, at, b);
}

// The eight pixels of a byte from a place, bit by bit.
fn write_bits(plane: &mut [u8], area: Area, x: u16, y: u16, byte: u8)
    ensures { plane.new ≡ written plane.old area x y byte }
{
    for k in 0..8 {
        write_bit(plane, area, x as usize + k, y, bit_of(byte, k));
    }
}

// Whether the eight pixels from a place are one byte of a plane and lie inside the area.
#[tactic(auto, unfolding(crate::specs::InnerBytewise::whole_byte))]
fn whole_byte(area: Area, x: u16, y: u16) -> bool
    ensures { result ≡ whole_byte area x y }
{
    x % 8 == 0 && area.contains(x, y) && area.contains(x + 7, y)
}

// The eight pixels of a byte from a place, highest bit first, those inside the area.
pub fn write(plane: &mut [u8], area: Area, x: u16, y: u16, byte: u8)
    ensures { plane.new ≡ written plane.old area x y byte }
{
    if whole_byte(area, x, y) {
        store(plane, place(x as usize, y as usize), byte);
        return;
    }
    write_bits(plane, area, x, y, byte);
}

// The place of the next pixel byte: along the row, then on the next one.
#[tactic(auto, unfolding(crate::specs::Write::next_of))]
pub fn next(area: Area, at: Cursor) -> Cursor
    ensures { result ≡ next_of area at }
{
    let x = at.x.saturating_add(8);
    if area.x1 < x {
        let y = at.y.saturating_add(1);
        return Cursor { x: area.x0, y };
    }
    Cursor { x, y: at.y }
}

// How many columns or rows there are from the first to the last.
fn count(first: u16, last: u16) -> usize
    ensures { result ≡ last + 1 - first }
{
    if last < first {
        0
    } else {
        (last - first) as usize + 1
    }
}

// The n pixels from a place, which stand in one byte.
fn copy_byte(old: &mut [u8], new: &[u8], x: usize, y: usize, n: usize)
    requires { (x < 65536) × (y < 65536) × (x % 8 + n ≤ 8) }
    ensures { old.new ≡ copied_bits old.old new.now x y n }
{
    let at = place(x, y);
    let b = merged(byte_at(old, at), byte_at(new, at), x % 8, n);
    store(old, at, b);
}

// The n bytes from a place on, which both planes have.
fn copy_bytes(old: &mut [u8], new: &[u8], at: usize, n: usize)
    requires { (at + n ≤ length old.old) × (at + n ≤ length new.now) }
    ensures { old.new ≡ copied_bytes old.old new.now at n }
{
    for i in 0..n {
        old[at + i] = new[at + i];
    }
}

// Some of the n pixels of a row from a place: all the whole bytes if the first begins there and
// both planes have them, else those of one byte. Answers how many.
fn copy_some(old: &mut [u8], new: &[u8], x: usize, y: usize, n: usize) -> usize
    requires { (x < 65536) × (y < 65536) × (0 < n) × (n ≤ 65536) }
    ensures { (0 < result) × (result ≤ n) × (old.new ≡ copied_bits old.old new.now x y result) }
{
    let bytes = n / 8;
    if x % 8 == 0 {
        if 0 < bytes {
            let at = place(x, y);
            if at + bytes <= old.len().min(new.len()) {
                copy_bytes(old, new, at, bytes);
                return bytes * 8;
            }
        }
    }
    let bits = (8 - x % 8).min(n);
    copy_byte(old, new, x, y, bits);
    bits
}

// The pixels of a row of the area.
fn copy_row(old: &mut [u8], new: &[u8], area: Area, y: usize)
    requires { y < 65536 }
    ensures { old.new ≡ copied_row old.old new.now area y }
{
    let columns = count(area.x0, area.x1);
    let mut done: usize = 0;
    // no `for`: a turn passes as many pixels as it answers
    while done < columns {
        let n = copy_some(old, new, area.x0 as usize + done, y, columns - done);
        done += n;
    }
}

// The pixels of the area, from new to old.
pub fn copy_new_to_old(old: &mut [u8], new: &[u8], area: Area)
    ensures { old.new ≡ copied old.old new.now area }
{
    let rows = count(area.y0, area.y1);
    for j in 0..rows {
        copy_row(old, new, area, area.y0 as usize + j);
    }
}
