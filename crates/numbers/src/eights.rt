// Eight pixels at once: the numbers of whole bytes of the planes.
ghost use Rattle.std.specs.Prelude.{◌≡◌, ℕ, ◌<◌, ◌≤◌, ◌+◌, ◌*◌, eqb, length};
ghost use Rattle.ram.specs.Plane.{bit_of};
ghost use Rattle.numbers.specs.Filled.{filled};
ghost use Rattle.numbers.specs.InnerRow.{number_of_bit, number_from, byte_of, Spread};

// Makes seven copies of a byte: for k from 1 on, bit k of copy k stands lowest in byte k.
const COPIES: u64 = 0x0100_8040_2010_0804;

// The lowest bit of each byte but the lowest byte.
const HIGHER: u64 = 0x0101_0101_0101_0100;

// 4 in each byte: old and new black.
const FOURS: u64 = 0x0404_0404_0404_0404;

// The byte that has a 1 where b has the bit that is white.
fn whites(b: u8, white: u8) -> u8
    ensures { (k : ℕ) → k < 8 → eqb (bit_of result k) 1 ≡ eqb (bit_of b k) white }
{
    match white {
        0 => 255 - b,
        1 => b,
        _ => 0,
    }
}

// The bits of a byte, a byte each: bit k in byte k, the lowest byte first. Bit 0 is the highest.
fn spread(b: u8) -> u64
    ensures { Spread b result }
{
    let w = b as u64;
    ((w * COPIES) & HIGHER) + w / 128
}

// The numbers of the eight pixels of a byte of each plane, a byte each, 1 being white.
fn eight(old: u8, new: u8) -> u64
    ensures { (k : ℕ) → k < 8 → byte_of result k ≡ number_of_bit old new 1 k }
{
    let o = spread(old);
    let n = spread(new);
    FOURS - o - n - n
}

// The bytes of a number, the lowest first.
fn put_eight(numbers: &mut [u8], at: usize, w: u64)
    requires { at + 8 ≤ length numbers.old }
    ensures { numbers.new ≡ filled (byte_of w) at 8 numbers.old }
{
    numbers[at..at + 8].copy_from_slice(&w.to_le_bytes());
}

// The numbers of the pixels of n bytes of each plane, with no branch for a pixel.
pub(crate) fn number_bytes(
    numbers: &mut [u8],
    at: usize,
    old: &[u8],
    new: &[u8],
    place: usize,
    n: usize,
    white: u8,
)
    requires { (at + n * 8 ≤ length numbers.old) × (place + n ≤ length old.now) × (place + n ≤ length new.now) }
    ensures { numbers.new
        ≡ filled (number_from old.now new.now place white) at (n * 8) numbers.old }
{
    for i in 0..n {
        let o = whites(old[place + i], white);
        let w = whites(new[place + i], white);
        put_eight(numbers, at + i * 8, eight(o, w));
    }
}
