// Little-endian numbers out of a lent file, at any place: past the end bytes are 0.
ghost use Rattle.std.specs.Prelude.{◌≡◌, ◌+◌, ◌^◌, ◌≤◌, ◌<◌, min, get_or};
ghost use Rattle.capture.specs.Little as spec;

// The bytes of a 64-bit number.
const MOST: usize = 8;

// The byte k places after a place.
pub fn byte(bytes: &[u8], at: usize, k: usize) -> u8
    ensures { result ≡ get_or bytes.now (at + k) 0 }
{
    if bytes.len() <= at {
        return 0;
    }
    if bytes.len() - at <= k {
        return 0;
    }
    bytes[at + k]
}

// The number of n bytes from a place on, the last byte first.
pub(crate) fn number(bytes: &[u8], at: usize, n: usize) -> u64
    requires { n ≤ 8 }
    ensures { (result ≡ spec.little bytes.now at n) × (result < 256 ^ n) }
{
    let mut value: u64 = 0;
    for k in (0..n).rev() {
        value = byte(bytes, at, k) as u64 + 256 * value;
    }
    value
}

// The number of n bytes from a place on, of the first eight where there are more.
pub fn little(bytes: &[u8], at: usize, n: usize) -> u64
    ensures { result ≡ spec.little bytes.now at (min n 8) }
{
    if n <= MOST {
        return number(bytes, at, n);
    }
    number(bytes, at, MOST)
}
