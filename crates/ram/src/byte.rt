// The bits of a byte, bit 0 the highest.
ghost use Rattle.std.specs.Prelude.{◌≡◌, ◌+◌, ◌<◌, ◌≤◌};
ghost use Rattle.ram.specs.Plane.{bit_of, with_bit};
ghost use Rattle.ram.specs.InnerBytewise.{merge};

// Bit k.
pub(crate) fn bit_of(b: u8, k: usize) -> u8
    requires { k < 8 }
    ensures { result ≡ bit_of b k }
{
    (b >> (7 - k)) % 2
}

// The byte with bit k put to v.
pub(crate) fn with_bit(b: u8, k: usize, v: u8) -> u8
    requires { (k < 8) × (v < 2) }
    ensures { result ≡ with_bit b k v }
{
    let shift = 7 - k;
    b - (bit_of(b, k) << shift) + (v << shift)
}

// The byte with n bits of another from bit k.
pub(crate) fn merged(old: u8, new: u8, k: usize, n: usize) -> u8
    requires { k + n ≤ 8 }
    ensures { result ≡ merge old new k n }
{
    if n == 8 {
        return new;
    }
    let mut b = old;
    for i in 0..n {
        b = with_bit(b, k + i, bit_of(new, k + i));
    }
    b
}
