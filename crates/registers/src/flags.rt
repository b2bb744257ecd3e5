// Single bits of the registers (DS79).
ghost use Rattle.std.specs.Prelude.{◌≡◌, ◌<◌};
ghost use Rattle.registers.specs.Flags.{bit_set, flag_bit, one_is_white, copies_new_to_old};

use crate::Registers;
use config::Variant;

// Bit k of a byte is set.
fn bit_set(byte: u8, k: u8) -> bool
    requires { k < 8 }
    ensures { result ≡ bit_set byte k }
{
    (byte >> k) % 2 == 1
}

// The bits of `PSR`, first byte, from the lowest.
#[derive(Clone, Copy)]
pub enum PsrFlag {
    // No soft reset.
    RstN,
    // The booster is on.
    ShdN,
    // Sources are shifted right.
    Shl,
    // Gates are scanned up.
    Ud,
    // KW mode.
    Kw,
    // The LUTs come from the registers.
    Reg,
}

impl PsrFlag {
    // Whether the first byte of `PSR` has the bit.
    pub fn is_set(self, psr: u8) -> bool
        ensures { result ≡ bit_set psr (flag_bit self) }
    {
        bit_set(psr, self as u8)
    }
}

// `CDI`, first byte: a bit of 1 is white, by DS79's layout and by the UC8279d's.
const CDI_DDX: u8 = 0;

const CDI_DDX_UC8279D: u8 = 4;
// By DS79's layout: new is copied to old after a refresh.
const CDI_N2OCP: u8 = 3;

impl Registers {
    // Whether a bit of 1 is white.
    pub fn one_is_white(self, variant: Variant) -> bool
        ensures { result ≡ one_is_white variant self }
    {
        let cdi = self.cdi[0];
        match variant {
            Variant::Uc8253 => bit_set(cdi, CDI_DDX),
            Variant::Uc8279d => bit_set(cdi, CDI_DDX_UC8279D),
        }
    }

    // Whether a refresh that ends by itself copies new to old.
    pub fn copies_new_to_old(self, variant: Variant) -> bool
        ensures { result ≡ copies_new_to_old variant self }
    {
        let cdi = self.cdi[0];
        match variant {
            Variant::Uc8253 => bit_set(cdi, CDI_N2OCP),
            Variant::Uc8279d => false,
        }
    }
}
