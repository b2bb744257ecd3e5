// The LUT registers: 20 for VCOM, then 21 to 24 for the pixels.
ghost use Rattle.std.specs.Prelude.{◌≡◌};
ghost use Rattle.registers.specs.Luts.{reset_luts, kept_byte, lut_byte_of};

use command::{LUTC, LUTKK};
use config::LUT_BYTES;

// One for VCOM, four for the pixels.
const TABLES: usize = 5;

// The bytes of the LUTs that the model reads.
#[repr(C)]
#[derive(Clone, Copy)]
pub struct Luts {
    pub bytes: [[u8; LUT_BYTES]; TABLES],
}

// Of a table's bytes the first 42 are kept.
#[tactic(auto, unfolding(crate::specs::Luts::kept_byte))]
fn kept(lut: [u8; LUT_BYTES], i: usize, byte: u8) -> [u8; LUT_BYTES]
    ensures { result ≡ kept_byte i byte lut }
{
    let mut r = lut;
    if i < LUT_BYTES {
        r[i] = byte;
    }
    r
}

impl Luts {
    // A reset clears every LUT.
    #[tactic(auto, unfolding(crate::specs::Luts::reset_luts))]
    pub fn reset() -> Luts
        ensures { result ≡ reset_luts }
    {
        Luts {
            bytes: [[0; LUT_BYTES]; TABLES],
        }
    }

    // What data byte number `index`, from 0, of a command does to the LUTs: nothing unless the command
    // is one of 20 to 24.
    #[tactic(auto, unfolding(crate::specs::Luts::lut_byte_of))]
    pub fn with_byte(self, command: u8, index: u16, byte: u8) -> Luts
        ensures { result ≡ lut_byte_of command index byte self }
    {
        match command {
            LUTC..=LUTKK => {
                let k = (command - LUTC) as usize;
                let mut luts = self;
                luts.bytes[k] = kept(self.bytes[k], index as usize, byte);
                luts
            }
            _ => self,
        }
    }
}
