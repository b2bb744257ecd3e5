// The registers of the controller (mod.rs): their reset values, the areas and flags that they give,
// and below, a file each, the register bytes and the LUTs.
#![tactic(auto)]

mod areas;
mod bytes;
mod flags;
mod luts;

ghost use Rattle.std.specs.Prelude.{◌≡◌};
ghost use Rattle.registers.specs.Area.{inside};
ghost use Rattle.registers.specs.Reset.{reset_cdi, reset_of};

pub use bytes::{ten_bits_pair, window_byte};
use config::{RAM_GATES, RAM_SOURCES, Variant};
pub use flags::PsrFlag;
pub use luts::Luts;

// The last column and the last row of the RAM.
const LAST_COLUMN: u16 = RAM_SOURCES - 1;

const LAST_ROW: u16 = RAM_GATES - 1;

// A rectangle of RAM, in pixels, its ends included.
#[repr(C)]
#[derive(Clone, Copy)]
pub struct Area {
    pub x0: u16,
    pub y0: u16,
    pub x1: u16,
    pub y1: u16,
}

impl Area {
    #[tactic(auto, unfolding(crate::specs::Area::inside))]
    pub fn contains(self, x: u16, y: u16) -> bool
        ensures { result ≡ inside self x y }
    {
        self.x0 <= x && x <= self.x1 && self.y0 <= y && y <= self.y1
    }
}

// Horizontal and vertical.
#[repr(C)]
#[derive(Clone, Copy)]
pub struct Pair {
    pub h: u16,
    pub v: u16,
}

// The registers but for the LUTs, which stand beside them: these are copied often.
#[repr(C)]
#[derive(Clone, Copy)]
pub struct Registers {
    pub psr: [u8; 2],
    pub power: [u8; 5],
    pub pll: u8,
    pub cdi: [u8; 2],
    // `TRES`: the active area's width and height.
    pub resolution: Pair,
    // `GSST`: its origin.
    pub start: Pair,
    // `PTL`: the partial window.
    pub window: Area,
    // Between `PTIN` and `PTOUT`.
    pub partial: bool,
}

impl Registers {
    // The reset values (DS79), but for `CDI` those of both variants.
    pub const PSR: [u8; 2] = [0x0F, 0x8D];

    pub const POWER: [u8; 5] = [0x07, 0x17, 0x3A, 0x3A, 0x03];

    pub const PLL: u8 = 0x06;

    pub const CDI_UC8253: [u8; 2] = [0x31, 0x07];

    pub const CDI_UC8279D: [u8; 2] = [0xD7, 0x00];

    // The whole RAM.
    pub const RESOLUTION: Pair = Pair {
        h: RAM_SOURCES,
        v: RAM_GATES,
    };

    pub const START: Pair = Pair { h: 0, v: 0 };

    pub const WINDOW: Area = Area {
        x0: 0,
        y0: 0,
        x1: LAST_COLUMN,
        y1: LAST_ROW,
    };

    fn reset_cdi(variant: Variant) -> [u8; 2]
        ensures { result ≡ reset_cdi variant }
    {
        match variant {
            Variant::Uc8253 => Registers::CDI_UC8253,
            Variant::Uc8279d => Registers::CDI_UC8279D,
        }
    }

    // What a soft reset, a reset by pin and power-on give.
    #[tactic(auto, unfolding(crate::specs::Reset::reset_of))]
    pub fn reset(variant: Variant) -> Registers
        ensures { result ≡ reset_of variant }
    {
        Registers {
            psr: Registers::PSR,
            power: Registers::POWER,
            pll: Registers::PLL,
            cdi: Registers::reset_cdi(variant),
            resolution: Registers::RESOLUTION,
            start: Registers::START,
            window: Registers::WINDOW,
            partial: false,
        }
    }
}
