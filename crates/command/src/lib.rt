// The command bytes (DS79's table), and below, what the model does with each: document 01, "A command
// byte".
#![tactic(auto)]

mod kinds;
mod sorting;

pub use kinds::{Kind, Params};
pub use sorting::{is_read_command, kind, least_count, takes};

pub const PSR: u8 = 0x00;

pub const PWR: u8 = 0x01;

pub const POF: u8 = 0x02;

pub const PFS: u8 = 0x03;

pub const PON: u8 = 0x04;

pub const PMES: u8 = 0x05;

pub const BTST: u8 = 0x06;

pub const DSLP: u8 = 0x07;

pub const DTM1: u8 = 0x10;

pub const DSP: u8 = 0x11;

pub const DRF: u8 = 0x12;

pub const DTM2: u8 = 0x13;

pub const DUSPI: u8 = 0x15;

pub const AUTO: u8 = 0x17;

pub const LUTC: u8 = 0x20;

pub const LUTKK: u8 = 0x24;

pub const LUTBD: u8 = 0x25;

pub const LUTOPT: u8 = 0x2A;

pub const KWOPT: u8 = 0x2B;

pub const PLL: u8 = 0x30;

pub const TSC: u8 = 0x40;

pub const TSE: u8 = 0x41;

pub const TSW: u8 = 0x42;

pub const TSR: u8 = 0x43;

pub const PBC: u8 = 0x44;

pub const CDI: u8 = 0x50;

pub const LPD: u8 = 0x51;

pub const EVS: u8 = 0x52;

pub const TCON: u8 = 0x60;

pub const TRES: u8 = 0x61;

pub const GSST: u8 = 0x65;

pub const REV: u8 = 0x70;

pub const FLG: u8 = 0x71;

pub const CRC: u8 = 0x72;

pub const AMV: u8 = 0x80;

pub const VV: u8 = 0x81;

pub const VDCS: u8 = 0x82;

pub const PTL: u8 = 0x90;

pub const PTIN: u8 = 0x91;

pub const PTOUT: u8 = 0x92;

pub const PGM: u8 = 0xA0;

pub const APG: u8 = 0xA1;

pub const ROTP: u8 = 0xA2;

pub const CCSET: u8 = 0xE0;
// In neither datasheet; both X3 drivers send 02. Stored.
pub const LVSEL_X3: u8 = 0xE1;

pub const PWS: u8 = 0xE3;

pub const LVSEL: u8 = 0xE4;

pub const TSSET: u8 = 0xE5;

pub const TSBDRY: u8 = 0xE7;
