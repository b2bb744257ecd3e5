// What the crates share: the refusals, and the numbers of a pixel's tables.
#![tactic(auto)]

mod refusals;

pub use refusals::{Refusal, number_of};

// The numbers of a pixel's table in a refresh: white stays white, black to white, white to black,
// black stays black; and a pixel that no table drives.
pub const WW: u8 = 1;

pub const KW: u8 = 2;

pub const WK: u8 = 3;

pub const KK: u8 = 4;

pub const UNDRIVEN: u8 = 255;
