// An event: its bytes, its kinds, and the answers that are no byte.
pub const EVENT_BYTES: usize = 10;

pub const COMMAND: u8 = 1;

pub const DATA: u8 = 2;

pub const READ: u8 = 3;

pub const RESET: u8 = 4;

pub const ADVANCE: u8 = 5;

pub const VCOM_RULE: u8 = 6;

// A read that gave no byte, and an event that is no read.
pub const NOTHING: u16 = 256;

pub const NO_READ: u16 = 257;
