// The controller as a record (mod.rs), handed to each call and back: its parts. What the calls mean is
// in specs/; the rules that look at one part alone are in `rules`, the calls themselves in `uc8253`.
//
// RAM, glass, picture and diagnostics lie in lent buffers; the decoded tables of a refresh stand
// beside the operation, since an enum holds no array.
#![tactic(auto)]

mod drives;
mod lent;
mod notes;
mod uses;

use command::Kind;
use config::Uc8253Config;
use diagnostic_log::Log;
pub use drives::Drive;
use glass::{PanelImage, RefreshKind};
pub use lent::Lent;
pub use notes::Notes;
use ram::Cursor;
use registers::{Area, Luts, Registers};
pub use uses::Use;
use waveform::Waveform;

// The reset line and deep sleep.
#[derive(Clone, Copy)]
pub enum Power {
    Running,
    // `DSLP` with its code: every command is dropped until `RST_N` goes low.
    Asleep,
    // `RST_N` is low.
    InReset,
}

#[derive(Clone, Copy)]
pub struct Mode {
    pub power: Power,
    // `PON` brought the supplies up and no `POF` took them down.
    pub powered: bool,
    // `DSP` came after the last plane.
    pub data_flag: bool,
    // VCOM by rule 2 from the next refresh on: its table runs by its own frames (2026-08).
    pub vcom_by_frame: bool,
}

// A command whose data bytes are taken, counted or read.
#[derive(Clone, Copy)]
pub struct Active {
    pub command: u8,
    pub kind: Kind,
    // Data bytes written, held at 65,535.
    pub received: u16,
    // Data bytes read, held at 65,535.
    pub read: u16,
    // Where the next pixel byte of a stream goes.
    pub cursor: Cursor,
    pub extra_reported: bool,
    pub past_reported: bool,
}

// The command that the data bytes belong to.
#[derive(Clone, Copy)]
pub enum Current {
    // No command since the last reset: a data byte is reported once.
    Idle,
    // A dropped or unknown command: data go nowhere.
    Ignoring,
    Active(Active),
}

#[derive(Clone, Copy)]
pub struct Stage {
    pub current: Current,
}

// A refresh under way: the RAM that is driven, for `N2OCP`, and whether a pixel is left alone.
#[derive(Clone, Copy)]
pub struct Refresh {
    pub area: Area,
    pub kind: RefreshKind,
}

// What keeps `BUSY_N` low.
#[derive(Clone, Copy)]
pub enum Work {
    Nothing,
    PowerOn,
    PowerOff,
    DeepSleep,
    SoftReset,
    // The initialisation after `RST_N` rose.
    HardwareReset,
    Refresh(Refresh),
}

#[derive(Clone, Copy)]
pub struct Operation {
    pub work: Work,
    pub started: u64,
    pub until: u64,
}

// The X3's controller and the head of the picture that its glass shows.
#[derive(Clone, Copy)]
pub struct Uc8253 {
    pub config: Uc8253Config,
    pub regs: Registers,
    pub luts: Luts,
    pub mode: Mode,
    pub stage: Stage,
    pub operation: Operation,
    // The tables, levels, frame period and VCOM's rule of the refresh that was started last.
    pub waveform: Waveform,
    pub image: PanelImage,
    pub log: Log,
    // The clock.
    pub now: u64,
}
