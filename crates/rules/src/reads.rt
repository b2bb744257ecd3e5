// The busy pin, and what the controller drives on a read.
ghost use Rattle.std.specs.Prelude.{◌≡◌};
ghost use Rattle.controller.specs.Arrives as arrives;
ghost use Rattle.controller.specs.Reading.{flags_of, bytes_of, byte_at, driven_byte};

use command::{DSP, FLG, REV, TSC};
use config::Variant;
use controller::{Mode, Operation, Power, Uc8253, Work};

// What `REV` reads.
//
// ASSUMPTION: the third byte is the one that the firmware selects this controller by; the sources
// disagree on the rest.
const REVISION: [u8; 5] = [0x00, 0x03, 0x66, 0xFF, 0xFF];

// `BUSY_N` is low: in reset, or an operation's end lies above the time.
pub fn busy_at(mode: Mode, operation: Operation, at: u64) -> bool
    ensures { result ≡ arrives.busy_at mode.power operation at }
{
    matches!(mode.power, Power::InReset) || works(operation, at)
}

fn works(operation: Operation, at: u64) -> bool
    ensures { result ≡ arrives.works operation.work operation.until at }
{
    match operation.work {
        Work::Nothing => false,
        _ => at < operation.until,
    }
}

// `FLG` (DS79): 6 PTL_flag, 4 I2C_BUSYN (idle), 3 data_flag, 2 PON, 1 POF, 0 BUSY_N (1 idle).
#[tactic(auto, unfolding(controller::specs::Reading::flags_of))]
fn flags(p: Uc8253) -> u8
    ensures { result ≡ flags_of p }
{
    let window = if p.regs.partial { 64 } else { 0 };
    let loaded = if p.mode.data_flag { 8 } else { 0 };
    let supplies = if p.mode.powered { 4 } else { 2 };
    let idle = if busy_at(p.mode, p.operation, p.now) {
        0
    } else {
        1
    };
    window + 16 + loaded + supplies + idle
}

// The byte of read number `index`, from 0; past the last there is none.
#[tactic(auto, using(std::proofs::lemmas::Option::gets, crate::proofs::Bytes::same_byte))]
fn byte_of(bytes: &[u8], index: u16) -> Option<u8>
    ensures { result ≡ byte_at bytes.now index }
{
    bytes.get(usize::from(index)).copied()
}

// What the controller drives on read number `index`, from 0, of a command.
#[tactic(auto, unfolding(controller::specs::Reading::bytes_of))]
fn uc8279d_byte(p: Uc8253, command: u8, index: u16) -> Option<u8>
    ensures { result ≡ byte_at (bytes_of command p) index }
{
    match command {
        REV => byte_of(&REVISION, index),
        FLG => byte_of(&[flags(p)], index),
        DSP => byte_of(&[if p.mode.data_flag { 128 } else { 0 }], index),
        TSC => byte_of(&[p.config.ambient_celsius, 0], index),
        _ => None,
    }
}

// The first batch drives nothing on a read.
pub fn driven_byte(p: Uc8253, command: u8, index: u16) -> Option<u8>
    ensures { result ≡ driven_byte p.config.variant p command index }
{
    match p.config.variant {
        Variant::Uc8253 => None,
        Variant::Uc8279d => uc8279d_byte(p, command, index),
    }
}
