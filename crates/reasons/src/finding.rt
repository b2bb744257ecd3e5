// Which test of 8, and then of 9, a file fails first.
ghost use Rattle.std.specs.Prelude.{◌≡◌};
ghost use Rattle.capture.specs.Little.{little};
ghost use Rattle.reasons.specs.Reasons as rule;

use crate::causes::Reason;
use crate::events::first_fault;
use capture::byte;

// How far the trailer's two numbers lie before the file's end.
const OFFSET_BACK: usize = 8;

const COUNT_BACK: usize = 4;

// Bytes of an event; bytes after the events, without a rate and with one; the largest file.
pub(crate) const EVENT: u64 = 10;

pub(crate) const TAIL: u64 = 320;

pub(crate) const RATED_TAIL: u64 = 328;

const MOST_BYTES: u64 = 65_536;

const LAST_VARIANT: u8 = 1;

// The four flags.
const ALL_FLAGS: u8 = 15;

// The number of four bytes from a place on.
#[tactic(auto, using(crate::proofs::WordLaws::four_bytes))]
fn word(file: &[u8], at: usize) -> u32
    ensures { result ≡ little file.now at 4 }
{
    let a = byte(file, at, 0) as u32;
    let b = byte(file, at, 1) as u32;
    let c = byte(file, at, 2) as u32;
    let d = byte(file, at, 3) as u32;
    a + 256 * (b + 256 * (c + 256 * d))
}

// 9, of a file that is not broken: the configuration's place, and how many events there are.
#[tactic(auto, unfolding(crate::specs::Reasons::bad_reason))]
fn bad(file: &[u8], offset: u32, count: u32) -> Option<Reason>
    ensures { result ≡ rule.bad_reason file.now offset count }
{
    let at = offset as usize;
    let variant = byte(file, at, 0);
    if LAST_VARIANT < variant {
        return Some(Reason::Variant(variant));
    }
    let flags = byte(file, at, 1);
    if ALL_FLAGS < flags {
        return Some(Reason::Flags(flags));
    }
    first_fault(file, count)
}

// The first test of 9 that a configuration by itself fails.
pub fn config_reason(config: &[u8]) -> Option<Reason>
    ensures { result ≡ rule.bad_reason config.now 0 0 }
{
    bad(config, 0, 0)
}

// Whether a file has one of the two lengths that its trailer's offset allows.
fn length_fits(bytes: u64, offset: u32) -> bool
    ensures { result ≡ rule.length_fits bytes offset }
{
    bytes == offset as u64 + TAIL || bytes == offset as u64 + RATED_TAIL
}

// The first test of 8 and of 9 that fails.
#[tactic(auto, using(crate::proofs::WordLaws::is_offset, crate::proofs::WordLaws::is_count), unfolding(crate::specs::Reasons::reason_of))]
pub fn reason(file: &[u8]) -> Option<Reason>
    ensures { result ≡ rule.reason_of file.now }
{
    let bytes = file.len() as u64;
    if bytes < TAIL {
        return Some(Reason::Short(bytes));
    }
    if MOST_BYTES < bytes {
        return Some(Reason::Long(bytes));
    }
    let offset = word(file, file.len() - OFFSET_BACK);
    let count = word(file, file.len() - COUNT_BACK);
    if offset as u64 != EVENT * count as u64 {
        return Some(Reason::Offset { offset, count });
    }
    if !length_fits(bytes, offset) {
        return Some(Reason::Length { bytes, offset });
    }
    bad(file, offset, count)
}
