// The first event that is not listed. Events are counted from 0.
ghost use Rattle.std.specs.Prelude.{◌≡◌};
ghost use Rattle.reasons.specs.Reasons as rule;

use crate::causes::Reason;
use capture::{COMMAND, EVENT_BYTES, VCOM_RULE, byte, listed};

// Where in an event the kind and the value stand.
const KIND: usize = 8;

const VALUE: usize = 9;

// Whether the kind is listed, with some value.
fn known(kind: u8) -> bool
    ensures { result ≡ rule.known kind }
{
    COMMAND <= kind && kind <= VCOM_RULE
}

// What is wrong with an event that is not listed.
fn fault(event: u32, kind: u8, value: u8) -> Reason
    ensures { result ≡ rule.fault event kind value }
{
    if known(kind) {
        return Reason::Value { event, kind, value };
    }
    Reason::Kind { event, kind }
}

// The first of the file's events that is not listed.
pub(crate) fn first_fault(file: &[u8], count: u32) -> Option<Reason>
    ensures { result ≡ rule.first_fault file.now 0 count }
{
    for i in 0..count {
        let at = EVENT_BYTES * i as usize;
        let kind = byte(file, at, KIND);
        let value = byte(file, at, VALUE);
        if !listed(kind, value) {
            return Some(fault(i, kind, value));
        }
    }
    None
}
