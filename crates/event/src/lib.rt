// An event of a capture, ten bytes (document 01, "The capture program"): its time, its kind and its
// value. What it does to the controller is in specs/.
//
// Places past the end of the bytes read as 0.
#![tactic(auto)]

ghost use Rattle.std.specs.Prelude.{◌≡◌, ◌+◌, ◌*◌, ◌<◌};
ghost use Rattle.event.specs.Events as rule;

use capture::{EVENT_BYTES, byte, little};

// What happens at a time; what the value means, if anything, depends on the kind.
#[derive(Clone, Copy)]
pub struct Event {
    pub time: u64,
    pub kind: u8,
    pub value: u8,
}

// Two numbers as the low and the high half of one.
fn pair(low: u8, high: u8) -> u16
    ensures { result ≡ low + 256 * high }
{
    low as u16 + 256 * (high as u16)
}

fn four(low: u16, high: u16) -> u32
    ensures { result ≡ low + 65_536 * high }
{
    low as u32 + 65_536 * (high as u32)
}

fn eight(low: u32, high: u32) -> u64
    ensures { result ≡ low + 4_294_967_296 * high }
{
    low as u64 + 4_294_967_296 * (high as u64)
}

// An event that lies whole in the bytes.
fn whole_event(events: &[u8], index: usize) -> Event
    requires { index < rule.events_in events.now }
    ensures { result ≡ rule.event_at events.now index }
{
    let place = index * EVENT_BYTES;
    let first = four(
        pair(events[place], events[place + 1]),
        pair(events[place + 2], events[place + 3]),
    );
    let last = four(
        pair(events[place + 4], events[place + 5]),
        pair(events[place + 6], events[place + 7]),
    );
    Event {
        time: eight(first, last),
        kind: events[place + 8],
        value: events[place + 9],
    }
}

// The event of that index. One that begins past the end is all zeros, also where its place would
// be no number of the machine's.
pub fn event_at(events: &[u8], index: usize) -> Event
    ensures { result ≡ rule.event_at events.now index }
{
    let whole = events.len() / EVENT_BYTES;
    if index < whole {
        return whole_event(events, index);
    }
    if whole < index {
        return Event {
            time: 0,
            kind: 0,
            value: 0,
        };
    }
    let place = index * EVENT_BYTES;
    let time = little(events, place, 8);
    let kind = byte(events, place, 8);
    let value = byte(events, place, 9);
    Event { time, kind, value }
}
