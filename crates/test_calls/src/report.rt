// What the program writes.
use crate::answers::{Tally, Which};
use std::fmt;
use std::fmt::Write;

impl fmt::Display for Which {
    fn fmt<W: fmt::Write>(&self, f: &mut fmt::Formatter<W>) -> fmt::Result {
        f.write_str(match self {
            Which::Stored => "answers",
            Which::Refused => "refused",
            Which::Read => "read",
            Which::Busy => "busy",
            Which::Due => "due",
            Which::Deadline => "deadline",
            Which::Rows => "rows",
            Which::Dropped => "dropped",
            Which::Generation => "generation",
            Which::Planes => "planes",
        })
    }
}

// An answer that differs; traces and events are counted from 0.
pub(crate) fn difference<R: Print>(
    rt: &R,
    trace: u64,
    event: u64,
    which: Which,
    ours: u64,
    theirs: u64,
) {
    let _ = println!(rt; "trace {trace} event {event} {which} ours {ours} theirs {theirs}");
}

pub(crate) fn summary<R: Print>(rt: &R, t: Tally) {
    let traces = t.traces;
    let events = t.events;
    let differ = t.differ;
    let _ = println!(rt; "{traces} traces, {events} events, {differ} differ");
}
