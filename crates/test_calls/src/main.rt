// Replays traces with the Rust's answers after every event (oracle/README.md, "The fixed sample",
// has the layout of standard input) and compares each answer, call by call. Prints a line for each
// of the first answers that differ, and a last line with the counts.
#![tactic(auto)]

mod answers;
mod digest;
mod report;
mod trace;

use answers::Tally;
use capture::little;
use input::read_full;
use showing::INPUT;
use std::io::Read;
use trace::retrace;

// The bytes of a length.
const LENGTH: usize = 4;

// The trace whose capture is the next bytes of the input, as many as there is space for, or those
// that are left.
fn retrace_next<R: Print, I: Read>(rt: &R, input: &mut I, t: &mut Tally, space: &mut [u8]) {
    let n = read_full(input, space);
    retrace(rt, input, t, &space[..n]);
}

// The trace whose capture has that length.
fn retrace_sized<R: Print, I: Read>(rt: &R, input: &mut I, t: &mut Tally, length: u64) {
    let n = length.min(INPUT as u64);
    let mut buffer = [0u8; INPUT];
    retrace_next(rt, input, t, &mut buffer[..n as usize]);
    t.traces = t.traces.saturating_add(1);
}

// The length of the next capture, if there is one.
fn next_length<I: Read>(input: &mut I) -> Option<u64> {
    let mut head = [0u8; LENGTH];
    if read_full(input, &mut head) < LENGTH {
        return None;
    }
    Some(little(&head, 0, LENGTH))
}

// Nothing says that an input ends, so the turns are counted; no input has so many.
fn retrace_all<R: Print, I: Read>(rt: &R, input: &mut I) -> Tally {
    let mut t = Tally {
        traces: 0,
        events: 0,
        differ: 0,
    };
    for _ in 0..u64::MAX {
        let Some(length) = next_length(input) else {
            return t;
        };
        retrace_sized(rt, input, &mut t, length);
    }
    t
}

fn main(rt: HostRuntime) {
    let mut input = rt.reader();
    let t = retrace_all(&rt, &mut input);
    report::summary(&rt, t);
}
