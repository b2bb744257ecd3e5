// Captures one after the other on standard input, each behind its length in four bytes, the lowest
// first; on standard output what `panel` writes for each.
#![tactic(auto)]

ghost use Rattle.std.specs.Prelude.{◌≤◌, length};

use capture::little;
use input::read_full;
use showing::{INPUT, show_panel};
use std::io::Read;

// The bytes of a length.
const LENGTH: usize = 4;

// The bytes that are passed over at a time.
const CHUNK: usize = 4_096;

fn run<R: Print + Eprint>(rt: &R, file: &[u8]) {
    let mut old = [0u8; 60000];
    let mut new = [0u8; 60000];
    show_panel(rt, file, &mut old, &mut new);
}

// Plays the next bytes of the input, as many as there is space for, or those that are left.
fn play_next<R: Print + Eprint, I: Read>(rt: &R, input: &mut I, space: &mut [u8]) {
    let n = read_full(input, space);
    run(rt, &space[..n]);
}

// Passes over the next n bytes of the input, and answers whether there were so many.
fn pass_some<I: Read>(input: &mut I, n: usize) -> bool
    requires { n ≤ 4096 }
{
    let mut space = [0u8; CHUNK];
    read_full(input, &mut space[..n]) == n
}

// Passes over so many bytes of the input, or those that are left: a while, since each turn takes a
// chunk of what is left.
fn pass<I: Read>(input: &mut I, count: u64) {
    let mut left = count;
    while 0 < left {
        let n = left.min(CHUNK as u64);
        if !pass_some(input, n as usize) {
            return;
        }
        left -= n;
    }
}

// A capture of that length. Of one that is larger than any that is played the rest is passed over.
fn replay<R: Print + Eprint, I: Read>(rt: &R, input: &mut I, length: u64) {
    let n = length.min(INPUT as u64);
    let mut buffer = [0u8; INPUT];
    play_next(rt, input, &mut buffer[..n as usize]);
    pass(input, length - n);
}

// The next capture, and whether there was one.
fn replay_next<R: Print + Eprint, I: Read>(rt: &R, input: &mut I) -> bool {
    let mut head = [0u8; LENGTH];
    if read_full(input, &mut head) < LENGTH {
        return false;
    }
    replay(rt, input, little(&head, 0, LENGTH));
    true
}

// Nothing says that an input ends, so the turns are counted; no input has so many.
fn main(rt: HostRuntime) {
    let mut input = rt.reader();
    for _ in 0..u64::MAX {
        if !replay_next(&rt, &mut input) {
            return;
        }
    }
}
