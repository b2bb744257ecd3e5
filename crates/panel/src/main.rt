// The capture program: a capture on standard input, and on standard output what the controller and
// its glass made of it, `refused` and a number, or `no events` for an empty file.
#![tactic(auto)]

use input::{front, read_all};
use showing::{INPUT, show_panel};

fn run<R: Print + Eprint>(rt: &R, file: &[u8]) {
    let mut old = [0u8; 60000];
    let mut new = [0u8; 60000];
    show_panel(rt, file, &mut old, &mut new);
}

fn main(rt: HostRuntime) {
    let mut buffer = [0u8; INPUT];
    let mut input = rt.reader();
    match read_all(&mut input, &mut buffer) {
        Ok(n) => run(&rt, front(&buffer, n)),
        Err(_) => {
            let _ = eprintln!(rt; "could not read standard input");
        }
    }
}
