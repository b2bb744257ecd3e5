// Replays stored answers of the Rust (oracle/README.md says how they are made) and of tests/greys.py:
// standard input holds tables, each a count and then so many rows. Prints a line for each row that
// differs, and a last line for each table.
#![tactic(auto)]

mod print;
mod refresh;
mod table;

use input::read_full;
use std::io::Input;
use table::Table;

fn replay<R: Print>(rt: &R, s: &[u8]) {
    let mut next = 0;
    for table in [
        Table::Level,
        Table::Gray,
        Table::Refresh,
        Table::Ruled,
        Table::Wide,
    ] {
        let t = table::compared(rt, table, s, next);
        print::summary(rt, table, t);
        next = t.next;
    }
}

fn main(rt: HostRuntime) {
    let mut buffer = [0u8; 2097152];
    let mut input = rt.reader();
    let n = read_full(&mut input, &mut buffer);
    replay(&rt, &buffer[..n]);
}
