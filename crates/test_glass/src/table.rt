// A table of stored answers: a count of rows, then the rows. Words between the numbers are passed
// over, and each row's answers are compared with the functions'.
use crate::{print, refresh};
use std::fmt;
use test_numerals::number;

// Whose answers a table holds.
#[derive(Clone, Copy, Debug, PartialEq, Eq)]
pub enum Table {
    // Rows of GRAY SWING STATE.
    Level,
    // Rows of STATE SWING GREY.
    Gray,
    // Rows of a refresh of one pixel, by rule 1 of VCOM, and by either.
    Refresh,
    Ruled,
    // Rows of TOP STATE SWING GREY, of tests/greys.py.
    Wide,
}

impl fmt::Display for Table {
    fn fmt<W: fmt::Write>(&self, f: &mut fmt::Formatter<W>) -> fmt::Result {
        f.write_str(match self {
            Table::Level => "level",
            Table::Gray => "gray",
            Table::Refresh => "refresh",
            Table::Ruled => "ruled",
            Table::Wide => "wide",
        })
    }
}

// Whether a row's answers are the functions', and the place after it.
#[derive(Clone, Copy)]
pub struct Checked {
    pub same: bool,
    pub next: usize,
}

// The rows so far, and the place after them.
#[derive(Clone, Copy)]
pub struct Tally {
    pub equal: u64,
    pub different: u64,
    pub next: usize,
}

pub(crate) fn byte(n: u64) -> u8 {
    (n % 256) as u8
}

fn level_row(s: &[u8], at: usize) -> Checked {
    let gray = number(s, at);
    let swing = number(s, gray.next);
    let state = number(s, swing.next);
    Checked {
        same: glass::level(byte(gray.value), swing.value) == state.value,
        next: state.next,
    }
}

fn gray_row(s: &[u8], at: usize) -> Checked {
    let state = number(s, at);
    let swing = number(s, state.next);
    let gray = number(s, swing.next);
    Checked {
        same: glass::gray(state.value, swing.value) as u64 == gray.value,
        next: gray.next,
    }
}

fn wide_row(s: &[u8], at: usize) -> Checked {
    let top = number(s, at);
    let state = number(s, top.next);
    let swing = number(s, state.next);
    let gray = number(s, swing.next);
    let found = glass::gray_at(state.value, swing.value, (top.value % 0x1_0000) as u16);
    Checked {
        same: found as u64 == gray.value,
        next: gray.next,
    }
}

fn check_row(table: Table, s: &[u8], at: usize) -> Checked {
    match table {
        Table::Level => level_row(s, at),
        Table::Gray => gray_row(s, at),
        Table::Refresh => refresh::refresh_row(s, at),
        Table::Ruled => refresh::ruled_row(s, at),
        Table::Wide => wide_row(s, at),
    }
}

// A row that the text cuts short is not equal.
fn compare_row<R: Print>(rt: &R, table: Table, s: &[u8], t: Tally) -> Tally {
    let row = check_row(table, s, t.next);
    if row.same && row.next < s.len() {
        return Tally {
            equal: t.equal.saturating_add(1),
            different: t.different,
            next: row.next,
        };
    }
    print::row(rt, table, t.equal.saturating_add(t.different));
    Tally {
        equal: t.equal,
        different: t.different.saturating_add(1),
        next: row.next,
    }
}

// The table that begins at the place at. A text has fewer rows than bytes, so a larger count is not
// believed.
pub(crate) fn compared<R: Print>(rt: &R, table: Table, s: &[u8], at: usize) -> Tally {
    let rows = number(s, at);
    let mut t = Tally {
        equal: 0,
        different: 0,
        next: rows.next,
    };
    for _ in 0..rows.value.min(s.len() as u64) {
        t = compare_row(rt, table, s, t);
    }
    t
}
