// What the program writes.
use crate::table::{Table, Tally};

// A row that differs, by its index from 0.
pub(crate) fn row<R: Print>(rt: &R, table: Table, index: u64) {
    let _ = println!(rt; "{table} row {index} differs");
}

// A table's last line.
pub(crate) fn summary<R: Print>(rt: &R, table: Table, t: Tally) {
    let equal = t.equal;
    let different = t.different;
    let _ = println!(rt; "{table} {equal} equal {different} different");
}
