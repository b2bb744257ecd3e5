// The stored rows (mod.rs: report, take_diagnostics): five numbers a diagnostic in a lent buffer of
// 1,024 rows, and a count of those that found no room.
#![tactic(auto)]

ghost use Rattle.std.specs.Prelude.{◌≡◌, ◌<◌, set};
ghost use Rattle.diagnostic_log.specs.Log.{reported, rows_after, put_row, log_emptied};

use diagnostic::{DiagnosticKind, MAX_DIAGNOSTICS, ROW, row};

// The numbers of the lent rows: five for each of 1,024 diagnostics.
pub const ROWS: usize = 5_120;

#[repr(C)]
#[derive(Clone, Copy)]
pub struct Log {
    // The rows stored since they were last taken.
    pub stored: u16,
    // The rows that were not stored.
    pub dropped: u64,
}

// One number at a place; past the end nothing is stored.
fn put(rows: &mut [u64], at: usize, x: u64)
    ensures { rows.new ≡ set rows.old at x }
{
    if at < rows.len() {
        rows[at] = x;
    }
}

// Five numbers from a place on.
fn put_row(rows: &mut [u64], at: usize, numbers: [u64; ROW])
    requires { at < 0x1_0000_0000 }
    ensures { rows.new ≡ put_row rows.old at numbers }
{
    put(rows, at, numbers[0]);
    put(rows, at + 1, numbers[1]);
    put(rows, at + 2, numbers[2]);
    put(rows, at + 3, numbers[3]);
    put(rows, at + 4, numbers[4]);
}

// The log after one diagnostic more: one more row, or one more that was not stored.
#[tactic(auto, unfolding(crate::specs::Log::reported))]
pub fn counted(log: Log) -> Log
    ensures { result ≡ reported log }
{
    let stored = log.stored as usize;
    if stored < MAX_DIAGNOSTICS {
        Log {
            stored: log.stored + 1,
            dropped: log.dropped,
        }
    } else {
        Log {
            stored: log.stored,
            dropped: log.dropped.saturating_add(1),
        }
    }
}

// Its five numbers as the next row, if there is room.
#[tactic(auto, unfolding(crate::specs::Log::rows_after))]
pub fn store(log: Log, rows: &mut [u64], at: u64, kind: DiagnosticKind)
    ensures { rows.new ≡ rows_after log at kind rows.old }
{
    let row_at = log.stored as usize;
    if row_at < MAX_DIAGNOSTICS {
        put_row(rows, ROW * row_at, row(at, kind));
    }
}

// The rows are taken: none is stored any more. They stay in the buffer, and the count of those
// that were not stored stays.
pub fn taken(log: Log) -> Log
    ensures { result ≡ log_emptied log }
{
    Log {
        stored: 0,
        dropped: log.dropped,
    }
}
