// The rules that look at one part of the record alone: what turns a call back, what is reported, what
// a data byte is for, what is read; and the small changes of the record that several calls make.
#![tactic(auto)]

mod changes;
mod notes;
mod reads;
mod refused;
mod uses;

pub use changes::{drive_at, logged, rested, start, store_notes, with_current};
pub use notes::{barred, close_note, refresh_note};
pub use reads::{busy_at, driven_byte};
pub use refused::{ends_refresh, foreign, lengths_fit, lent_fits};
pub use uses::{counted, purpose};
