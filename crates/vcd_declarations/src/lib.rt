// The declarations of a Value Change Dump (IEEE 1364): the time scale, and the codes of the five
// signals.
#![tactic(auto)]

mod codes;
mod commands;
mod declared;
mod head;
mod variable;

pub use codes::{Codes, Further, is_code};
pub use commands::is_end;
pub use declared::is_known;
pub use head::{Begun, Head, declarations};
