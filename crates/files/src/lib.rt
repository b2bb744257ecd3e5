// Files by name: read, or written to. What fails is said on standard error by name.
#![tactic(auto)]

mod naming;
mod reading;
mod stream;
mod writing;

pub use naming::{Shown, path, tell};
pub use reading::{Got, Line, is_input, open_read, read, read_line};
pub use stream::Stream;
pub use writing::{close, create, open};
