// The refreshes that reset cuts: whether an event cuts the one that runs, when, after how many whole
// frames and of how many; and the line that says so.
#![tactic(auto)]

mod finding;
mod lines;

pub use finding::{Cut, cut_by};
pub use lines::line;
