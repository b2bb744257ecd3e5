// The words of a dump's refusals, for a person who must find the fault in it: the first word after
// which it is malformed, and the line that it stands in; the signal that is missing.
#![tactic(auto)]

mod finding;
mod wording;

pub use finding::{first_broken, is_broken, newlines};
pub use wording::{at_word, declared, is_declared_well, unfinished, unsignalled};
