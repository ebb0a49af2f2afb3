//! What the words of a command line ask for, and a run of a count alone.
#![tactic(auto)]

mod counting;
mod words;

pub use counting::run_count;
pub use words::{Request, request_of};
