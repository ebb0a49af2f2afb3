//! Laws of runs: the lines so far are a transcript, and still are after each item.
#![tactic(auto)]

mod laws;

pub use laws::plays_go_on;
