//! Counts the rows of a whole source in a range, and writes the line that tells their number.
#![tactic(auto)]

mod count;

pub use count::{Range, count_source};
