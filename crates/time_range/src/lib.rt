//! The range of a list of times: the least, the greatest, and whether they never fall.
#![tactic(auto)]

mod times;

pub use times::{TimeRange, range_of};
