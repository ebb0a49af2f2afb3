//! The head of a region: its flag, letters and version; a flag that is closed, and a region that is cut once it is.
#![tactic(auto)]

mod head;
mod region;

pub use head::{Head, head_rest, read_head};
pub use region::{close_flag, cut};
