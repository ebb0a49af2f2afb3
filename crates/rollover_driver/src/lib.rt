//! Drives a fleet through the waves of a rollover.
#![tactic(auto)]

mod driving;
mod fleet;

pub use driving::{Rolled, drive};
pub use fleet::Fleet;
