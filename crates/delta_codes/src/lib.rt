//! Integers as anchors, one for each 64, and codes of the differences between them.
#![tactic(auto)]

mod difference;
mod encode;
mod lists;

pub use difference::{undo, zigzag};
pub use encode::{Deltas, delta};
pub use lists::{Anchors, Codes};
