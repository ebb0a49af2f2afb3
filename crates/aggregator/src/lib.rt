//! Asks one table of each leaf of a fleet: which leaves answered, and the groups of their rows.
#![tactic(auto)]

mod asking;
mod fan;
mod fanned;
mod lists;
mod sorting;

pub use fan::ask_all;
pub use fanned::Fanned;
pub use lists::{Leaves, Named, NamedList};
