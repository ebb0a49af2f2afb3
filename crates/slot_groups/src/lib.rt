//! The law of slots: the groups of rows are those of the rows in each slot, joined.
#![tactic(auto)]

mod laws;

pub use laws::slots;
