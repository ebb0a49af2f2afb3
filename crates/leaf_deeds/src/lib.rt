//! The deeds of one leaf's steward: starts, flushes, drains and kills, with their notes.
#![tactic(auto)]

mod drain;
mod leaf;
mod steps;

pub use leaf::OneLeaf;
