//! The first table of a region's directory that a leaf does not have.
#![tactic(auto)]

mod known;

pub use known::all_known;
