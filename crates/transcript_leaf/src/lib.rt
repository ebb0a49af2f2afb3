//! Laws of one leaf of a run: its life and its tables' histories tell what was printed of it so far, and still do after
//! each step.
#![tactic(auto)]

mod laws;

pub use laws::drains_have_bounds;
