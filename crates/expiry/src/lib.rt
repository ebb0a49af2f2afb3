//! Which rows of a table stay: a horizon as a mask, and a keep as a cut of the first rows.
#![tactic(auto)]

mod cut;
mod laws;
mod mask;

pub use cut::cut_for;
pub use laws::masks_and_cuts;
pub use mask::stays;
