//! How the columns of a leaf's tables are moved into its region, one column a step.
#![tactic(auto)]

mod drain;
mod moving;
mod places;
mod planning;
mod region_calls;
mod sizes;
mod step;

pub use drain::Drain;
pub use step::{DrainStep, Next, PlanFault, RegionFault};
