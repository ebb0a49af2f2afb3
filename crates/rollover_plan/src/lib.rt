//! The plan of a rollover: which leaves restart together, wave by wave.
#![tactic(auto)]

mod laws;
mod plan;
mod wave;

pub use laws::{one_plan, plan_rolls_each_once};
pub use plan::waves;
pub use wave::{Wave, Waves};
