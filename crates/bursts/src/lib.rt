//! Plays an item of a script over a crew: an order, or the lanes of a burst beside one another.
#![tactic(auto)]

mod beside;
mod burst;
mod command;
mod lines;
mod needs;
mod plan;
mod plans;
mod turns;
mod watches;
mod work;

pub use burst::play_burst;
pub use command::play_one;
