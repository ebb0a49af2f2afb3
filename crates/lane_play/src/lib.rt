//! Plays the commands of one lane over a crew, one after another.
#![tactic(auto)]

mod command;
mod lane;

pub use command::play_command;
pub use lane::play_lane;
