//! The command line, and how a program ends.
#![tactic(auto)]

mod ends;
mod line;

pub use ends::{ended, refusal_status};
pub use line::{CommandLine, Refusal, read_line};
