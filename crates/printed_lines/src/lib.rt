//! The lines that a script's commands print.
#![tactic(auto)]

mod entry;
mod line;
mod parts;
mod put;

pub use line::{Deed, Ending, Line, Said, WhyUntold};
pub use put::{put_line, put_lines};
