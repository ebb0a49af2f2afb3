//! The lines of a text: cut one by one, counted, skipped many at a time, or in parts that threads read.
#![tactic(auto)]

mod ends;
mod lines;
mod parts;
mod passing;

pub use ends::line_count;
pub use lines::{cut_at, cut_line, cut_lines, is_blank, is_skipped, without_return};
pub use parts::{MANY_LINES, last_end, parts_of};
