//! What a region holds, told without a change to it.
#![tactic(auto)]

mod blocks;
mod inspecting;
mod laws;
mod lists;
mod seen;
mod tables;
mod text;

pub use inspecting::inspect;
pub use laws::image_is_adopted;
pub use seen::{BlockLine, BlockLines, Seen, TableLine, TableLines};
pub use text::region_lines;
