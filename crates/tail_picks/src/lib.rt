//! Which two leaves a tail asks, by the words of its key, and which of them it picks, by the free rows of their tables.
#![tactic(auto)]

mod picking;
mod room;

pub use picking::{next_leaves, pick, words_of};
pub use room::{every_row, free_rows};
