//! Groups of rows: folds rows by their keys, and merges two tables of groups.
#![tactic(auto)]

mod fold;
mod guess;
mod join;
mod order;
mod reads;
mod rows;
mod seen;
mod table;
mod tables;

pub use fold::{fold_onto, fold_rows};
pub use join::merge;
pub use reads::accepts;
