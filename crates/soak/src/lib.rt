//! The script of a soak, which a seed and a number of rows decide.
#![tactic(auto)]

mod draw;
mod making;
mod queries;
mod row;
mod texts;

pub use making::script;
