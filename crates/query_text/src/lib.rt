//! The text of a query: reading it, and writing it.
#![tactic(auto)]

mod aggregates;
mod builders;
mod laws;
mod numbers;
mod places;
mod printing;
mod quotes;
mod reading;
mod roles;
mod scanner;
mod spellings;
mod steps;
mod tokens;

pub use laws::{grammar_meaning, print_reads_back};
pub use printing::print;
pub use reading::parse;
