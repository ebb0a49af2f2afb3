//! Answers as text: the groups of a query in order, cut at its limit, each as one line.
#![tactic(auto)]

mod answer;
mod list;
mod order;
mod print;

pub use answer::lines;
pub use list::Lines;
pub use order::order_meaning;
