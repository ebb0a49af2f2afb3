//! One table: its rows, as sealed blocks and a tail, its horizon, and its pending record: the writes that the log was
//! not given.
#![tactic(auto)]

mod fault;
mod front;
mod held;
mod order;
mod parts;
mod sealing;
mod table;
mod tables;
mod tail;

pub use fault::{AddFault, Added};
pub use held::MOST_ROWS;
pub use parts::Parts;
pub use table::TableState;
pub use tables::Tables;
