//! Rows in JSON: the row that a text means, or its first fault.
#![tactic(auto)]

mod object;
mod quick;
mod quick_rows;
mod sets;
mod walk;

pub use object::{row, row_meaning};
pub use quick::{RowRoom, quick_time};
pub use quick_rows::quick_row;
pub use row_model::RowFault;
