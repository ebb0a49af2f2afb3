//! What a row is, and why a text is no row, no query or no script: texts, sets, rows, names and their limits.
#![tactic(auto)]

mod limits;
mod query_fault;
mod row_fault;
mod rows;
mod script_fault;
mod set;
mod table_names;
mod text;

pub use limits::{MAX_CELLS, MAX_MEMBERS, MAX_NAME, MAX_ROWS, MAX_TEXT};
pub use query_fault::QueryFault;
pub use row_fault::RowFault;
pub use rows::{Cell, Cells, Row, Value};
pub use script_fault::{ScriptFault, Why, fault_at};
pub use table_names::is_table_name;
pub use text::{Names, Text, Texts};
