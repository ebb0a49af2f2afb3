//! Rows, and a record of a table's writes, as bytes and back.
#![tactic(auto)]

mod fault;
mod pending;
mod record_reader;
mod record_writer;
mod row_fields;
mod row_reader;
mod row_test;

pub use fault::ReadError;
pub use pending::Pending;
pub use record_reader::{Flush, read_record};
pub use row_reader::{name_of, read_rows, rows_in_front, time_of, u8_at, u64_at};
