//! The plain types of the store: rows in bytes and lent, writes, queries, groups.
#![tactic(auto)]

mod add_rows;
mod fronts;
mod groups;
mod lent_cells;
mod lent_rows;
mod lent_texts;
mod live_bytes;
mod looks;
mod packed_bytes;
mod packed_rows;
mod queries;
mod row_writer;
mod spelled;
mod steps;
mod writes;

pub use add_rows::Rows;
pub use fronts::{SpelledCells, SpelledRows, SpelledTexts};
pub use groups::{Fold, Folds, Group, Groups, Key, Keys};
pub use lent_cells::{LentCell, LentCells, LentValue};
pub use lent_rows::{LentRow, LentRows};
pub use lent_texts::LentTexts;
pub use looks::Sought;
pub use packed_rows::PackedRows;
pub use queries::{Agg, Aggs, Cond, Conds, Op, Query};
pub use row_model::{
    Cell, Cells, MAX_CELLS, MAX_MEMBERS, MAX_NAME, MAX_ROWS, MAX_TEXT, Names, QueryFault, Row,
    Text, Texts, Value, is_table_name,
};
pub use row_writer::put_name;
pub use steps::Steps;
pub use writes::{Write, Writes};
