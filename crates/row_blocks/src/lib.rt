//! Sealed blocks: up to 65,536 rows as columns of bytes, with their least and greatest time.
#![tactic(auto)]

mod accepting;
mod block;
mod blocks;
mod column;
mod counting;
mod fault;
mod fronts;
mod headings;
mod in_order;
mod live;
mod merge;
mod places;
mod reading;
mod rows;
mod rules;
mod runs;
mod sealing;

pub use block::RowBlock;
pub use blocks::Blocks;
pub use column::{BlockColumn, BlockColumns, ColumnBytes};
pub use fault::BlockFault;
pub use rows::{own_value, push_cell};
pub use sealing::seal;
