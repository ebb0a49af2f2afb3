//! What a region means: its head, the columns after it, and then a directory of the tables, blocks and columns.
#![tactic(auto)]

mod directory;
mod directory_reader;
mod directory_writer;
mod drained;
mod laws;
mod rules;
mod version;

pub use directory::{
    BlockPlaces, BlockPlacesList, Directory, Place, Places, TablePlaces, TablePlacesList,
};
pub use drained::{DrainTable, DrainTables};
pub use laws::{one_head, one_reading};
pub use version::{LAYOUT, allows, reads};
