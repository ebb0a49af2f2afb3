// What a look at a region finds, and what a step of an adoption comes to.

use crate::taken::Adopt;
use leaf_model::Text;
use leaf_words::WhyDisk;
use region_layout::DrainTables;
use table_state::Tables;

/// The result of a look at the region.
#[derive(Drop)]
pub enum Found {
    /// It is shorter than a head.
    NoHead,
    /// Its flag is this byte, which is not 1.
    Closed(u8),
    /// Its image has this version, which is not read.
    OtherVersion(u32),
    /// It is no image.
    NoImage,
    /// The image has a table of this name, which the leaf does not have; it is the first such table.
    Stranger(Text),
    /// It has the directory of an image, whose columns are to be taken.
    Ready(Adopt),
}

/// The result of a step.
#[derive(Drop)]
pub enum AdoptStep {
    /// One more column was taken; this is left.
    More(Adopt),
    /// The columns mean no tables, so the region is no image.
    NoImage,
    /// All columns were taken: the tables that they make, and the place where the log ends.
    Finished { tables: DrainTables, log_end: u64 },
}

/// The tables of an image, and where the log ends.
#[derive(Drop)]
pub struct ImageTables {
    pub tables: DrainTables,
    pub log_end: u64,
}

/// One table for each name, in their order, and the place where the log ends. A table that the image does not name is
/// empty.
#[derive(Drop)]
pub struct Adopted {
    pub tables: Tables,
    pub log_end: u64,
}

/// The result of an adoption of all columns.
#[derive(Drop)]
pub enum Adoption {
    /// The region has no tables, for this reason.
    NoTables(WhyDisk),
    /// The image has a table of this name, which the leaf does not have. No column was read.
    Stranger(Text),
    /// The tables of the leaf.
    Tables(Adopted),
}
