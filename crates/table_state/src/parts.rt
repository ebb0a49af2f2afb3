// The parts of a table.
use row_blocks::Blocks;

/// A table in parts, as it is handed over: its horizon, the number of accepted writes, how many rows of the first block
/// are cut off, and the blocks.
#[derive(Drop)]
pub struct Parts {
    pub horizon: i64,
    pub writes: u64,
    pub skip: u32,
    pub blocks: Blocks,
}
