// A script that was read.
use crate::item::Items;

/// A script: its items in their order, the fleet first, and the number of the fleet's line. That is 0 if there is no
/// such line, or the script was no text. At most 16 items declare a standing query.
#[derive(Drop)]
pub struct Script {
    pub fleet_line: u64,
    pub items: Items,
    /// The number of items that declare a standing query.
    pub standings: u32,
}
