// Why columns are no block.
ghost use Rattle.std.specs.Prelude.{◌≡◌};

use std::alloc::{AllocError, AllocFailed};

/// Why columns are no block, or why that is not known.
#[derive(Debug, Clone, Copy, PartialEq, Eq)]
pub enum BlockFault {
    /// They break a rule of a block.
    NoRows,
    NoMemory,
}

impl From<AllocError> for BlockFault {
    ghost use Rattle.row_blocks.specs.declared.fault.BlockFault.TheVariants.{NoMemory};

    ghost from_gives = { λ _ e. e ≡ NoMemory };

    fn from(_e: AllocError) -> BlockFault {
        BlockFault::NoMemory
    }
}
