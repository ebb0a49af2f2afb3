// The status of a run.
ghost use Rattle.std.specs.Prelude.{◌≡◌};
ghost use Rattle.run_ends.specs.Outcome.{read_status};
ghost use Rattle.run_ends.specs.declared.status.Status.TheVariants.{NoMemory};

use crate::stream::SourceError;
use row_model::Why;
use std::alloc::AllocError;

/// The status of a run: Done, or the first cause that stopped it.
#[derive(Debug, Drop)]
pub enum Status {
    /// All was read, played and written.
    Done,
    /// The words of the command line are no request.
    Words,
    /// The text of the source is refused at a line, from 1 on; at line 0 if it is too long.
    Script { line: u64, why: Why },
    /// The source failed.
    ReadFault,
    /// The sink failed.
    WriteFault,
    /// Memory ran out.
    NoMemory,
}

impl From<AllocError> for Status {
    ghost from_gives = { λ _ status. status ≡ NoMemory };

    fn from(_e: AllocError) -> Status {
        Status::NoMemory
    }
}

impl From<SourceError> for Status {
    ghost from_gives = { λ error status. status ≡ read_status error };

    fn from(error: SourceError) -> Status {
        match error {
            SourceError::Failed => Status::ReadFault,
            SourceError::TooLong => Status::Script {
                line: 0,
                why: Why::TooLong,
            },
            SourceError::NoMemory => Status::NoMemory,
        }
    }
}
