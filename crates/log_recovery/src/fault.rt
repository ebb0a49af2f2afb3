// Why a log was not read to its end.
ghost use Rattle.std.specs.Prelude.{◌≡◌};
ghost use Rattle.log_recovery.specs.declared.fault.RecoveryFault.TheVariants as fault;
ghost use Rattle.log_recovery.specs.Faults.{told_of_add, told_of_log};

use disk_backup::LogFault;
use leaf_model::Text;
use std::alloc::AllocError;
use table_state::AddFault;

/// Why a log was not read to its end.
#[derive(Debug, Drop)]
pub enum RecoveryFault {
    /// A call on the disk failed.
    DiskFault,
    /// An open gate is not followed by a record and a gate, or a record takes a table past 2^40 rows.
    DiskDamaged,
    /// The next record is of a table of this name, which the leaf does not have.
    Stranger(Text),
    NoMemory,
}

impl From<LogFault> for RecoveryFault {
    ghost from_gives = { λ f e. e ≡ told_of_log f };

    fn from(fault: LogFault) -> RecoveryFault {
        match fault {
            LogFault::DiskFault => RecoveryFault::DiskFault,
            LogFault::DiskDamaged => RecoveryFault::DiskDamaged,
            LogFault::NoMemory => RecoveryFault::NoMemory,
        }
    }
}

impl From<AddFault> for RecoveryFault {
    ghost from_gives = { λ f e. e ≡ told_of_add f };

    fn from(fault: AddFault) -> RecoveryFault {
        match fault {
            AddFault::Full => RecoveryFault::DiskDamaged,
            AddFault::NoMemory => RecoveryFault::NoMemory,
        }
    }
}

impl From<AllocError> for RecoveryFault {
    ghost from_gives = { λ _ e. e ≡ fault.NoMemory };

    fn from(_: AllocError) -> RecoveryFault {
        RecoveryFault::NoMemory
    }
}
