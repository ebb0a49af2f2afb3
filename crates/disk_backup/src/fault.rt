// What may fail while a log is read or settled.
ghost use Rattle.std.specs.Prelude.{◌≡◌};
ghost use Rattle.disk_backup.specs.declared.fault.LogFault.TheVariants as fault;

use berth_face::Failed;
use std::alloc::AllocError;

/// The disk refused a call.
#[derive(Clone, Copy, Debug, PartialEq, Eq)]
pub struct DiskFault;

impl From<Failed> for DiskFault {
    fn from(_: Failed) -> Self {
        DiskFault
    }
}

/// Why a scan of a log stopped: the disk refused a call; no record and gate follow an open gate; or memory ran out.
#[derive(Clone, Copy, Debug, PartialEq, Eq)]
pub enum LogFault {
    DiskFault,
    DiskDamaged,
    NoMemory,
}

impl From<Failed> for LogFault {
    ghost from_gives = { λ _ e. e ≡ fault.DiskFault };

    fn from(_: Failed) -> LogFault {
        LogFault::DiskFault
    }
}

impl From<AllocError> for LogFault {
    ghost from_gives = { λ _ e. e ≡ fault.NoMemory };

    fn from(_: AllocError) -> LogFault {
        LogFault::NoMemory
    }
}
