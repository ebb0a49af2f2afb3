// Why a start is refused.
ghost use Rattle.std.specs.Prelude.{◌≡◌};
ghost use Rattle.leaf_opening.specs.Faults.{told_of_adopt, told_of_recovery};

use adopt::AdoptFault;
use leaf_model::Text;
use log_recovery::RecoveryFault;

/// Why a start was refused.
#[derive(Debug, Drop)]
pub enum OpenFault {
    /// A call on the region failed.
    RegionFault,
    /// A call on the disk failed.
    DiskFault,
    /// The log has an open gate that no record and gate follow, or a record that takes a table past 2^40 rows.
    DiskDamaged,
    /// The directory of the region's image, or the log, has a table of this name, which the leaf does not have.
    Stranger(Text),
    NoMemory,
}

impl From<AdoptFault> for OpenFault {
    ghost from_gives = { λ f e. e ≡ told_of_adopt f };

    fn from(fault: AdoptFault) -> OpenFault {
        match fault {
            AdoptFault::RegionFault => OpenFault::RegionFault,
            AdoptFault::NoMemory => OpenFault::NoMemory,
        }
    }
}

impl From<RecoveryFault> for OpenFault {
    ghost from_gives = { λ f e. e ≡ told_of_recovery f };

    fn from(fault: RecoveryFault) -> OpenFault {
        match fault {
            RecoveryFault::DiskFault => OpenFault::DiskFault,
            RecoveryFault::DiskDamaged => OpenFault::DiskDamaged,
            RecoveryFault::Stranger(name) => OpenFault::Stranger(name),
            RecoveryFault::NoMemory => OpenFault::NoMemory,
        }
    }
}
