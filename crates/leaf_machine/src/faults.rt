// Why a start is refused.
ghost use Rattle.std.specs.Prelude.{◌≡◌};
ghost use Rattle.leaf_machine.specs.Starts.{told_of};

use leaf_model::Text;
use leaf_opening::OpenFault;

/// Why a start is refused.
#[derive(Debug, Drop)]
pub enum StartFault {
    /// A call on the region failed.
    RegionFault,
    /// A call on the disk failed.
    DiskFault,
    /// An open gate of the log has no record and gate after it, or a record takes a table past 2^40 rows.
    DiskDamaged,
    /// The image or the log names a table that the leaf does not have.
    Stranger(Text),
    NoMemory,
    /// The steward's seat at this table has seen 2^62 entries.
    Worn(u32),
}

/// The refusal of a start for this refusal of the opening.
pub(crate) fn told(fault: OpenFault) -> StartFault
    ensures { result ≡ told_of fault }
{
    match fault {
        OpenFault::RegionFault => StartFault::RegionFault,
        OpenFault::DiskFault => StartFault::DiskFault,
        OpenFault::DiskDamaged => StartFault::DiskDamaged,
        OpenFault::Stranger(name) => StartFault::Stranger(name),
        OpenFault::NoMemory => StartFault::NoMemory,
    }
}
