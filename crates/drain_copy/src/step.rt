// The steps of a drain.
use berth_face::Failed;

/// The region refused a call.
#[derive(Clone, Copy, Debug, PartialEq, Eq)]
pub struct RegionFault;

impl From<Failed> for RegionFault {
    fn from(_: Failed) -> RegionFault {
        RegionFault
    }
}

/// Why a drain cannot be planned: its image, or a number in it, would be too large; or memory ran out.
#[derive(Clone, Copy, Debug, PartialEq, Eq)]
pub enum PlanFault {
    NoRoom,
    NoMemory,
}

/// A step that was made: a closed head in an empty region; a column of `bytes` bytes; the directory, and the head after
/// the flag; or the open flag.
#[derive(Clone, Copy, PartialEq, Eq)]
pub enum DrainStep {
    Begun,
    Column { bytes: u64 },
    Directory,
    Finished,
}

/// The next step: the beginning; a column, or the directory after the last one; the flag; or none.
#[derive(Clone, Copy, PartialEq, Eq)]
pub enum Next {
    Begin,
    Copy,
    Flag,
    Nothing,
}
