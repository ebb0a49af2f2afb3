// Why a text is no script.
ghost use Rattle.std.specs.Prelude.{◌≡◌};
ghost use Rattle.row_model.specs.declared.script_fault.ScriptFault.TheVariants.{At, NoMemory};

use crate::query_fault::QueryFault;
use crate::row_fault::RowFault;
use std::alloc::{AllocError, AllocFailed};

/// What is wrong with a line. The variants stand in the order of the tests: a line with several faults has the first.
/// The text alone gives neither `TooLong` nor `NoBerth`: a caller tests its own limits.
#[derive(Debug, Drop)]
pub enum Why {
    /// The text is longer than the caller takes.
    TooLong,
    /// The first word is no command.
    Command,
    /// No fleet stands before the command.
    NoFleet,
    /// The word may not stand here: a second fleet; `lane` or `end` outside a burst; `burst` or `fleet` inside one; a
    /// command before a burst's first lane. Or the text ends inside a burst.
    Place,
    /// The words after the first are not those of the command, or a number is out of its range.
    Words,
    /// The fleet has no such leaf.
    Leaf,
    /// The fleet has no such table.
    Table,
    /// The burst has 16 lanes before this one.
    Lanes,
    /// An earlier lane of the burst has a command of the same leaf's steward.
    TwoStewards,
    /// Fewer lines follow the command than it has rows.
    Short,
    /// The line should be a row, and is not.
    Row(RowFault),
    /// The text after `query` and one space, or after a standing query's leaf and one space, is not a query. Its places
    /// count from there.
    Query(QueryFault),
    /// The fleet has more leaves than the caller has berths.
    NoBerth,
}

/// Why no script was read: the first line with a fault, counted from 1; or memory ran out.
#[derive(Debug, Drop)]
pub enum ScriptFault {
    At { line: u64, why: Why },
    NoMemory,
}

impl From<AllocError> for ScriptFault {
    ghost from_gives = { λ _ e. e ≡ NoMemory };

    fn from(_e: AllocError) -> ScriptFault {
        ScriptFault::NoMemory
    }
}

impl<T: Drop> From<AllocFailed<T>> for ScriptFault {
    ghost from_gives = { λ _ e. e ≡ NoMemory };

    fn from(_e: AllocFailed<T>) -> ScriptFault {
        ScriptFault::NoMemory
    }
}

/// The fault of a line.
pub fn fault_at(line: u64, why: Why) -> ScriptFault
    ensures { result ≡ At line why }
{
    ScriptFault::At { line, why }
}
