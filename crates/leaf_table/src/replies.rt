// The replies of the calls.
ghost use Rattle.leaf_table.specs.Turns.{reply_of};
ghost use Rattle.leaf_table.specs.Calls.{IsCallersReply, IsToldAs};

use crate::turns::TurnAnswer;
use leaf_model::Groups;
use row_records::Pending;
use table_state::TableState;

/// The reply to a caller, with the number of its entry. Worn: the seat has seen 2^62 entries, and no entry was made.
#[derive(Drop)]
pub enum Reply {
    Added { number: u64, kept: u64, late: u64 },
    Removed { number: u64, rows: u64 },
    Groups { number: u64, groups: Groups },
    Shut { number: u64 },
    Full { number: u64 },
    NoMemory { number: u64 },
    Worn,
}

/// The reply to a take: how many writes the table had accepted, and the record of those that were not taken yet.
#[derive(Drop)]
pub enum Taken {
    Took {
        number: u64,
        writes: u64,
        pending: Pending,
    },
    Worn,
}

/// A table that was shut, with the record of its writes that were not taken.
#[derive(Drop)]
pub struct ClosedTable {
    pub number: u64,
    pub writes: u64,
    pub table: TableState,
}

// The reply of an entry, with the number of the entry.
pub(crate) fn numbered(number: u64, answer: TurnAnswer) -> Reply
    requires { IsCallersReply (reply_of answer) }
    ensures { IsToldAs number (reply_of answer) result }
{
    match answer {
        TurnAnswer::Added { kept, late } => Reply::Added { number, kept, late },
        TurnAnswer::Removed(rows) => Reply::Removed { number, rows },
        TurnAnswer::Groups(groups) => Reply::Groups { number, groups },
        TurnAnswer::Shut => Reply::Shut { number },
        TurnAnswer::Full => Reply::Full { number },
        TurnAnswer::NoMemory => Reply::NoMemory { number },
        TurnAnswer::Took { .. } | TurnAnswer::Closed(_) | TurnAnswer::Noted => unreachable!(),
    }
}
