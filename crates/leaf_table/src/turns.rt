// What a turn takes in and gives out.
use crate::shared_query::SharedQuery;
use leaf_model::{Groups, Query, Rows};
use row_records::Pending;
use std::snapshot::Snapshot;
use table_state::TableState;

/// A call, as it takes its turn.
#[derive(Drop)]
pub enum Turn {
    Add(Rows),
    /// `copy` is None if memory for it ran out.
    AddCopy {
        rows: Snapshot<Rows>,
        copy: Option<Rows>,
    },
    Expire(i64),
    Keep(u64),
    /// `copy` is None if memory for it ran out.
    Ask {
        query: Snapshot<Query>,
        copy: Option<SharedQuery>,
    },
    Take,
    Flushed(u64),
    Shut,
    Done,
    Open {
        writes: u64,
        table: TableState,
    },
}

/// The answer of a turn: a reply without its number, or what goes to the steward.
#[derive(Drop)]
pub enum TurnAnswer {
    Added { kept: u64, late: u64 },
    Removed(u64),
    Groups(Groups),
    Shut,
    Full,
    NoMemory,
    Took { writes: u64, pending: Pending },
    Closed(TableState),
    Noted,
}
