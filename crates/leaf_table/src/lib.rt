//! A table that the callers and the steward of a leaf share by turns.
#![tactic(auto)]

mod asking;
mod base;
mod callers;
mod fleet;
mod founding;
mod lent_query;
mod replies;
mod shared;
mod shared_query;
mod steward;
mod turns;
mod value;

ghost use Rattle.leaf_table.specs.Calls.{MakersKnown};
ghost use Rattle.leaf_table.specs.Laws.{StewardKnows};

pub use base::{Founds, Origin, TableBase};
pub use callers::WORN;
pub use fleet::{CallerSeats, FleetTables, StewardSeats};
pub use lent_query::LentQuery;
pub use replies::{ClosedTable, Reply, Taken};
pub use shared::{Seat, SharedTable};
pub use shared_query::SharedQuery;
pub use turns::{Turn, TurnAnswer};
pub use value::LeafTable;

/// No-op; states what the steward knows of its table after a call of its own.
pub fn steward_knows()
    ensures { StewardKnows }
{}

/// No-op; states who may have made the entries that a seat has seen.
pub fn makers_known()
    ensures { MakersKnown }
{}
