// A query as it is lent to the tables that are asked it.
ghost use Rattle.std.specs.Prelude.{◌≡◌};
ghost use Rattle.leaf_table.specs.Turns.{IsAsk};

use crate::shared_query::{SharedQuery, shared};
use crate::turns::Turn;
use leaf_model::Query;
use std::alloc::Global;
use std::marker::Model;
use std::snapshot::Snapshot;

/// A query with one copy for all tables that are asked it. Without memory for the copy, each open table refuses memory.
/// Contracts see it as the query.
#[derive(Drop)]
pub struct LentQuery<'q> {
    query: &'q Query,
    copy: Option<SharedQuery>,
}

impl<'q> Model for LentQuery<'q> {
    ghost use Rattle.std.specs.Prelude.{◌≡◌, ◌⊎◌, None, Some};
    ghost use Rattle.leaf_model.specs.declared.queries.Query.{Query};

    ghost Value = { Query };

    ghost view = { λ lent. lent.query.now };

    ghost invariant = { λ lent. (lent.copy ≡ None) ⊎ (lent.copy ≡ Some lent.query.now) };
}

impl<'q> LentQuery<'q> {
    pub fn of(alloc: Global, query: &'q Query) -> LentQuery<'q>
        ensures { result ≡ query.now }
    {
        let copy = match SharedQuery::of(alloc, query) {
            Ok(copy) => Some(copy),
            Err(_) => None,
        };
        LentQuery { query, copy }
    }

    /// The turn that asks it.
    pub(crate) fn asking(&self) -> Turn
        ensures { IsAsk self.now result }
    {
        let copy = shared(&self.copy);
        Turn::Ask {
            query: Snapshot::of(self.query),
            copy,
        }
    }
}
