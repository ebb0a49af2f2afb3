// The calls of an item at the tables that standing queries follow.
ghost use Rattle.std.specs.Prelude.{◌≡◌, ◌<◌, ◌++◌, ◌∷◌, [], None, IfOk, OnOk, length, slice_index_or};
ghost use Rattle.std.specs.List.{AllZip};
ghost use Rattle.std.specs.Option.{option_map};
ghost use Rattle.standing_feed.specs.Sharing.{AreHeard, IsHeardBy, calls_at};

use crate::followed_entries::FollowedEntries;
use crate::heard::Heard;
use crate::hearing::hear_table;
use crate::table_calls::TableCalls;
use printed_lines::Line;
use std::alloc::{AllocError, Global};
use std::collections::VecDeque;
use std::marker::Model;

/// For each standing query the calls of an item at its table, or nothing if its state is stale. They are kept once for
/// a table, however many follow it.
#[derive(Drop)]
pub struct FollowedCalls {
    tables: Vec<TableCalls>,
    heeded: Vec<Option<usize>>,
}

impl Model for FollowedCalls {
    ghost use Rattle.std.specs.Prelude.{List, Option, map, length};
    ghost use Rattle.standing_feed.specs.Following.{CallsAt};
    ghost use Rattle.standing_feed.specs.Sharing.{AreKept, calls_at, kept_in};

    ghost Value = { List (Option CallsAt) };

    ghost view = { λ f. map (kept_in (map calls_at f.tables.items)) f.heeded.items };

    ghost invariant = { λ f. AreKept (length f.tables.items) f.heeded.items };
}

impl FollowedCalls {
    /// Of no standing query.
    pub fn new(alloc: Global) -> FollowedCalls
        ensures { result ≡ [] }
    {
        FollowedCalls {
            tables: Vec::new(alloc),
            heeded: Vec::new(alloc),
        }
    }

    /// Adds a standing query, with these calls.
    pub fn keep(&mut self, calls: Option<TableCalls>) -> Result<(), AllocError>
        ensures { OnOk result (self.new ≡ self.old ++ option_map calls_at calls ∷ []) }
    {
        let Some(calls) = calls else {
            self.heeded.push(None)?;
            return Ok(());
        };
        let table = self.tables.len();
        self.tables.push(calls)?;
        self.heeded.push(Some(table))?;
        Ok(())
    }

    /// Adds a standing query, with the calls of the one in this place.
    pub fn share(&mut self, place: usize) -> Result<(), AllocError>
        requires { place < length self.old }
        ensures { OnOk result (self.new ≡ self.old ++ slice_index_or self.old place None ∷ []) }
    {
        let table = self.heeded[place];
        self.heeded.push(table)?;
        Ok(())
    }

    /// The entries of their tables that the lines of the item tell.
    pub fn hear(self, alloc: Global, lines: &[Line]) -> Result<FollowedEntries, AllocError>
        ensures { IfOk result (λ entries. AllZip (IsHeardBy lines.now) self entries) }
    {
        let FollowedCalls { tables, heeded } = self;
        let tables = hear_tables(alloc, tables, lines)?;
        Ok(FollowedEntries::new(tables, heeded))
    }
}

// The entries of each table, in the order of their numbers.
fn hear_tables(
    alloc: Global,
    tables: Vec<TableCalls>,
    lines: &[Line],
) -> Result<Vec<Vec<Heard>>, AllocError>
    ensures { IfOk result (λ heard. AreHeard lines.now tables.items heard.items) }
{
    let mut all = Vec::new(alloc);
    let mut rest = VecDeque::from_vec(tables);
    while let Some(table) = rest.pop_front() {
        let heard = hear_table(alloc, table, lines)?;
        all.push(heard)?;
    }
    Ok(all)
}
