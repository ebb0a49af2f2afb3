// The entries of the tables that standing queries follow.
ghost use Rattle.std.specs.Prelude.{◌≡◌, ◌<◌, IfSome, OnOk, length, map, slice_get};
ghost use Rattle.standing_feed.specs.Following.{table_place_of};
ghost use Rattle.standing_feed.specs.Sharing.{AreKept, FeedsNext, HeedsTable, entries_of, kept_in};

use crate::follower::Follower;
use crate::heard::Heard;
use printed_lines::Line;
use std::alloc::{AllocError, Global};
use std::collections::VecDeque;
use std::marker::Model;
use std::mem::replace;

/// For each standing query that is still to be fed the entries of its table, in the order of their numbers, or nothing.
/// They are kept once for a table.
#[derive(Drop)]
pub struct FollowedEntries {
    tables: Vec<Vec<Heard>>,
    rest: VecDeque<Option<usize>>,
}

impl Model for FollowedEntries {
    ghost use Rattle.std.specs.Prelude.{List, Option, map, length};
    ghost use Rattle.standing_feed.specs.declared.heard.Heard.{Heard};
    ghost use Rattle.standing_feed.specs.Sharing.{AreKept, entries_of, kept_in};

    ghost Value = { List (Option (List Heard)) };

    ghost view = { λ e. map (kept_in (entries_of e.tables.items)) e.rest.items };

    ghost invariant = { λ e. AreKept (length e.tables.items) e.rest.items };
}

impl FollowedEntries {
    /// Each standing query heeds the entries of the table in its place, or nothing.
    pub fn new(tables: Vec<Vec<Heard>>, heeded: Vec<Option<usize>>) -> FollowedEntries
        requires { AreKept (length tables.items) heeded.items }
        ensures { result ≡ map (kept_in (entries_of tables.items)) heeded.items }
    {
        FollowedEntries {
            tables,
            rest: VecDeque::from_vec(heeded),
        }
    }

    /// Feeds the next one. If none is left, this one was declared after the others, and stays.
    pub fn feed_next(
        &mut self,
        alloc: Global,
        lines: &[Line],
        follower: &mut Follower,
    ) -> Result<(), AllocError>
        ensures place { table_place_of follower.new ≡ table_place_of follower.old }
        ensures feeds { OnOk result (FeedsNext lines.now self.old self.new follower.old follower.new) }
    {
        match self.rest.pop_front() {
            Some(Some(table)) => feed(alloc, &mut self.tables, &self.rest, table, follower),
            Some(None) => follower.follow_unnoted(alloc, lines),
            None => Ok(()),
        }
    }
}

// Feeds one the entries of this table. They are copied if another is still to be fed them.
fn feed(
    alloc: Global,
    tables: &mut Vec<Vec<Heard>>,
    rest: &VecDeque<Option<usize>>,
    table: usize,
    follower: &mut Follower,
) -> Result<(), AllocError>
    requires { table < length tables.old.items }
    ensures place { table_place_of follower.new ≡ table_place_of follower.old }
    ensures feeds { OnOk result (IfSome (slice_get (entries_of tables.old.items) table)
        (λ heard. HeedsTable heard follower.old follower.new)) }
    ensures count { length tables.new.items ≡ length tables.old.items }
    ensures kept { map (kept_in (entries_of tables.new.items)) rest.now.items
        ≡ map (kept_in (entries_of tables.old.items)) rest.now.items }
{
    if rest.contains(&Some(table)) {
        return follower.heed_copies(tables[table].as_slice());
    }
    follower.heed(replace(&mut tables[table], Vec::new(alloc)))
}
