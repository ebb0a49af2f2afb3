// The groups of the rows so far, in two ascending tables. New keys are rare, and to insert into a large table costs
// much.
ghost use Rattle.std.specs.Prelude.{◌≡◌, IfOk, List, [], ◌∷◌, ◌+◌, ◌-◌, ◌^◌, ℕ, length, true};
ghost use Rattle.std.specs.List.{AllByRecursion};
ghost use Rattle.leaf_model.specs.declared.queries.Query.{Query};
ghost use Rattle.leaf_model.specs.Groups.{groups};
ghost use Rattle.leaf_model.specs.Lent.{lent_row};
ghost use Rattle.group_table.specs.Kept.{is_kept, kept};
ghost use Rattle.group_table.specs.Reads.{AreSeen, seen_row};
ghost use Rattle.group_table.specs.Joined.{joined, FitsGroup, IsWithin};
ghost use Rattle.group_table.specs.Split.{IsSplit};

use crate::guess::{Guesses, mix_seen};
use crate::join::join_tables;
use crate::reads::is_passing;
use crate::seen::SeenRow;
use crate::table::{add_to, find, place_of, put_row};
use leaf_model::{Group, Groups, LentRow, Query};
use std::alloc::{AllocError, Global};

/// A settled table, which gets no new group, and a fresh one for rows whose keys were not found in it.
#[derive(Drop)]
pub struct GroupTables {
    pub settled: Vec<Group>,
    pub fresh: Vec<Group>,
}

/// Guesses for the settled table, and the number of rows that went to the fresh one since it was settled.
#[derive(Drop)]
pub struct Guessed {
    settled: Guesses,
    missed: usize,
}

impl Guessed {
    pub fn of(alloc: Global, settled: &[Group]) -> Result<Guessed, AllocError> {
        let mut guessed = Guessed {
            settled: Guesses::new(alloc, 0)?,
            missed: 0,
        };
        guessed.renew(alloc, settled)?;
        Ok(guessed)
    }

    fn renew(&mut self, alloc: Global, settled: &[Group]) -> Result<(), AllocError> {
        self.missed = 0;
        self.settled.renew(alloc, settled)
    }

    /// Whether to settle the fresh table. A rebuild of a large settled table is dear, and so is an insert into a large
    /// fresh one.
    fn is_due(&self, settled: usize, most: usize) -> bool {
        self.missed >= settled.max(64).min(most).max(settled / 8)
    }
}

/// Adds a row: to the settled table if its keys are found there, else to the fresh one.
fn add_row(
    alloc: Global,
    query: &Query,
    mut tables: GroupTables,
    guessed: &mut Guessed,
    row: &SeenRow,
) -> Result<GroupTables, AllocError>
    requires seen { AreSeen query.now row.now }
    requires split { IsSplit (2 ^ 64 - 2) query.now tables.settled.items tables.fresh.items }
    ensures value { IfOk result (λ ts. joined ts.settled.items ts.fresh.items
        ≡ joined (joined tables.settled.items tables.fresh.items) (groups query.now (seen_row row.now ∷ []))) }
    ensures split { IfOk result (λ ts. (n : ℕ) → IsSplit n query.now tables.settled.items tables.fresh.items
        → IsSplit (n + 1) query.now ts.settled.items ts.fresh.items) }
{
    if !is_passing(query, row) {
        return Ok(tables);
    }
    let guess = guessed.settled.guess(mix_seen(row.keys));
    let place = find(tables.settled.as_slice(), row.keys, guess);
    if place.is_there {
        add_to(alloc, &mut tables.settled[place.at], query, row);
        return Ok(tables);
    }
    guessed.missed = guessed.missed.saturating_add(1);
    let place = place_of(tables.fresh.as_slice(), row.keys);
    let fresh = put_row(alloc, query, tables.fresh, place, row)?;
    Ok(GroupTables {
        settled: tables.settled,
        fresh,
    })
}

/// Merges both tables into one.
pub fn join_both(alloc: Global, tables: GroupTables) -> Result<Groups, AllocError>
    requires { AllByRecursion FitsGroup (joined tables.settled.items tables.fresh.items) }
    ensures { IfOk result (λ gs. gs ≡ joined tables.settled.items tables.fresh.items) }
{
    Ok(join_tables(alloc, Groups::of(tables.settled), Groups::of(tables.fresh))?)
}

/// Settles all groups, once enough rows went to the fresh table.
fn make_room(
    alloc: Global,
    tables: GroupTables,
    guessed: &mut Guessed,
    most: usize,
) -> Result<GroupTables, AllocError>
    requires { AllByRecursion FitsGroup (joined tables.settled.items tables.fresh.items) }
    ensures value { IfOk result (λ ts.
        joined ts.settled.items ts.fresh.items ≡ joined tables.settled.items tables.fresh.items) }
    ensures split { IfOk result (λ ts. (n : ℕ) → (q : Query)
        → IsSplit n q tables.settled.items tables.fresh.items → IsSplit n q ts.settled.items ts.fresh.items) }
{
    if !guessed.is_due(tables.settled.len(), most) {
        return Ok(tables);
    }
    let settled = join_both(alloc, tables)?.into_inner();
    guessed.renew(alloc, settled.as_slice())?;
    Ok(GroupTables {
        settled,
        fresh: Vec::new(alloc),
    })
}

/// Whether a row is at or after the horizon, if there is one.
fn is_kept(row: &LentRow, horizon: Option<i64>) -> bool
    ensures { result ≡ is_kept horizon (lent_row row.now) }
{
    match horizon {
        None => true,
        Some(horizon) => horizon <= row.time,
    }
}

/// Adds a row, if it is at or after the horizon.
pub fn take_row(
    alloc: Global,
    query: &Query,
    tables: GroupTables,
    guessed: &mut Guessed,
    row: &SeenRow,
    horizon: Option<i64>,
    most: usize,
) -> Result<GroupTables, AllocError>
    requires seen { AreSeen query.now row.now }
    requires split { is_kept horizon (seen_row row.now) ≡ true
        → IsSplit (2 ^ 64 - 2) query.now tables.settled.items tables.fresh.items }
    ensures value { IfOk result (λ ts. joined ts.settled.items ts.fresh.items ≡ joined
        (joined tables.settled.items tables.fresh.items) (groups query.now (kept horizon (seen_row row.now ∷ [])))) }
    ensures split { IfOk result (λ ts. (n : ℕ) → IsSplit n query.now tables.settled.items tables.fresh.items
        → IsSplit (n + length (kept horizon (seen_row row.now ∷ []))) query.now ts.settled.items ts.fresh.items) }
{
    if !is_kept(row.row, horizon) {
        return Ok(tables);
    }
    let tables = make_room(alloc, tables, guessed, most)?;
    Ok(add_row(alloc, query, tables, guessed, row)?)
}
