// The groups of a spread, kept in parts.
ghost use Rattle.std.specs.Prelude.{◌≡◌, ◌≢◌, ℕ, ◌+◌, ◌<◌, ◌≤◌, ◌^◌, ◌==◌, List, [], ◌∷◌, ◌++◌, length, map, not, IfOk, IfErr, OnOk, OnSome, option_to_list, true};
ghost use Rattle.std.specs.List.{AllByRecursion, list_all};
ghost use Rattle.std.specs.Vec.{vec_len, vec_capacity};
ghost use Rattle.row_model.specs.declared.rows.Row.{Row};
ghost use Rattle.leaf_model.specs.declared.queries.Query.{Query};
ghost use Rattle.standing_query.specs.Parts.{AreCounted, AreParts, GoesOn, HoldsParts, IsCut, NeverFall, SpreadsSome, groups_from};
ghost use Rattle.standing_query.specs.States.{TakesMemory, is_end, is_idle};

use crate::fed::Fed;
use crate::late::without_late;
use crate::part::Part;
use group_table::{fold_rows, merge};
use leaf_model::{Groups, LentRows, Query, Row, Rows};
use std::alloc::{AllocError, Global};

/// The most rows of all parts, so that their groups fit.
const MOST_ROWS: u64 = 1 << 62;

/// Groups in parts, of at most `rows` rows together. When a part was appended, the one before it had more than twice as
/// many groups.
#[derive(Drop)]
pub struct Parts {
    pub list: Vec<Part>,
    pub rows: u64,
}

fn pop_groups(list: &mut Vec<Part>) -> Option<Groups>
    ensures items { list.old.items ≡ list.new.items ++ option_to_list result }
    ensures fewer { OnSome result (vec_len list.new < vec_len list.old) }
    ensures room { vec_capacity list.new ≡ vec_capacity list.old }
{
    match list.pop() {
        None => None,
        Some(part) => Some(part.into_groups()),
    }
}

/// Removes the last part, if it has at most about twice as many groups as the new one.
fn pop_short(list: &mut Vec<Part>, groups: usize) -> Option<Groups>
    ensures items { list.old.items ≡ list.new.items ++ option_to_list result }
    ensures fewer { OnSome result (vec_len list.new < vec_len list.old) }
    ensures room { vec_capacity list.new ≡ vec_capacity list.old }
{
    let is_short = match list.as_slice().last() {
        None => false,
        Some(last) => last.len() / 2 <= groups,
    };
    if is_short { pop_groups(list) } else { None }
}

/// Appends a part, after it was merged with each last part that is short beside it.
fn put_part(alloc: Global, list: &mut Vec<Part>, part: Groups) -> Result<(), AllocError>
    requires { AreCounted (list.old.items ++ part ∷ []) }
    ensures rows { (q : Query) (rows : List Row) → AreParts q rows (list.old.items ++ part ∷ [])
        → OnOk result (AreParts q rows list.new.items) }
    ensures room { vec_capacity list.old ≤ vec_capacity list.new }
{
    let mut last = part;
    while let Some(before) = pop_short(list, last.as_slice().len()) {
        last = merge(alloc, before, last)?;
    }
    list.push(Part::of(last))?;
    Ok(())
}

/// Removes the groups of times below the horizon from each part.
fn forget(list: &mut Vec<Part>, horizon: &i64)
    requires { AllByRecursion NeverFall list.old.items }
    ensures groups { list.new.items ≡ map (groups_from horizon.now) list.old.items }
    ensures room { vec_capacity list.new ≡ vec_capacity list.old }
{
    let mut i: usize = 0;
    while i < list.len() {
        list[i].forget(horizon);
        i += 1;
    }
}

/// Whether no part has a group.
pub fn are_empty(parts: &[Part]) -> bool
    ensures { result ≡ list_all (λ part. length part == 0) parts.now }
{
    parts.iter().all(|part| part.is_empty())
}

impl Parts {
    /// No part, with room for one. Err if memory runs out.
    pub fn new(alloc: Global) -> Result<Parts, AllocError>
        ensures list { IfOk result (λ parts. parts.list.items ≡ []) }
        ensures rows { IfOk result (λ parts. parts.rows ≡ 0) }
        ensures room { IfOk result (λ parts. 0 < vec_capacity parts.list) }
    {
        Ok(Parts {
            list: Vec::with_capacity(alloc, 1)?,
            rows: 0,
        })
    }

    /// Replaces all parts by one, of at most 2^40 rows, without memory.
    pub fn settle(&mut self, groups: Groups)
        requires { 0 < vec_capacity self.old.list }
        ensures list { self.new.list.items ≡ groups ∷ [] }
        ensures rows { self.new.rows ≡ 2 ^ 40 }
        ensures room { vec_capacity self.new.list ≡ vec_capacity self.old.list }
    {
        self.list.clear();
        self.list.push_reserved(Part::of(groups));
        self.rows = 1 << 40;
    }

    /// Removes all parts. Their room stays allocated.
    pub fn clear(&mut self)
        ensures list { self.new.list.items ≡ [] }
        ensures rows { self.new.rows ≡ 0 }
        ensures room { vec_capacity self.new.list ≡ vec_capacity self.old.list }
    {
        self.list.clear();
        self.rows = 0;
    }

    /// Appends rows to those that are held.
    fn put(&mut self, spread: &Query, rows: &[Row]) -> Result<(), AllocError>
        requires of { SpreadsSome spread.now }
        requires held { (before : List Row) × HoldsParts spread.now self.old.list.items self.old.rows before }
        ensures rows { (before : List Row) → HoldsParts spread.now self.old.list.items self.old.rows before
            → OnOk result (HoldsParts spread.now self.new.list.items self.new.rows (before ++ rows.now)) }
        ensures room { vec_capacity self.old.list ≤ vec_capacity self.new.list }
    {
        let alloc = *self.list.allocator();
        let count = rows.len() as u64;
        if MOST_ROWS - self.rows < count {
            return Err(AllocError);
        }
        let part = fold_rows(alloc, spread, &LentRows::Owned(rows))?;
        self.rows += count;
        put_part(alloc, &mut self.list, part)?;
        Ok(())
    }

    /// Appends the rows that are not late.
    fn add(&mut self, spread: &Query, rows: Rows, late: u64) -> Result<(), AllocError>
        requires of { SpreadsSome spread.now }
        requires held { (before : List Row) × HoldsParts spread.now self.old.list.items self.old.rows before }
        ensures rows { (before : List Row) → HoldsParts spread.now self.old.list.items self.old.rows before
            → IfOk result (λ _. (kept : List Row) × IsCut rows late kept
            × HoldsParts spread.now self.new.list.items self.new.rows (before ++ kept)) }
        ensures memory { IfErr result (λ _. late < length rows) }
        ensures room { vec_capacity self.old.list ≤ vec_capacity self.new.list }
    {
        if late >= rows.len() as u64 {
            return Ok(());
        }
        let alloc = *self.list.allocator();
        let own = rows.lend().own(alloc)?;
        let kept = without_late(alloc, own, late)?;
        self.put(spread, kept.as_slice())
    }

    /// Feeds an entry to the parts. Gives whether the rows are still known. Err if memory runs out.
    pub fn go_on(&mut self, spread: &Query, fed: Fed) -> Result<bool, AllocError>
        requires of { SpreadsSome spread.now }
        requires held { (before : List Row) × HoldsParts spread.now self.old.list.items self.old.rows before }
        ensures known { IfOk result (λ known. known ≡ not (is_end fed)) }
        ensures rows { (before : List Row) → HoldsParts spread.now self.old.list.items self.old.rows before
            → IfOk result (λ _. (now : List Row) × GoesOn fed before now
            × HoldsParts spread.now self.new.list.items self.new.rows now) }
        ensures memory { IfErr result (λ _. TakesMemory fed) }
        ensures idle { is_idle fed ≡ true → self.new.list.items ≡ self.old.list.items }
        ensures room { vec_capacity self.old.list ≤ vec_capacity self.new.list }
    {
        match fed {
            Fed::Added { rows, late } => {
                self.add(spread, rows, late)?;
                Ok(true)
            }
            Fed::Expired { horizon } => {
                forget(&mut self.list, &horizon);
                Ok(true)
            }
            Fed::Kept { removed } => Ok(removed == 0),
            Fed::Opened => Ok(false),
            Fed::Closed => Ok(false),
            Fed::Other => Ok(true),
        }
    }
}
