// Makes a query's groups from those of its spread. Each group of the spread is read once, however many rows it stands
// for.
ghost use Rattle.std.specs.Prelude.{◌≡◌, ◌≢◌, ◌≤◌, ◌^◌, [], length, replicate, IfOk, IfErr};
ghost use Rattle.std.specs.List.{AllByRecursion, flat_map};
ghost use Rattle.leaf_model.specs.Groups.{groups};
ghost use Rattle.group_table.specs.Joined.{IsWithin};
ghost use Rattle.standing_query.specs.Parts.{all_joined};
ghost use Rattle.standing_query.specs.Spread.{back, cells_read, row_shown, rows_shown};

use crate::part::Part;
use crate::parts::are_empty;
use crate::shown::row_shown;
use crate::times::groups_times;
use group_table::{fold_rows, merge};
use leaf_model::{Group, Groups, LentRows, Query, Text};
use std::alloc::{AllocError, Global};
use std::slice::from_ref;

/// The query's groups of the rows that one group of the spread stands for.
fn told_one(
    alloc: Global,
    query: &Query,
    names: &[Text],
    group: &Group,
) -> Result<Groups, AllocError>
    requires { group.now.count ≤ 2 ^ 62 }
    ensures value { IfOk result (λ gs. gs
        ≡ groups query.now (replicate group.now.count (row_shown names.now group.now.keys))) }
    ensures within { IfOk result (λ gs. AllByRecursion (IsWithin group.now.count) gs) }
{
    if group.count == 0 {
        return Ok(Groups::of(Vec::new(alloc)));
    }
    let row = row_shown(alloc, names, group.keys.as_slice())?;
    let once = fold_rows(alloc, query, &LentRows::Owned(from_ref(&row)))?;
    Ok(groups_times(alloc, once, group.count))
}

/// The same for a list of groups, by halves.
pub fn told(
    alloc: Global,
    query: &Query,
    names: &[Text],
    spread: &[Group],
) -> Result<Groups, AllocError>
    requires { length (rows_shown names.now spread.now) ≤ 2 ^ 62 }
    ensures value { IfOk result (λ gs. gs ≡ groups query.now (rows_shown names.now spread.now)) }
    ensures within { IfOk result (λ gs. AllByRecursion (IsWithin (length (rows_shown names.now spread.now))) gs) }
{
    if spread.len() <= 1 {
        return match spread.first() {
            None => Ok(Groups::of(Vec::new(alloc))),
            Some(group) => Ok(told_one(alloc, query, names, group)?),
        };
    }
    let (front, back) = spread.split_at(spread.len() / 2);
    let mine = told(alloc, query, names, front)?;
    let theirs = told(alloc, query, names, back)?;
    merge(alloc, mine, theirs)
}

/// The same of a part.
fn told_part(
    alloc: Global,
    query: &Query,
    names: &[Text],
    part: &Part,
) -> Result<Groups, AllocError>
    requires { length (rows_shown names.now part.now) ≤ 2 ^ 62 }
    ensures value { IfOk result (λ gs. gs ≡ groups query.now (rows_shown names.now part.now)) }
    ensures within { IfOk result (λ gs. AllByRecursion (IsWithin (length (rows_shown names.now part.now))) gs) }
{
    let (front, back) = part.as_slices();
    let mine = told(alloc, query, names, front)?;
    if back.is_empty() {
        return Ok(mine);
    }
    let theirs = told(alloc, query, names, back)?;
    merge(alloc, mine, theirs)
}

/// The same over parts, one after another.
pub fn told_parts(
    alloc: Global,
    query: &Query,
    names: &[Text],
    parts: &[Part],
) -> Result<Groups, AllocError>
    requires { length (flat_map (rows_shown names.now) parts.now) ≤ 2 ^ 62 }
    ensures { IfOk result (λ gs. gs ≡ groups query.now (flat_map (rows_shown names.now) parts.now)) }
{
    let mut all = Groups::of(Vec::new(alloc));
    for part in parts {
        let more = told_part(alloc, query, names, part)?;
        all = merge(alloc, all, more)?;
    }
    Ok(all)
}

/// The query's groups of the rows that all parts of its spread stand for. Err if memory runs out.
pub fn tell(
    alloc: Global,
    query: &Query,
    names: &[Text],
    parts: &[Part],
) -> Result<Groups, AllocError>
    requires names { names.now ≡ cells_read query.now }
    requires few { length (flat_map (rows_shown names.now) parts.now) ≤ 2 ^ 62 }
    ensures value { IfOk result (λ gs. gs ≡ back query.now (all_joined parts.now)) }
    ensures memory { IfErr result (λ _. all_joined parts.now ≢ []) }
{
    if are_empty(parts) {
        return Ok(Groups::of(Vec::new(alloc)));
    }
    told_parts(alloc, query, names, parts)
}
