// Adds a row to an ascending table of groups, in place.
ghost use Rattle.std.specs.Prelude.{◌≡◌, IfOk, List, [], ◌∷◌, ◌++◌, ◌≤◌, ◌<◌, ◌-◌, ◌^◌, length, map, take, drop, true, option_map};
ghost use Rattle.std.specs.List.{AllByRecursion};
ghost use Rattle.std.specs.Vec.{vec_len};
ghost use Rattle.leaf_model.specs.declared.groups.Key.{Key};
ghost use Rattle.leaf_model.specs.declared.groups.Group.{Group};
ghost use Rattle.leaf_model.specs.Groups.{agg_ints, fold_of, group_of};
ghost use Rattle.leaf_model.specs.Lent.{each_value, lent_value};
ghost use Rattle.group_table.specs.Reads.{AreSeen, seen_fold, seen_folds, seen_key, seen_row};
ghost use Rattle.group_table.specs.Joined.{joined_fold, joined_folds, joined_group, joined, IsWithin, IsFoldWithin};
ghost use Rattle.group_table.specs.Table.{Ascends, keys_in, is_first, put_first};

use crate::join::join_fold;
use crate::order::compare_with;
use crate::rows::{fold_row, folds_of_row};
use crate::seen::{SeenRow, own_keys};
use leaf_model::{Agg, Fold, Folds, Group, LentValue, Query};
use std::alloc::{AllocError, Global};
use std::cmp::Ordering;

/// A place in a table, and whether the group there has the keys that were looked for.
#[derive(Clone, Copy)]
pub struct GroupPlace {
    pub at: usize,
    pub is_there: bool,
}

fn stands_at(table: &[Group], place: usize, keys: &[Option<LentValue>]) -> bool
    ensures value { result ≡ is_first (map seen_key keys.now) (drop place table.now) }
    ensures inside { result ≡ true → place < length table.now }
{
    match table.get(place) {
        None => false,
        Some(group) => compare_with(group.keys.as_slice(), keys) == Ordering::Equal,
    }
}

/// The number of groups whose keys are less than these.
fn search_for(table: &[Group], keys: &[Option<LentValue>]) -> usize
    requires { Ascends (keys_in table.now) }
    ensures bound { result ≤ length table.now }
    ensures place { (g : Group) → g.keys ≡ map seen_key keys.now
        → joined table.now (g ∷ []) ≡ take result table.now ++ put_first g (drop result table.now) }
{
    table.partition_point(|group| compare_with(group.keys.as_slice(), keys) == Ordering::Less)
}

/// The place where these keys stand in an ascending table, or would stand.
pub fn place_of(table: &[Group], keys: &[Option<LentValue>]) -> GroupPlace
    requires { Ascends (keys_in table.now) }
    ensures bound { result.at ≤ length table.now }
    ensures there { result.is_there ≡ is_first (map seen_key keys.now) (drop result.at table.now) }
    ensures inside { result.is_there ≡ true → result.at < length table.now }
    ensures place { (g : Group) → g.keys ≡ map seen_key keys.now
        → joined table.now (g ∷ []) ≡ take result.at table.now ++ put_first g (drop result.at table.now) }
{
    let at = search_for(table, keys);
    let is_there = stands_at(table, at, keys);
    GroupPlace { at, is_there }
}

/// Finds the place of these keys, at the guess first. Without a guess they are taken as not there.
pub fn find(table: &[Group], keys: &[Option<LentValue>], guess: Option<usize>) -> GroupPlace
    requires { Ascends (keys_in table.now) }
    ensures there { result.is_there ≡ true → is_first (map seen_key keys.now) (drop result.at table.now) ≡ true }
    ensures inside { result.is_there ≡ true → result.at < length table.now }
{
    match guess {
        None => GroupPlace {
            at: 0,
            is_there: false,
        },
        Some(at) => {
            if stands_at(table, at, keys) {
                GroupPlace { at, is_there: true }
            } else {
                place_of(table, keys)
            }
        }
    }
}

fn add_cell(mine: &mut Fold, agg: &Agg, seen: Option<LentValue>)
    requires { IsFoldWithin (2 ^ 64 - 2) mine.old }
    ensures value { mine.new ≡ joined_fold mine.old (seen_fold agg.now (option_map lent_value seen.entry)) }
    ensures row { IsFoldWithin 1 (seen_fold agg.now (option_map lent_value seen.entry)) }
{
    join_fold(mine, &fold_row(agg, seen));
}

fn add_cells(mut folds: Vec<Fold>, aggs: &[Agg], seen: &[Option<LentValue>]) -> Vec<Fold>
    requires same { vec_len folds ≡ length aggs.now }
    requires seen { length seen.now ≡ length aggs.now }
    requires within { AllByRecursion (IsFoldWithin (2 ^ 64 - 2)) folds.items }
    ensures value { result.items ≡ joined_folds folds.items (seen_folds aggs.now (each_value seen.now)) }
    ensures row { AllByRecursion (IsFoldWithin 1) (seen_folds aggs.now (each_value seen.now)) }
{
    let mut i: usize = 0;
    while i < aggs.len() {
        add_cell(&mut folds[i], &aggs[i], seen[i]);
        i += 1;
    }
    folds
}

fn add_folds(folds: Vec<Fold>, query: &Query, row: &SeenRow) -> Vec<Fold>
    requires seen { AreSeen query.now row.now }
    requires same { vec_len folds ≡ length query.now.aggs }
    requires within { AllByRecursion (IsFoldWithin (2 ^ 64 - 2)) folds.items }
    ensures value { result.items
        ≡ joined_folds folds.items (map (λ agg. fold_of (agg_ints agg (seen_row row.now ∷ []))) query.now.aggs) }
    ensures row { AllByRecursion (IsFoldWithin 1)
        (map (λ agg. fold_of (agg_ints agg (seen_row row.now ∷ []))) query.now.aggs) }
{
    add_cells(folds, query.aggs.as_slice(), row.aggs)
}

/// Adds a row to the group of its keys.
pub fn add_to(alloc: Global, group: &mut Group, query: &Query, row: &SeenRow)
    requires seen { AreSeen query.now row.now }
    requires same { length group.old.folds ≡ length query.now.aggs }
    requires within { IsWithin (2 ^ 64 - 2) group.old }
    ensures value { (ks : List Key)
        → group.new ≡ joined_group group.old (group_of query.now ks (seen_row row.now ∷ [])) }
    ensures row { (ks : List Key) → IsWithin 1 (group_of query.now ks (seen_row row.now ∷ [])) }
{
    let folds = std::mem::replace(&mut group.folds, Folds::of(Vec::new(alloc)));
    group.count += 1;
    group.folds = Folds::of(add_folds(folds.into_inner(), query, row));
}

/// Adds a row at the place of its keys: to the group there, or as a new group.
pub fn put_row(
    alloc: Global,
    query: &Query,
    mut table: Vec<Group>,
    place: GroupPlace,
    row: &SeenRow,
) -> Result<Vec<Group>, AllocError>
    requires seen { AreSeen query.now row.now }
    requires bound { place.at ≤ vec_len table }
    requires there { place.is_there ≡ is_first (map seen_key row.now.keys.now) (drop place.at table.items) }
    requires inside { place.is_there ≡ true → place.at < vec_len table }
    requires same { AllByRecursion (λ (g : Group). length g.folds ≡ length query.now.aggs) table.items }
    requires within { AllByRecursion (IsWithin (2 ^ 64 - 2)) table.items }
    ensures value { IfOk result (λ gs. gs.items ≡ take place.at table.items ++ put_first
        (group_of query.now (map seen_key row.now.keys.now) (seen_row row.now ∷ [])) (drop place.at table.items)) }
    ensures row { IfOk result (λ gs.
        AllByRecursion (IsWithin 1) (group_of query.now (map seen_key row.now.keys.now) (seen_row row.now ∷ []) ∷ [])) }
{
    if place.is_there {
        add_to(alloc, &mut table[place.at], query, row);
        return Ok(table);
    }
    let keys = own_keys(alloc, row.keys)?;
    let folds = folds_of_row(alloc, query, row)?;
    table.insert(
        place.at,
        Group {
            keys,
            count: 1,
            folds,
        },
    )?;
    Ok(table)
}
