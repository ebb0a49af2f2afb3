// Folds one row.
ghost use Rattle.std.specs.Prelude.{◌≡◌, ◌^◌, [], ◌∷◌, length, map, IfOk, option_and_then, option_map, option_to_list};
ghost use Rattle.std.specs.List.{AllByRecursion};
ghost use Rattle.leaf_model.specs.Groups.{agg_ints, as_int, fold_of};
ghost use Rattle.leaf_model.specs.Lent.{each_value, lent_value};
ghost use Rattle.group_table.specs.Joined.{IsFoldWithin};
ghost use Rattle.group_table.specs.Reads.{AreSeen, seen_fold, seen_folds, seen_row};

use crate::reads::int_of;
use crate::seen::SeenRow;
use leaf_model::{Agg, Fold, Folds, LentValue, Query};
use std::alloc::{AllocError, Global};

/// The fold of no integers.
fn no_fold() -> Fold
    ensures value { result ≡ fold_of [] }
    ensures within { IsFoldWithin 1 result }
{
    Fold {
        seen: 0,
        sum: 0,
        min: None,
        max: None,
    }
}

/// The fold of one value: of its integer, or of none.
fn fold_cell(seen: Option<LentValue>) -> Fold
    ensures value { result ≡ fold_of (option_to_list (option_and_then as_int (option_map lent_value seen.entry))) }
    ensures within { IsFoldWithin 1 result }
{
    match int_of(seen) {
        None => no_fold(),
        Some(n) => Fold {
            seen: 1,
            sum: i128::from(n),
            min: Some(n),
            max: Some(n),
        },
    }
}

pub fn fold_row(agg: &Agg, seen: Option<LentValue>) -> Fold
    ensures value { result ≡ seen_fold agg.now (option_map lent_value seen.entry) }
    ensures within { IsFoldWithin 1 result }
{
    match agg {
        Agg::Count => no_fold(),
        Agg::Sum(_name) => fold_cell(seen),
        Agg::Min(_name) => fold_cell(seen),
        Agg::Max(_name) => fold_cell(seen),
        Agg::Avg(_name) => fold_cell(seen),
    }
}

fn folds_of(alloc: Global, aggs: &[Agg], seen: &[Option<LentValue>]) -> Result<Folds, AllocError>
    requires { length seen.now ≡ length aggs.now }
    ensures value { IfOk result (λ fs. fs ≡ seen_folds aggs.now (each_value seen.now)) }
    ensures within { IfOk result (λ fs. AllByRecursion (IsFoldWithin 1) fs) }
{
    let mut folds: Vec<Fold> = Vec::with_capacity(alloc, aggs.len())?;
    let mut i: usize = 0;
    while i < aggs.len() {
        folds.push(fold_row(&aggs[i], seen[i]))?;
        i += 1;
    }
    Ok(Folds::of(folds))
}

pub fn folds_of_row(alloc: Global, query: &Query, row: &SeenRow) -> Result<Folds, AllocError>
    requires { AreSeen query.now row.now }
    ensures value { IfOk result (λ fs.
        fs ≡ map (λ agg. fold_of (agg_ints agg (seen_row row.now ∷ []))) query.now.aggs) }
    ensures within { IfOk result (λ fs. AllByRecursion (IsFoldWithin 1) fs) }
{
    folds_of(alloc, query.aggs.as_slice(), row.aggs)
}
