// Folds decoded cells.
ghost use Rattle.std.specs.Prelude.{◌≡◌, ℕ, ◌+◌, ◌<◌, ◌≤◌, List, [], ◌∷◌, length, map, Some, IfOk, option_to_list};
ghost use Rattle.std.specs.Int.{int_min, int_max};
ghost use Rattle.std.specs.List.{AllByRecursion};
ghost use Rattle.leaf_model.specs.Groups.{fold_of};
ghost use Rattle.group_table.specs.Joined.{IsFoldWithin, either, joined_fold};
ghost use Rattle.block_scan.specs.Decoded.{IsSized};
ghost use Rattle.block_scan.specs.Slots.{fold_at, integer_of};

use crate::decoded::Decoded;
use leaf_model::{Fold, Folds};
use std::alloc::{AllocError, Global};

fn no_fold() -> Fold
    ensures value { result ≡ fold_of [] }
    ensures within { IsFoldWithin 0 result }
{
    Fold {
        seen: 0,
        sum: 0,
        min: None,
        max: None,
    }
}

fn lesser(least: Option<i64>, number: i64) -> Option<i64>
    ensures { result ≡ either int_min least (Some number) }
{
    match least {
        None => Some(number),
        Some(other) => Some(other.min(number)),
    }
}

fn greater(greatest: Option<i64>, number: i64) -> Option<i64>
    ensures { result ≡ either int_max greatest (Some number) }
{
    match greatest {
        None => Some(number),
        Some(other) => Some(other.max(number)),
    }
}

/// Adds an integer to a fold.
fn with_integer(fold: &mut Fold, number: i64)
    requires { IsFoldWithin 65536 fold.old }
    ensures value { fold.new ≡ joined_fold fold.old (fold_of (number ∷ [])) }
    ensures within { (n : ℕ) → IsFoldWithin n fold.old → IsFoldWithin (n + 1) fold.new }
{
    fold.seen += 1;
    fold.sum += i128::from(number);
    fold.min = lesser(fold.min, number);
    fold.max = greater(fold.max, number);
}

/// Adds the integer of a cell to a fold, if it has one.
fn add_cell(fold: &mut Fold, number: Option<i64>)
    requires { IsFoldWithin 65536 fold.old }
    ensures value { fold.new ≡ joined_fold fold.old (fold_of (option_to_list number)) }
    ensures within { (n : ℕ) → IsFoldWithin n fold.old → IsFoldWithin (n + 1) fold.new }
{
    match number {
        None => {}
        Some(number) => with_integer(fold, number),
    }
}

fn integer_of(rows: u32, decoded: &Decoded, place: u32) -> Option<i64>
    requires sized { IsSized rows decoded.now }
    requires place { place < rows }
    ensures { result ≡ integer_of decoded.now place }
{
    match decoded {
        Decoded::Missing => None,
        Decoded::Ints(found) => {
            if found.present[place as usize] {
                Some(found.values[place as usize])
            } else {
                None
            }
        }
        Decoded::Codes(_) => None,
    }
}

/// Folds the integers at some places.
fn fold_cells(rows: u32, decoded: &Decoded, places: &[u32]) -> Fold
    requires sized { IsSized rows decoded.now }
    requires places { AllByRecursion (λ place. place < rows) places.now }
    requires few { length places.now ≤ 65536 }
    ensures value { result ≡ fold_at places.now decoded.now }
    ensures within { IsFoldWithin (length places.now) result }
{
    let mut fold = no_fold();
    for place in places {
        add_cell(&mut fold, integer_of(rows, decoded, *place));
    }
    fold
}

/// Folds the integers at some places, for each of the decoded names.
pub(crate) fn fold_all(
    alloc: Global,
    rows: u32,
    decoded: &[Decoded],
    places: &[u32],
) -> Result<Folds, AllocError>
    requires sized { AllByRecursion (IsSized rows) decoded.now }
    requires places { AllByRecursion (λ place. place < rows) places.now }
    requires few { length places.now ≤ 65536 }
    ensures value { IfOk result (λ folds. folds ≡ map (fold_at places.now) decoded.now) }
    ensures within { IfOk result (λ folds. AllByRecursion (IsFoldWithin (length places.now)) folds) }
{
    let mut folds = Vec::with_capacity(alloc, decoded.len())?;
    for one in decoded {
        folds.push(fold_cells(rows, one, places))?;
    }
    Ok(Folds::of(folds))
}
