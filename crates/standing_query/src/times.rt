// The groups of one row, as if the row stood there several times.
ghost use Rattle.std.specs.Prelude.{◌≡◌, map};
ghost use Rattle.std.specs.List.{AllByRecursion};
ghost use Rattle.group_table.specs.Joined.{FitsFold, FitsGroup};
ghost use Rattle.standing_query.specs.Times.{fold_times, group_times};

use leaf_model::{Fold, Folds, Group, Groups};
use std::alloc::Global;

fn fold_times(fold: &Fold, count: u64) -> Fold
    requires { FitsFold (fold_times count fold.now) }
    ensures { result ≡ fold_times count fold.now }
{
    Fold {
        seen: count * fold.seen,
        sum: i128::from(count) * fold.sum,
        min: fold.min,
        max: fold.max,
    }
}

fn folds_times(mut folds: Vec<Fold>, count: u64) -> Vec<Fold>
    requires { AllByRecursion FitsFold (map (fold_times count) folds.items) }
    ensures { result.items ≡ map (fold_times count) folds.items }
{
    let mut i: usize = 0;
    while i < folds.len() {
        folds[i] = fold_times(&folds[i], count);
        i += 1;
    }
    folds
}

fn multiply(alloc: Global, group: &mut Group, count: u64)
    requires { FitsGroup (group_times count group.old) }
    ensures { group.new ≡ group_times count group.old }
{
    let folds = std::mem::replace(&mut group.folds, Folds::of(Vec::new(alloc)));
    group.count = count * group.count;
    group.folds = Folds::of(folds_times(folds.into_inner(), count));
}

/// Multiplies counts and sums by `count`. The least and the greatest stay.
pub fn groups_times(alloc: Global, groups: Groups, count: u64) -> Groups
    requires { AllByRecursion FitsGroup (map (group_times count) groups) }
    ensures { result ≡ map (group_times count) groups }
{
    let mut inner = groups.into_inner();
    let mut i: usize = 0;
    while i < inner.len() {
        multiply(alloc, &mut inner[i], count);
        i += 1;
    }
    Groups::of(inner)
}
