ghost use Rattle.std.specs.Prelude.{◌≡◌, IfOk, List, [], ◌++◌, ◌≤◌, ◌<◌, ◌+◌, length, drop, Some, OnSome, IfNone, ℕ, option_to_list};
ghost use Rattle.std.specs.List.{AllByRecursion};
ghost use Rattle.std.specs.VecDeque.{deque_len};
ghost use Rattle.std.specs.Vec.{vec_len};
ghost use Rattle.std.specs.Int.{int_min, int_max};
ghost use Rattle.leaf_model.specs.declared.queries.Query.{Query};
ghost use Rattle.row_model.specs.declared.rows.Row.{Row};
ghost use Rattle.leaf_model.specs.Groups.{groups};
ghost use Rattle.group_table.specs.Joined.{either, joined_fold, joined_folds, joined_group, joined, FitsFold, FitsGroup, IsWithin, IfBoth};

use leaf_model::{Fold, Folds, Group, Groups};
use std::alloc::{AllocError, Global};
use std::cmp::Ordering;
use std::collections::VecDeque;

fn lesser(a: Option<i64>, b: Option<i64>) -> Option<i64>
    ensures { result ≡ either int_min a b }
{
    match a {
        None => b,
        Some(m) => match b {
            None => Some(m),
            Some(n) => Some(m.min(n)),
        },
    }
}

fn greater(a: Option<i64>, b: Option<i64>) -> Option<i64>
    ensures { result ≡ either int_max a b }
{
    match a {
        None => b,
        Some(m) => match b {
            None => Some(m),
            Some(n) => Some(m.max(n)),
        },
    }
}

pub fn join_fold(mine: &mut Fold, theirs: &Fold)
    requires { FitsFold (joined_fold mine.old theirs.now) }
    ensures { mine.new ≡ joined_fold mine.old theirs.now }
{
    mine.seen += theirs.seen;
    mine.sum += theirs.sum;
    mine.min = lesser(mine.min, theirs.min);
    mine.max = greater(mine.max, theirs.max);
}

fn join_folds(mut mine: Vec<Fold>, theirs: &[Fold]) -> Vec<Fold>
    requires fits { AllByRecursion FitsFold (joined_folds mine.items theirs.now) }
    requires long { vec_len mine ≤ length theirs.now }
    ensures { result.items ≡ joined_folds mine.items theirs.now }
{
    let mut i: usize = 0;
    while i < mine.len() {
        join_fold(&mut mine[i], &theirs[i]);
        i += 1;
    }
    mine
}

/// Joins two lists of folds, place by place.
fn join_all_folds(mut mine: Vec<Fold>, theirs: &[Fold]) -> Vec<Fold>
    requires { AllByRecursion FitsFold (joined_folds mine.items theirs.now) }
    ensures { result.items ≡ joined_folds mine.items theirs.now }
{
    mine.truncate(theirs.len());
    join_folds(mine, theirs)
}

fn join_group(mine: Group, theirs: &Group) -> Group
    requires { FitsGroup (joined_group mine theirs.now) }
    ensures { result ≡ joined_group mine theirs.now }
{
    Group {
        keys: mine.keys,
        count: mine.count + theirs.count,
        folds: Folds::of(join_all_folds(mine.folds.into_inner(), theirs.folds.as_slice())),
    }
}

/// Takes the least group off both tables, joined if both have its keys.
fn take_first(mine: &mut VecDeque<Group>, theirs: &mut VecDeque<Group>) -> Option<Group>
    requires { AllByRecursion FitsGroup (joined mine.old.items theirs.old.items) }
    ensures taken { joined mine.old.items theirs.old.items
        ≡ option_to_list result ++ joined mine.new.items theirs.new.items }
    ensures fewer { OnSome result
        (deque_len mine.new + deque_len theirs.new < deque_len mine.old + deque_len theirs.old) }
    ensures all { IfNone result (joined mine.old.items theirs.old.items ≡ []) }
{
    let order = match mine.front() {
        None => return theirs.pop_front(),
        Some(group) => match theirs.front() {
            None => return mine.pop_front(),
            Some(other) => group.keys.compare(&other.keys),
        },
    };
    match order {
        Ordering::Less => mine.pop_front(),
        Ordering::Greater => theirs.pop_front(),
        Ordering::Equal => take_both(mine, theirs),
    }
}

fn take_both(mine: &mut VecDeque<Group>, theirs: &mut VecDeque<Group>) -> Option<Group>
    requires some { 0 < deque_len mine.old }
    requires others { 0 < deque_len theirs.old }
    requires fits { IfBoth (λ a b. FitsGroup (joined_group a b)) mine.old.items theirs.old.items }
    ensures both { IfBoth (λ a b. result ≡ Some (joined_group a b)) mine.old.items theirs.old.items }
    ensures mine { mine.new.items ≡ drop 1 mine.old.items }
    ensures theirs { theirs.new.items ≡ drop 1 theirs.old.items }
{
    match mine.pop_front() {
        None => None,
        Some(group) => match theirs.pop_front() {
            None => Some(group),
            Some(other) => Some(join_group(group, &other)),
        },
    }
}

pub fn join_tables(alloc: Global, a: Groups, b: Groups) -> Result<Groups, AllocError>
    requires { AllByRecursion FitsGroup (joined a b) }
    ensures { IfOk result (λ gs. gs ≡ joined a b) }
{
    let most = a.as_slice().len().saturating_add(b.as_slice().len());
    let mut out: Vec<Group> = Vec::with_capacity(alloc, most)?;
    let mut mine = VecDeque::from_vec(a.into_inner());
    let mut theirs = VecDeque::from_vec(b.into_inner());
    while let Some(group) = take_first(&mut mine, &mut theirs) {
        out.push(group)?;
    }
    Ok(Groups::of(out))
}

/// Merges the groups of two lists of rows into those of both. Err if memory runs out.
pub fn merge(alloc: Global, a: Groups, b: Groups) -> Result<Groups, AllocError>
    requires { AllByRecursion FitsGroup (joined a b) }
    ensures within { (m n : ℕ) → AllByRecursion (IsWithin m) a
        → AllByRecursion (IsWithin n) b → IfOk result (λ gs. AllByRecursion (IsWithin (m + n)) gs) }
    ensures both { (q : Query) → (xs ys : List Row)
        → a ≡ groups q xs → b ≡ groups q ys → IfOk result (λ gs. gs ≡ groups q (xs ++ ys)) }
{
    Ok(join_tables(alloc, a, b)?)
}
