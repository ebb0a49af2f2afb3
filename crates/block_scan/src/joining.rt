// Joins two lists of groups: appends one to the other if their keys allow it, else merges them.
ghost use Rattle.std.specs.Prelude.{◌≡◌, ℕ, ◌+◌, true, List, ◌++◌, IfOk};
ghost use Rattle.std.specs.declared.cmp.Ordering.TheVariants.{Less};
ghost use Rattle.std.specs.List.{AllByRecursion};
ghost use Rattle.leaf_model.specs.declared.queries.Query.{Query};
ghost use Rattle.row_model.specs.declared.rows.Row.{Row};
ghost use Rattle.leaf_model.specs.Groups.{groups, keys_cmp};
ghost use Rattle.group_table.specs.Joined.{FitsGroup, IsWithin, joined};
ghost use Rattle.block_scan.specs.Slots.{EndsBelow};

use group_table::merge;
use leaf_model::{Group, Groups, Keys};
use std::alloc::{AllocError, Global};
use std::cmp::Ordering;

fn is_less(a: &Keys, b: &Keys) -> bool
    ensures { result ≡ true → keys_cmp a.now b.now ≡ Less }
{
    match a.compare(b) {
        Ordering::Less => true,
        Ordering::Equal | Ordering::Greater => false,
    }
}

/// Whether the last keys of `front` are less than the first of `back`.
fn ends_below(front: &[Group], back: &[Group]) -> bool
    ensures { result ≡ true → EndsBelow front.now back.now }
{
    match (front.last(), back.first()) {
        (Some(last), Some(first)) => is_less(&last.keys, &first.keys),
        _ => false,
    }
}

fn append(front: Groups, back: Groups) -> Result<Groups, AllocError>
    ensures { IfOk result (λ gs. gs ≡ front ++ back) }
{
    let mut all = front.into_inner();
    let mut more = back.into_inner();
    all.append(&mut more)?;
    Ok(Groups::of(all))
}

/// The groups of the rows of both lists together.
pub(crate) fn join(alloc: Global, front: Groups, back: Groups) -> Result<Groups, AllocError>
    requires { AllByRecursion FitsGroup (joined front back) }
    ensures within { (m n : ℕ) → AllByRecursion (IsWithin m) front
        → AllByRecursion (IsWithin n) back → IfOk result (λ gs. AllByRecursion (IsWithin (m + n)) gs) }
    ensures both { (q : Query) (xs ys : List Row)
        → front ≡ groups q xs → back ≡ groups q ys → IfOk result (λ gs. gs ≡ groups q (xs ++ ys)) }
{
    if ends_below(front.as_slice(), back.as_slice()) {
        return append(front, back);
    }
    merge(alloc, front, back)
}
