// The order of an answer's groups.
ghost use Rattle.std.specs.Prelude.{◌≡◌, List, IfOk, OnOk, IsPermutation, IsSorted, map};
ghost use Rattle.leaf_model.specs.declared.groups.Group.{Group};
ghost use Rattle.leaf_model.specs.declared.queries.Query.{Query};
ghost use Rattle.answer_text.specs.Answer.{group_cmp, in_order, measure, measure_of};

use leaf_model::{Agg, Fold, Group, Query};
use std::alloc::{AllocError, Global};
use std::cmp::Ordering;

fn measure(agg: &Agg, count: u64, fold: &Fold) -> Option<i128>
    ensures { result ≡ measure agg.now count fold.now }
{
    match agg {
        Agg::Count => Some(i128::from(count)),
        Agg::Sum(_name) => Some(fold.sum),
        Agg::Min(_name) => fold.min.map(i128::from),
        Agg::Max(_name) => fold.max.map(i128::from),
        Agg::Avg(_name) => None,
    }
}

/// The value of the aggregate that orders the answer; None if it is missing.
fn measure_of(query: &Query, group: &Group) -> Option<i128>
    ensures { result ≡ measure_of query.now group.now }
{
    let place = query.order? as usize;
    let agg = query.aggs.as_slice().get(place)?;
    let fold = group.folds.as_slice().get(place)?;
    measure(agg, group.count, fold)
}

/// The greatest first, and then by key.
fn compare_groups(query: &Query, a: &Group, b: &Group) -> Ordering
    ensures { result ≡ group_cmp query.now a.now b.now }
{
    match measure_of(query, b).cmp(&measure_of(query, a)) {
        Ordering::Less => Ordering::Less,
        Ordering::Equal => a.keys.compare(&b.keys),
        Ordering::Greater => Ordering::Greater,
    }
}

fn refs_of(alloc: Global, groups: &[Group]) -> Result<Vec<&Group>, AllocError>
    ensures { IfOk result (λ all. map (λ g. g.now) all.items ≡ groups.now) }
{
    groups.iter().collect(alloc)
}

/// A stable sort. It is one pass if the groups stand in order.
fn sort(query: &Query, groups: &mut Vec<&Group>) -> Result<(), AllocError>
    ensures { OnOk result (map (λ g. g.now) groups.new.items
        ≡ in_order (group_cmp query.now) (map (λ g. g.now) groups.old.items)) }
{
    groups.sort_by(|a, b| compare_groups(query, a, b))
}

/// The groups in the order of the answer.
pub fn in_order<'a>(
    alloc: Global,
    query: &Query,
    groups: &'a [Group],
) -> Result<Vec<&'a Group>, AllocError>
    ensures { IfOk result (λ all. map (λ g. g.now) all.items ≡ in_order (group_cmp query.now) groups.now) }
{
    let mut all = refs_of(alloc, groups)?;
    sort(query, &mut all)?;
    Ok(all)
}

/// Law: an answer in order is a permutation of the groups, and it is sorted.
pub fn order_meaning()
    ensures same { (q : Query) → (gs : List Group) → IsPermutation gs (in_order (group_cmp q) gs) }
    ensures sorted { (q : Query) → (gs : List Group) → IsSorted (group_cmp q) (in_order (group_cmp q) gs) }
{}
