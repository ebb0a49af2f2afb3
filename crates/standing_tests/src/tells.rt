// What a fresh state tells behind each entry that it is fed.
use crate::rows::{
    FIRST, FOUR, Spelled, Step, Told, are_groups, feed, first, fresh, query, rows_of,
};
use group_table::fold_rows;
use leaf_model::Groups;
use standing_query::Standing;
use std::alloc::{AllocError, Global};
use std::test::Fail;

/// The groups that a fresh state tells.
fn told(standing: &Standing) -> Result<Option<Groups>, AllocError> {
    if standing.stale() {
        return Ok(None);
    }
    let groups = standing.groups()?;
    Ok(Some(groups))
}

/// Whether the state is fresh and tells these groups, and so does its query over the rows that are left.
pub fn tells(
    alloc: Global,
    standing: &Standing,
    left: &[Spelled],
    want: &[Told],
) -> Result<bool, AllocError> {
    let Some(groups) = told(standing)? else {
        return Ok(false);
    };
    let asked = query(alloc)?;
    let rows = rows_of(alloc, left)?;
    let folded = fold_rows(alloc, &asked, &rows.lend())?;
    Ok(are_groups(&groups, want) && are_groups(&folded, want))
}

/// The first rows after an expiry at 3: a row at the horizon stays.
const FROM_THREE: &[Spelled] = &[(3, 1, "a"), (7, 2, "b"), (9, 0, "b"), (10, 7, "a")];

/// The same after an add of four rows. Those with the times 1 and 2 were late.
const WITH_TWO: &[Spelled] = &[
    (3, 1, "a"),
    (7, 2, "b"),
    (9, 0, "b"),
    (10, 7, "a"),
    (6, 4, "b"),
    (8, 3, "a"),
];

/// The same after an expiry at 5, which is between the times 3 and 6.
const FROM_FIVE: &[Spelled] = &[
    (7, 2, "b"),
    (9, 0, "b"),
    (10, 7, "a"),
    (6, 4, "b"),
    (8, 3, "a"),
];

/// The groups of these rows.
const TOLD: &[Told] = &[("a", 1, 3, 3, 3), ("b", 2, 6, 2, 4)];

/// Entries after the one that made a state of the first rows fresh. With each, the rows that are left after it, and
/// their groups.
const LIFE: &[(Step, &[Spelled], &[Told])] = &[
    (Step::Other, FIRST, &[("a", 2, 6, 1, 5), ("b", 1, 2, 2, 2)]),
    (
        Step::Expire(3),
        FROM_THREE,
        &[("a", 1, 1, 1, 1), ("b", 1, 2, 2, 2)],
    ),
    (
        Step::Add(FOUR, 2),
        WITH_TWO,
        &[("a", 2, 4, 1, 3), ("b", 2, 6, 2, 4)],
    ),
    (Step::Expire(5), FROM_FIVE, TOLD),
    (Step::Add(&[(4, 1, "a"), (2, 1, "c")], 2), FROM_FIVE, TOLD),
    (Step::Keep(0), FROM_FIVE, TOLD),
    // The one row that is left is behind the range.
    (Step::Expire(10), &[(10, 7, "a")], &[]),
];

fn life() -> &'static [(Step, &'static [Spelled], &'static [Told])] {
    LIFE
}

/// The number of entries of the life that the state follows before it tells something else.
fn followed(alloc: Global, standing: &mut Standing) -> Result<u64, AllocError> {
    let mut count = 0u64;
    for (step, left, want) in life() {
        feed(alloc, standing, *step)?;
        if !tells(alloc, standing, left, want)? {
            break;
        }
        count = count.saturating_add(1);
    }
    Ok(count)
}

#[test]
fn a_fresh_state_follows_adds_and_expiries(rt: HostRuntime) -> Result<(), Fail> {
    let alloc = rt.alloc();
    let mut standing = fresh(alloc, first())?;
    assert_eq!(rt; followed(alloc, &mut standing)?, 7);
    assert_eq!(rt; standing.upto(), 8);
    Ok(())
}
