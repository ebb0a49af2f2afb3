// When a state is stale, up to which entry it was fed, and what its table is asked for.
use crate::rows::{FOUR, Spelled, Step, Told, declared, feed, first, fresh, query, settle};
use crate::tells::tells;
use leaf_model::{Agg, Query, Text};
use standing_query::Standing;
use std::alloc::{AllocError, Global};
use std::test::Fail;

/// Whether these are the names.
fn are_names(names: &[Text], want: &[&str]) -> bool {
    let mut same = names.len() == want.len();
    for i in 0..names.len().min(want.len()) {
        same = same && names[i].as_str() == want[i];
    }
    same
}

/// Whether a query counts the rows of the table t, of any time, for each list of these keys.
fn counts_by(query: &Query, keys: &[&str]) -> bool {
    query.table.as_str() == "t"
        && query.from == 0
        && query.to == i64::MAX
        && query.conds.as_slice().is_empty()
        && are_names(query.keys.as_slice(), keys)
        && matches!(query.aggs.as_slice(), [Agg::Count])
        && query.order.is_none()
        && query.limit == 100_000
}

#[test]
fn a_new_one_is_stale_and_asks_for_its_spread(rt: HostRuntime) -> Result<(), Fail> {
    let alloc = rt.alloc();
    let standing = Standing::new(alloc, query(alloc)?, 7)?;
    assert!(rt; standing.stale());
    assert_eq!(rt; standing.upto(), 7);
    assert!(rt; counts_by(standing.spread(), &["time", "code", "host"]));
    Ok(())
}

/// The number of the last entry that a fresh state was fed, and whether it is stale, after one more entry.
fn behind(alloc: Global, step: Step) -> Result<(u64, bool), AllocError> {
    let mut standing = fresh(alloc, first())?;
    feed(alloc, &mut standing, step)?;
    Ok((standing.upto(), standing.stale()))
}

/// Entries, and whether a fresh state is stale after each.
const ENTRIES: &[(Step, bool)] = &[
    (Step::Open, true),
    (Step::Close, true),
    (Step::Keep(1), true),
    (Step::Keep(0), false),
    (Step::Expire(9), false),
    (Step::Add(FOUR, 2), false),
    (Step::Other, false),
];

fn entries() -> &'static [(Step, bool)] {
    ENTRIES
}

#[test]
fn ends_and_keeps_that_removed_rows_make_it_stale(rt: HostRuntime) -> Result<(), Fail> {
    let alloc = rt.alloc();
    for (step, stale) in entries() {
        assert_eq!(rt; behind(alloc, *step)?, (2, *stale));
    }
    Ok(())
}

/// Whether the state is stale after each of the entries, one after another.
fn stays_stale(alloc: Global, standing: &mut Standing) -> Result<bool, AllocError> {
    for (step, _) in entries() {
        feed(alloc, standing, *step)?;
        if !standing.stale() {
            return Ok(false);
        }
    }
    Ok(true)
}

/// Whether the state tells the right groups of these rows after it asked their table.
fn tells_once_settled(
    alloc: Global,
    standing: &mut Standing,
    table: &[Spelled],
    want: &[Told],
) -> Result<bool, AllocError> {
    settle(alloc, standing, table)?;
    tells(alloc, standing, table, want)
}

#[test]
fn a_stale_one_is_fed_and_stays_so_until_it_is_settled(rt: HostRuntime) -> Result<(), Fail> {
    let alloc = rt.alloc();
    let mut standing = declared(alloc)?;
    assert!(rt; stays_stale(alloc, &mut standing)?);
    assert_eq!(rt; standing.upto(), 7);
    let want = [("a", 2, 6, 1, 5), ("b", 1, 2, 2, 2)];
    assert!(rt; tells_once_settled(alloc, &mut standing, first(), &want)?);
    assert_eq!(rt; standing.upto(), 8);
    Ok(())
}
