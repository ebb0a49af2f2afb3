// Queries over the blocks and the tail of a table, with ample memory.
ghost use Rattle.std.specs.Prelude.{◌≡◌, ◌+◌, ◌<◌, ◌≤◌, true, false, int_lt};
ghost use Rattle.block_scan.specs.Scanning.{meets, most_steps};

use crate::rows::{CODED, CODED_LATER, TIMES};
use crate::tables::seal_three;
use block_scan::scan;
use leaf_model::{Agg, Aggs, Cond, Conds, Groups, Names, Op, Query, Steps, Text, Value};
use row_blocks::RowBlock;
use std::alloc::{AllocError, Global};
use std::marker::Brand;
use std::sync::ledger::{Blank, Ledger};
use std::test::Fail;
use std::thread::Threads;
use table_state::TableState;

fn text(alloc: Global, letters: &str) -> Result<Text, AllocError> {
    Ok(Text::of(String::from_str(alloc, letters)?))
}

/// The query of these aggregates over the rows of some times that meet these conditions.
fn query_of(
    alloc: Global,
    from: u32,
    to: u32,
    conds: Vec<Cond>,
    aggs: Vec<Agg>,
) -> Result<Query, AllocError> {
    Ok(Query {
        table: text(alloc, "t")?,
        from: i64::from(from),
        to: i64::from(to),
        conds: Conds::of(conds),
        keys: Names::of(Vec::new(alloc)),
        aggs: Aggs::of(aggs),
        order: None,
        limit: 10,
    })
}

/// The number of rows with these times, and the least of their times.
pub fn counting(alloc: Global, from: u32, to: u32) -> Result<Query, AllocError> {
    let mut aggs = Vec::new(alloc);
    aggs.push(Agg::Count)?;
    aggs.push(Agg::Min(text(alloc, "time")?))?;
    query_of(alloc, from, to, Vec::new(alloc), aggs)
}

/// The sum of the codes of at least 1 over the rows of these times.
fn summing(alloc: Global, from: u32, to: u32) -> Result<Query, AllocError> {
    let mut conds = Vec::new(alloc);
    conds.push(Cond {
        name: text(alloc, "code")?,
        op: Op::Ge,
        value: Value::Int(1),
    })?;
    let mut aggs = Vec::new(alloc);
    aggs.push(Agg::Sum(text(alloc, "code")?))?;
    query_of(alloc, from, to, conds, aggs)
}

/// The groups of a table's rows, which take a step for each column that is looked at.
fn scan_table<L: Ledger, R: Threads + Sync>(
    rt: &R,
    alloc: Global,
    query: &Query,
    table: &TableState,
    steps: &mut Steps<L>,
) -> Result<Groups, AllocError>
    ensures { steps.new ≤ steps.old + most_steps query.now table.now.store.blocks }
{
    table.stands();
    scan(
        rt,
        alloc,
        query,
        table.blocks(),
        &table.tail_rows(),
        table.skip(),
        table.horizon(),
        steps,
    )
}

fn count_and_least_over<L: Ledger, R: Threads + Sync>(
    rt: &R,
    alloc: Global,
    query: &Query,
    table: &TableState,
    blank: Blank,
) -> Result<(u64, Option<i64>), AllocError>
    requires name { blank.name ≡ L.name }
    requires parts { blank.parts ≡ L.parts }
    requires some { 0 < blank.parts }
{
    let mut steps: Steps<L> = Steps::new(blank);
    let groups = scan_table(rt, alloc, query, table, &mut steps)?;
    match groups.as_slice() {
        [group] => Ok((
            group.count,
            group.folds.as_slice().last().and_then(|fold| fold.min),
        )),
        _ => Ok((0, None)),
    }
}

/// The number of rows that a query without keys found, and the least of the integers under its last aggregate.
pub fn count_and_least<R: Threads + Sync>(
    rt: &R,
    alloc: Global,
    query: &Query,
    table: &TableState,
) -> Result<(u64, Option<i64>), AllocError> {
    count_and_least_over::<Brand, R>(rt, alloc, query, table, Blank::new(1))
}

#[test]
fn a_block_is_counted_between_two_times(rt: HostRuntime) -> Result<(), Fail> {
    let alloc = rt.alloc();
    let mut table = TableState::new(alloc);
    // The times 30, 10 and 20.
    seal_three(alloc, &mut table, TIMES)?;
    let query = counting(alloc, 10, 12)?;
    let told = count_and_least(&rt, alloc, &query, &table)?;
    assert_eq!(rt; told, (1, Some(10)));
    Ok(())
}

fn ends_before(query: &Query, time: i64) -> bool
    ensures { result ≡ int_lt query.now.to time }
{
    query.to < time
}

/// Whether each row of the block is later than the query's range.
fn is_later(query: &Query, block: &RowBlock) -> bool
    ensures { result ≡ true → meets query.now block.now ≡ false }
{
    let (from, _to) = block.range();
    ends_before(query, from)
}

/// Whether these are a block of two columns and one whose rows are all later than the query's range.
fn is_one_of_two(query: &Query, blocks: &[RowBlock]) -> bool
    ensures { result ≡ true → most_steps query.now blocks.now ≤ 2 }
{
    match blocks {
        [near, far] => near.columns().len() == 2 && is_later(query, far),
        _ => false,
    }
}

/// The sum that a query finds in at most two steps: of two blocks it reads only one, with two columns.
fn sum_in_two_steps<L: Ledger, R: Threads + Sync>(
    rt: &R,
    alloc: Global,
    query: &Query,
    table: &TableState,
    steps: &mut Steps<L>,
) -> Result<Option<i128>, AllocError>
    ensures { steps.new ≤ steps.old + 2 }
{
    if !is_one_of_two(query, table.blocks().as_slice()) {
        return Ok(None);
    }
    let groups = scan_table(rt, alloc, query, table, steps)?;
    match groups.as_slice() {
        [group] => Ok(group.folds.as_slice().first().map(|fold| fold.sum)),
        _ => Ok(None),
    }
}

fn sum_of_codes<L: Ledger, R: Threads + Sync>(
    rt: &R,
    alloc: Global,
    query: &Query,
    table: &TableState,
    blank: Blank,
) -> Result<Option<i128>, AllocError>
    requires name { blank.name ≡ L.name }
    requires parts { blank.parts ≡ L.parts }
    requires some { 0 < blank.parts }
{
    let mut steps: Steps<L> = Steps::new(blank);
    sum_in_two_steps(rt, alloc, query, table, &mut steps)
}

#[test]
fn a_scan_takes_a_step_for_each_named_column_of_a_block_in_range(
    rt: HostRuntime,
) -> Result<(), Fail> {
    let alloc = rt.alloc();
    let mut table = TableState::new(alloc);
    seal_three(alloc, &mut table, CODED)?;
    seal_three(alloc, &mut table, CODED_LATER)?;
    let query = summing(alloc, 0, 9)?;
    let sum = sum_of_codes::<Brand, _>(&rt, alloc, &query, &table, Blank::new(1))?;
    assert_eq!(rt; sum, Some(4));
    Ok(())
}
