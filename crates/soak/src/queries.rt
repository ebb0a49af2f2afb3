// The two queries of a soak.
ghost use Rattle.std.specs.Prelude.{◌≡◌, ◌++◌, IfOk};
ghost use Rattle.soak.specs.Soak.{both_queries, count_query, host_query};

use crate::texts::{one_name, text};
use leaf_model::{Agg, Aggs, Conds, Names, Query};
use script_text::{Command, Item};
use std::alloc::{AllocError, Global};

/// The most lines of an answer, if a query names no limit.
const USUAL_LIMIT: u32 = 100_000;

/// Appends both queries, over the times from 0 to `last`.
pub fn push_queries(alloc: Global, items: &mut Vec<Item>, last: u32) -> Result<(), AllocError>
    ensures { IfOk result (λ _. items.new.items ≡ items.old.items ++ both_queries last) }
{
    items.push(Item::One(Command::Query(count_query(alloc, last)?)))?;
    items.push(Item::One(Command::Query(host_query(alloc, last)?)))?;
    Ok(())
}

/// Asks for the number of rows, the least and the greatest time.
fn count_query(alloc: Global, last: u32) -> Result<Query, AllocError>
    ensures { IfOk result (λ query. query ≡ count_query last) }
{
    let mut aggs = Vec::new(alloc);
    aggs.push(Agg::Count)?;
    aggs.push(Agg::Min(text(alloc, "time")?))?;
    aggs.push(Agg::Max(text(alloc, "time")?))?;
    Ok(Query {
        table: text(alloc, "events")?,
        from: 0,
        to: i64::from(last),
        conds: Conds::of(Vec::new(alloc)),
        keys: Names::of(Vec::new(alloc)),
        aggs: Aggs::of(aggs),
        order: None,
        limit: USUAL_LIMIT,
    })
}

/// Asks for the five hosts with the most rows, and the sum of the codes of each.
fn host_query(alloc: Global, last: u32) -> Result<Query, AllocError>
    ensures { IfOk result (λ query. query ≡ host_query last) }
{
    let mut aggs = Vec::new(alloc);
    aggs.push(Agg::Count)?;
    aggs.push(Agg::Sum(text(alloc, "code")?))?;
    Ok(Query {
        table: text(alloc, "events")?,
        from: 0,
        to: i64::from(last),
        conds: Conds::of(Vec::new(alloc)),
        keys: one_name(alloc, "host")?,
        aggs: Aggs::of(aggs),
        order: Some(0),
        limit: 5,
    })
}
