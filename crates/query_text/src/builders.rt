// Adds one part to what was read.
ghost use Rattle.std.specs.Prelude.{◌≡◌, Some, IfOk};
ghost use Rattle.query_text.specs.Reading.{nothing_read, with_key, with_agg, with_cond};

use leaf_model::{Agg, Aggs, Cond, Conds, Names, Query, Text};
use std::alloc::{AllocError, Global};

/// The limit of a query that names none.
const NO_LIMIT: u32 = 100_000;

/// The query before its first token: no names, no aggregates, no conditions, and the limit 100,000.
pub fn start(alloc: Global) -> Query
    ensures { result ≡ nothing_read }
{
    Query {
        table: Text::of(String::new(alloc)),
        from: 0,
        to: 0,
        conds: Conds::of(Vec::new(alloc)),
        keys: Names::of(Vec::new(alloc)),
        aggs: Aggs::of(Vec::new(alloc)),
        order: None,
        limit: NO_LIMIT,
    }
}

pub fn push_key(query: Query, name: Text) -> Result<Query, AllocError>
    ensures { IfOk result (λ q. q ≡ with_key query name) }
{
    let mut keys = query.keys.into_inner();
    keys.push(name)?;
    Ok(Query {
        keys: Names::of(keys),
        ..query
    })
}

pub fn push_agg(query: Query, agg: Agg) -> Result<Query, AllocError>
    ensures { IfOk result (λ q. q ≡ with_agg query agg) }
{
    let mut aggs = query.aggs.into_inner();
    aggs.push(agg)?;
    Ok(Query {
        aggs: Aggs::of(aggs),
        ..query
    })
}

pub fn push_cond(query: Query, cond: Cond) -> Result<Query, AllocError>
    ensures { IfOk result (λ q. q ≡ with_cond query cond.name cond.op cond.value) }
{
    let mut conds = query.conds.into_inner();
    conds.push(cond)?;
    Ok(Query {
        conds: Conds::of(conds),
        ..query
    })
}

pub fn set_table(query: Query, table: Text) -> Query
    ensures { result ≡ record query { table = table } }
{
    Query { table, ..query }
}

pub fn set_low(query: Query, from: i64) -> Query
    ensures { result ≡ record query { from = from } }
{
    Query { from, ..query }
}

pub fn set_high(query: Query, to: i64) -> Query
    ensures { result ≡ record query { to = to } }
{
    Query { to, ..query }
}

pub fn set_order(query: Query, place: u64) -> Query
    ensures { result ≡ record query { order = Some place } }
{
    Query {
        order: Some(place),
        ..query
    }
}

pub fn set_limit(query: Query, limit: u32) -> Query
    ensures { result ≡ record query { limit = limit } }
{
    Query { limit, ..query }
}
