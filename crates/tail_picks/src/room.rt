// The free rows of a table.
ghost use Rattle.std.specs.Prelude.{◌≡◌, IfOk};
ghost use Rattle.tail_picks.specs.Room.{every_row, free_rows};

use leaf_model::{Agg, Aggs, Conds, Groups, Names, Query, Text};
use std::alloc::{AllocError, Global};

/// The most rows of a table.
const MOST_ROWS: u64 = 1 << 40;

/// The query that counts all rows. It names no table: each leaf is asked at a given table. Err if memory runs out.
pub fn every_row(alloc: Global) -> Result<Query, AllocError>
    ensures { IfOk result (λ query. query ≡ every_row) }
{
    let mut aggs = Vec::new(alloc);
    aggs.push(Agg::Count)?;
    Ok(Query {
        table: Text::of(String::new(alloc)),
        from: 0,
        to: i64::MAX,
        conds: Conds::of(Vec::new(alloc)),
        keys: Names::of(Vec::new(alloc)),
        aggs: Aggs::of(aggs),
        order: None,
        limit: 100_000,
    })
}

/// The free rows of a table with these counted rows: 2^40 less their number.
pub fn free_rows(groups: &Groups) -> u64
    ensures { result ≡ free_rows groups.now }
{
    match groups.as_slice().first() {
        Some(group) => MOST_ROWS.saturating_sub(group.count),
        None => MOST_ROWS,
    }
}
