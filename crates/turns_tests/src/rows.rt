// A row, from its bytes, and a query that counts rows.
ghost use Rattle.std.specs.Prelude.{IfOk};
ghost use Rattle.std.specs.List.{AllByRecursion};
ghost use Rattle.row_model.specs.Values.{IsRow};

use leaf_model::{Agg, Aggs, Conds, Names, PackedRows, Query, Rows, Text};
use row_records::read_rows;
use std::alloc::{AllocError, Global};

/// One row without cells, of the time 5.
const ROW: &[u8] = b"\x05\0\0\0\0\0\0\0\0\0";

/// The one row.
pub fn one_row(alloc: Global) -> Result<Rows, AllocError>
    ensures { IfOk result (λ rows. AllByRecursion IsRow rows) }
{
    match read_rows(alloc, ROW, 1)? {
        Some((rows, _taken)) => Ok(Rows::of(rows)),
        None => Ok(Rows::of(PackedRows::new(alloc))),
    }
}

/// A query that counts the rows with a time from 0 to 9.
pub fn count_all(alloc: Global) -> Result<Query, AllocError> {
    let mut aggs = Vec::new(alloc);
    aggs.push(Agg::Count)?;
    Ok(Query {
        table: Text::of(String::from_str(alloc, "t")?),
        from: 0,
        to: 9,
        conds: Conds::of(Vec::new(alloc)),
        keys: Names::of(Vec::new(alloc)),
        aggs: Aggs::of(aggs),
        order: None,
        limit: 10,
    })
}
