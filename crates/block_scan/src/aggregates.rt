// Decodes the columns that the aggregates of a query fold.
ghost use Rattle.std.specs.Prelude.{◌≡◌, ℕ, ◌<◌, ◌≤◌, length, IfOk, IfSome, option_and_then};
ghost use Rattle.std.specs.List.{AllByRecursion};
ghost use Rattle.leaf_model.specs.Groups.{as_int, value_of};
ghost use Rattle.block_scan.specs.Decoded.{IsDecoded, IsSized};
ghost use Rattle.block_scan.specs.Reads.{IsRead, columns_of, row_of};
ghost use Rattle.block_scan.specs.Slots.{AreOfAggs, IsOfAgg};

use crate::decoded::{Decoded, decode};
use crate::reading::ReadColumn;
use leaf_model::Agg;
use std::alloc::{AllocError, Global};

/// The decoded cells that an aggregate folds. None if two columns have its name.
fn decode_agg<'b, 'a>(
    alloc: Global,
    agg: &Agg,
    times: &[i64],
    read: &'b [ReadColumn<'a>],
) -> Result<Option<Decoded<'b, 'a>>, AllocError>
    requires few { length times.now ≤ 65536 }
    requires read { AllByRecursion (IsRead (length times.now)) read.now }
    ensures { IfOk result (λ found.
        IfSome found (IsOfAgg (length times.now) (row_of times.now (columns_of read.now)) agg.now)) }
{
    match agg {
        Agg::Count => Ok(Some(Decoded::Missing)),
        Agg::Sum(name) => decode(alloc, name, times, read),
        Agg::Min(name) => decode(alloc, name, times, read),
        Agg::Max(name) => decode(alloc, name, times, read),
        Agg::Avg(name) => decode(alloc, name, times, read),
    }
}

/// The decoded cells that each aggregate folds. None if two columns have the name of one of them.
pub(crate) fn decode_aggs<'b, 'a>(
    alloc: Global,
    aggs: &[Agg],
    times: &[i64],
    read: &'b [ReadColumn<'a>],
) -> Result<Option<Vec<Decoded<'b, 'a>>>, AllocError>
    requires few { length times.now ≤ 65536 }
    requires read { AllByRecursion (IsRead (length times.now)) read.now }
    ensures { IfOk result (λ found. IfSome found (λ all.
        AreOfAggs (length times.now) (row_of times.now (columns_of read.now)) aggs.now all.items)) }
{
    let mut all = Vec::with_capacity(alloc, aggs.len())?;
    for agg in aggs {
        match decode_agg(alloc, agg, times, read)? {
            Some(decoded) => all.push(decoded)?,
            None => return Ok(None),
        }
    }
    Ok(Some(all))
}
