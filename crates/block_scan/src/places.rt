// The places of a block whose times a query wants.
ghost use Rattle.std.specs.Prelude.{◌≡◌, ◌≤◌, ◌<◌, ℕ, List, [], ◌∷◌, ◌++◌, length, pos, slice_index_or, if◌then◌else◌, IfOk};
ghost use Rattle.row_blocks.specs.Blocks.{AreTimes, time_in_cell, value_in};
ghost use Rattle.block_scan.specs.Reads.{IsRead, is_wanted, wanted_places};

use crate::reading::ReadColumn;
use leaf_model::Query;
use std::alloc::{AllocError, Global};

fn fill_times(
    rows: u32,
    times: &ReadColumn,
    codes: &mut [u64],
    present: &mut [bool],
    found: &mut [i64],
)
    requires timed { AreTimes rows times.now.column.now }
    requires read { IsRead rows times.now }
    requires codes { length codes.old ≡ rows }
    requires present { length present.old ≡ rows }
    requires found { length found.old ≡ rows }
    ensures { (i : ℕ) → i < rows
        → slice_index_or found.new i (pos 0) ≡ time_in_cell (value_in times.now.column.now.bytes i) }
{
    times.view.integers(codes, present, found);
}

/// The times of a block's rows.
pub(crate) fn times_in(alloc: Global, rows: u32, times: &ReadColumn) -> Result<Vec<i64>, AllocError>
    requires timed { AreTimes rows times.now.column.now }
    requires read { IsRead rows times.now }
    ensures length { IfOk result (λ found. length found.items ≡ rows) }
    ensures each { IfOk result (λ found.
        (i : ℕ) → i < rows → slice_index_or found.items i (pos 0)
        ≡ time_in_cell (value_in times.now.column.now.bytes i)) }
{
    let mut codes = vec![in alloc; 0u64; rows as usize]?;
    let mut present = vec![in alloc; false; rows as usize]?;
    let mut found = vec![in alloc; 0i64; rows as usize]?;
    fill_times(
        rows,
        times,
        codes.as_mut_slice(),
        present.as_mut_slice(),
        found.as_mut_slice(),
    );
    Ok(found)
}

pub(crate) fn is_wanted(query: &Query, horizon: i64, time: i64) -> bool
    ensures { result ≡ is_wanted query.now horizon time }
{
    horizon <= time && query.from <= time && time <= query.to
}

fn push_wanted(
    query: &Query,
    horizon: i64,
    time: &i64,
    place: u32,
    places: &mut Vec<u32>,
) -> Result<(), AllocError>
    ensures { IfOk result (λ done.
        places.new.items ≡ places.old.items ++ (if is_wanted query.now horizon time.now then place ∷ [] else [])) }
{
    if is_wanted(query, horizon, *time) {
        places.push(place)?;
    }
    Ok(())
}

/// The places from `skip` on whose times are at or after the horizon and in the query's range.
pub(crate) fn wanted_places(
    alloc: Global,
    query: &Query,
    times: &[i64],
    skip: u32,
    horizon: i64,
) -> Result<Vec<u32>, AllocError>
    requires few { length times.now ≤ 65536 }
    requires skip { skip ≤ length times.now }
    ensures { IfOk result (λ places. places.items ≡ wanted_places query.now horizon times.now skip) }
{
    let mut places = Vec::new(alloc);
    for place in skip..times.len() as u32 {
        push_wanted(query, horizon, &times[place as usize], place, &mut places)?;
    }
    Ok(places)
}
