// A query over the columns of one block: slot by slot if possible, else row by row.
ghost use Rattle.std.specs.Prelude.{◌≡◌, ◌<◌, ◌≤◌, ◌∷◌, true, length, map, IfOk};
ghost use Rattle.std.specs.List.{AllByRecursion};
ghost use Rattle.leaf_model.specs.Groups.{groups, passes};
ghost use Rattle.group_table.specs.Joined.{IsWithin};
ghost use Rattle.row_blocks.specs.Blocks.{AreTimes};
ghost use Rattle.row_blocks.specs.Held.{live_rows};
ghost use Rattle.block_scan.specs.Reads.{IsRead, columns_of, row_of, wanted_places};
ghost use Rattle.block_scan.specs.Slots.{AreSlots};
ghost use Rattle.block_scan.specs.Timed.{AreBetween};

use crate::aggregates::decode_aggs;
use crate::grouping::fold_by_slot;
use crate::narrowing::narrow_all;
use crate::places::wanted_places;
use crate::reading::ReadColumn;
use crate::rows::rows_at;
use crate::slots::{Slots, slots_of};
use crate::times::times_seen;
use group_table::fold_rows;
use leaf_model::{Groups, LentRows, Query};
use std::alloc::{AllocError, Global};

/// The groups of the rows at some places.
fn fold_places(
    alloc: Global,
    query: &Query,
    times: &[i64],
    others: &[ReadColumn],
    places: &[u32],
) -> Result<Groups, AllocError>
    requires few { length times.now ≤ 65536 }
    requires read { AllByRecursion (IsRead (length times.now)) others.now }
    requires places { AllByRecursion (λ place. place < length times.now) places.now }
    ensures groups { IfOk result (λ gs.
        gs ≡ groups query.now (map (row_of times.now (columns_of others.now)) places.now)) }
    ensures within { IfOk result (λ gs. AllByRecursion (IsWithin (length places.now)) gs) }
{
    let found = rows_at(alloc, times, others, places)?;
    fold_rows(alloc, query, &LentRows::Owned(found.as_slice()))
}

/// The groups of the rows at places that all pass, slot by slot; row by row if two columns have an aggregate's name.
fn fold_slots(
    alloc: Global,
    query: &Query,
    times: &[i64],
    others: &[ReadColumn],
    slots: &Slots,
    places: &[u32],
) -> Result<Groups, AllocError>
    requires few { length times.now ≤ 65536 }
    requires read { AllByRecursion (IsRead (length times.now)) others.now }
    requires slots { AreSlots query.now (length times.now)
        (row_of times.now (columns_of others.now)) slots.now places.now }
    requires places { AllByRecursion (λ place. place < length times.now) places.now }
    requires short { length places.now ≤ 65536 }
    requires passing { AllByRecursion
        (λ place. passes query.now (row_of times.now (columns_of others.now) place) ≡ true) places.now }
    ensures groups { IfOk result (λ gs.
        gs ≡ groups query.now (map (row_of times.now (columns_of others.now)) places.now)) }
    ensures within { IfOk result (λ gs. AllByRecursion (IsWithin (length places.now)) gs) }
{
    match decode_aggs(alloc, query.aggs.as_slice(), times, others)? {
        Some(decoded) => fold_by_slot(
            alloc,
            query,
            times.len() as u32,
            slots,
            decoded.as_slice(),
            places,
        ),
        None => fold_places(alloc, query, times, others, places),
    }
}

/// If fewer than one row in 32 passes, rows are made, as to decode a column costs as much as to read some cells.
const FEW: usize = 32;

/// The groups of the rows at places that all pass.
fn fold_passing(
    alloc: Global,
    query: &Query,
    times: &[i64],
    others: &[ReadColumn],
    places: &[u32],
) -> Result<Groups, AllocError>
    requires few { length times.now ≤ 65536 }
    requires read { AllByRecursion (IsRead (length times.now)) others.now }
    requires places { AllByRecursion (λ place. place < length times.now) places.now }
    requires short { length places.now ≤ 65536 }
    requires passing { AllByRecursion
        (λ place. passes query.now (row_of times.now (columns_of others.now) place) ≡ true) places.now }
    ensures groups { IfOk result (λ gs.
        gs ≡ groups query.now (map (row_of times.now (columns_of others.now)) places.now)) }
    ensures within { IfOk result (λ gs. AllByRecursion (IsWithin (length places.now)) gs) }
{
    if places.len() < times.len() / FEW {
        return fold_places(alloc, query, times, others, places);
    }
    match slots_of(alloc, query, times, others, places)? {
        Some(slots) => fold_slots(alloc, query, times, others, &slots, places),
        None => fold_places(alloc, query, times, others, places),
    }
}

/// The groups of the rows at the places whose times are wanted.
fn fold_wanted(
    alloc: Global,
    query: &Query,
    times: &[i64],
    others: &[ReadColumn],
    skip: u32,
    horizon: i64,
) -> Result<Groups, AllocError>
    requires few { length times.now ≤ 65536 }
    requires skip { skip ≤ length times.now }
    requires read { AllByRecursion (IsRead (length times.now)) others.now }
    ensures groups { IfOk result (λ gs. gs ≡ groups query.now
        (map (row_of times.now (columns_of others.now)) (wanted_places query.now horizon times.now skip))) }
    ensures within { IfOk result (λ gs.
        AllByRecursion (IsWithin (length (wanted_places query.now horizon times.now skip))) gs) }
{
    let wanted = wanted_places(alloc, query, times, skip, horizon)?;
    match narrow_all(alloc, query.conds.as_slice(), times, others, wanted)? {
        Some(left) => fold_passing(alloc, query, times, others, left.as_slice()),
        None => {
            let all = wanted_places(alloc, query, times, skip, horizon)?;
            fold_places(alloc, query, times, others, all.as_slice())
        }
    }
}

/// The groups of the rows of these columns, from place `skip` and from the horizon on. All times lie in `from..=to`.
pub(crate) fn fold_columns(
    alloc: Global,
    query: &Query,
    rows: u32,
    times: &ReadColumn,
    others: &[ReadColumn],
    from: i64,
    to: i64,
    skip: u32,
    horizon: i64,
) -> Result<Groups, AllocError>
    requires few { rows ≤ 65536 }
    requires skip { skip ≤ rows }
    requires timed { AreTimes rows times.now.column.now }
    requires times { IsRead rows times.now }
    requires between { AreBetween rows times.now.column.now from to }
    requires others { AllByRecursion (IsRead rows) others.now }
    ensures groups { IfOk result (λ gs. gs ≡ groups query.now
        (live_rows skip horizon (record { rows = rows; columns = times.now.column.now ∷ columns_of others.now }))) }
    ensures within { IfOk result (λ gs. AllByRecursion (IsWithin (length (live_rows skip horizon
        (record { rows = rows; columns = times.now.column.now ∷ columns_of others.now })))) gs) }
{
    let seen = times_seen(alloc, query, rows, times, from, to, skip, horizon)?;
    fold_wanted(alloc, query, seen.as_slice(), others, skip, horizon)
}
