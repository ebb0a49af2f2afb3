// Finds which rows of an add stay: all but the `late` rows with the least times.
ghost use Rattle.std.specs.Prelude.{◌≡◌, ◌<◌, ◌≤◌, map, length, IfOk, IsPermutation, IsSorted};
ghost use Rattle.std.specs.Ordering.{int_cmp};
ghost use Rattle.std.specs.Vec.{vec_len};
ghost use Rattle.row_model.specs.declared.rows.Row.{Row};
ghost use Rattle.leaf_model.specs.Content.{rows_from};
ghost use Rattle.standing_query.specs.Parts.{IsCut};

use leaf_model::Row;
use std::alloc::{AllocError, Global};

fn times_of(alloc: Global, rows: &[Row]) -> Result<Vec<i64>, AllocError>
    ensures times { IfOk result (λ times. times.items ≡ map (λ (row : Row). row.time) rows.now) }
    ensures count { IfOk result (λ times. vec_len times ≡ length rows.now) }
{
    let mut times: Vec<i64> = Vec::new(alloc);
    for row in rows {
        times.push(row.time)?;
    }
    Ok(times)
}

/// The times of rows, ascending.
fn sorted_times(alloc: Global, rows: &[Row]) -> Result<Vec<i64>, AllocError>
    ensures same { IfOk result (λ times. IsPermutation (map (λ (row : Row). row.time) rows.now) times.items) }
    ensures count { IfOk result (λ times. vec_len times ≡ length rows.now) }
    ensures sorted { IfOk result (λ times. IsSorted int_cmp times.items) }
{
    let mut times = times_of(alloc, rows)?;
    times.sort_unstable();
    Ok(times)
}

fn retain_from(rows: &mut Vec<Row>, time: &i64)
    ensures rows { rows.new.items ≡ rows_from time.now rows.old.items }
    ensures few { vec_len rows.new ≤ vec_len rows.old }
{
    rows.retain(|row| row.time >= *time);
}

/// The rows without the late ones, if some horizon has exactly `late` rows below it. Err if memory runs out.
pub fn without_late(alloc: Global, mut rows: Vec<Row>, late: u64) -> Result<Vec<Row>, AllocError>
    requires { late < vec_len rows }
    ensures { IfOk result (λ kept. IsCut rows.items late kept.items) }
{
    if late == 0 {
        return Ok(rows);
    }
    let times = sorted_times(alloc, rows.as_slice())?;
    retain_from(&mut rows, &times[late as usize]);
    Ok(rows)
}
