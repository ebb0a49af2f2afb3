// Rows that the tests share, from their bytes.
ghost use Rattle.std.specs.Prelude.{◌≤◌, IfOk, length};
ghost use Rattle.std.specs.List.{AllByRecursion};
ghost use Rattle.row_model.specs.Values.{IsRow};

use leaf_model::{PackedRows, Rows};
use row_records::read_rows;
use std::alloc::{AllocError, Global};

/// Three rows without cells, of the times 30, 10 and 20.
pub const TIMES: &[u8] = b"\x1e\0\0\0\0\0\0\0\0\0\x0a\0\0\0\0\0\0\0\0\0\x14\0\0\0\0\0\0\0\0\0";

/// The same, of the times 31, 50 and 40.
pub const LATER: &[u8] = b"\x1f\0\0\0\0\0\0\0\0\0\x32\0\0\0\0\0\0\0\0\0\x28\0\0\0\0\0\0\0\0\0";

/// Three rows of the times 1, 2 and 3, with the codes 1, 0 and 3.
pub const CODED: &[u8] =
    b"\x01\0\0\0\0\0\0\0\x01\0\x04code\x01\x01\0\0\0\0\0\0\0\x02\0\0\0\0\0\0\0\x01\0\x04code\x01\0\0\0\0\0\0\0\0\x03\0\0\0\0\0\0\0\x01\0\x04code\x01\x03\0\0\0\0\0\0\0";

/// Three rows of the times 10, 11 and 12, with the code 5.
pub const CODED_LATER: &[u8] =
    b"\x0a\0\0\0\0\0\0\0\x01\0\x04code\x01\x05\0\0\0\0\0\0\0\x0b\0\0\0\0\0\0\0\x01\0\x04code\x01\x05\0\0\0\0\0\0\0\x0c\0\0\0\0\0\0\0\x01\0\x04code\x01\x05\0\0\0\0\0\0\0";

/// `count` rows, from their bytes.
fn rows_of(alloc: Global, bytes: &[u8], count: u64) -> Result<PackedRows, AllocError>
    ensures rows { IfOk result (λ rows. AllByRecursion IsRow rows) }
    ensures few { IfOk result (λ rows. length rows ≤ count) }
{
    match read_rows(alloc, bytes, count)? {
        Some((rows, _taken)) => Ok(rows),
        None => Ok(PackedRows::new(alloc)),
    }
}

/// So many bytes.
fn zeros(alloc: Global, count: usize) -> Result<Vec<u8>, AllocError> {
    vec![in alloc; 0u8; count]
}

/// So many rows without cells, of the time 0.
pub fn alike(alloc: Global, count: u32) -> Result<Rows, AllocError>
    requires { count ≤ 100000 }
    ensures { IfOk result (λ rows. AllByRecursion IsRow rows) }
{
    let bytes = zeros(alloc, count as usize * 10)?;
    let rows = rows_of(alloc, bytes.as_slice(), u64::from(count))?;
    Ok(Rows::of(rows))
}

/// The bytes of so many rows without cells, of the times from `first` on.
fn bytes_in_order(alloc: Global, first: u32, count: u32) -> Result<Vec<u8>, AllocError> {
    let mut bytes = Vec::new(alloc);
    for place in 0..count {
        let time = u64::from(first) + u64::from(place);
        bytes.extend_from_slice(&time.to_le_bytes())?;
        bytes.extend_from_slice(&[0, 0])?;
    }
    Ok(bytes)
}

/// So many rows without cells, of the times from `first` on.
pub fn in_order(alloc: Global, first: u32, count: u32) -> Result<Rows, AllocError>
    requires { count ≤ 100000 }
    ensures { IfOk result (λ rows. AllByRecursion IsRow rows) }
{
    let bytes = bytes_in_order(alloc, first, count)?;
    let rows = rows_of(alloc, bytes.as_slice(), u64::from(count))?;
    Ok(Rows::of(rows))
}

/// Three rows, from their bytes.
pub fn three_rows(alloc: Global, bytes: &[u8]) -> Result<Rows, AllocError>
    ensures { IfOk result (λ rows. AllByRecursion IsRow rows) }
{
    let rows = rows_of(alloc, bytes, 3)?;
    Ok(Rows::of(rows))
}
