// Reads rows and fields from the left. Each reader gives what it read and the bytes after it.
ghost use Rattle.std.specs.Prelude.{◌≡◌, ◌++◌, ◌*◌, ◌<◌, List, ℕ, length, IfOk, IfSome, MatchOption, Ok, Err, None};
ghost use Rattle.std.specs.Int.{w32, w64};
ghost use Rattle.std.specs.List.{AllByRecursion};
ghost use Rattle.row_model.specs.declared.rows.Row.{Row};
ghost use Rattle.row_model.specs.Values.{IsRow};
ghost use Rattle.row_records.specs.declared.fault.ReadError.TheVariants.{Broken};
ghost use Rattle.leaf_model.specs.Bytes.{rows_bytes};
ghost use Rattle.row_records.specs.Bytes.{StandsInFront};
ghost use Rattle.leaf_model.specs.Reading.{number_at, byte_at, name_at, time_at, rows_at};
ghost use Rattle.row_records.specs.Reading.{ReadsAs};

use crate::fault::ReadError;
use crate::row_fields::{name_in, time_in, u32_in, u64_in};
use crate::row_test::behind_rows;
use leaf_model::{PackedRows, Text};
use std::alloc::{AllocError, Global};

/// Reads `count` rows at the start of the bytes, and tells how many bytes they take. None if `count` rows do not stand
/// there.
/// A count that is too great for the bytes takes no memory.
pub fn read_rows(
    alloc: Global,
    bytes: &[u8],
    count: u64,
) -> Result<Option<(PackedRows, usize)>, AllocError>
    // The rows that are read stand at the start of the bytes.
    ensures found { IfOk result (λ found. IfSome found (λ read. StandsInFront count bytes.now read.0 read.1)) }
    // Rows that stand there are read, unless memory runs out.
    ensures only { (rows : List Row) (rest : List ℕ)
        → AllByRecursion IsRow rows → length rows ≡ count → bytes.now ≡ rows_bytes rows ++ rest
        → IfOk result (λ found. MatchOption found ⊥ (λ read. (read.0 ≡ rows) × (read.1 ≡ length (rows_bytes rows)))) }
    // Each row takes ten bytes at least.
    ensures far { length bytes.now < 10 * count → result ≡ Ok None }
{
    match rows_in_front(alloc, count, bytes) {
        Ok((rows, rest)) => Ok(Some((rows, bytes.len() - rest.len()))),
        Err(ReadError::Broken) => Ok(None),
        Err(ReadError::Memory) => Err(AllocError),
    }
}

/// Reads `count` rows, and gives the bytes after them. A count that is too great for the bytes takes no memory.
pub fn rows_in_front(
    alloc: Global,
    count: u64,
    bytes: &[u8],
) -> Result<(PackedRows, &[u8]), ReadError>
    ensures given { ReadsAs (λ x. (x.0, x.1.now)) result (rows_at count bytes.now) }
    // Each row takes ten bytes at least.
    ensures far { length bytes.now < 10 * count → result ≡ Err Broken }
{
    if count > bytes.len() as u64 / 10 {
        return Err(ReadError::Broken);
    }
    rows_of(alloc, count, bytes)
}

pub fn u8_at(bytes: &[u8]) -> Result<(u8, &[u8]), ReadError>
    ensures { ReadsAs (λ x. (x.0, x.1.now)) result (byte_at bytes.now) }
{
    match bytes {
        [] => Err(ReadError::Broken),
        [first, rest @ ..] => Ok((*first, rest)),
    }
}

pub(crate) fn u32_at(bytes: &[u8]) -> Result<(u32, &[u8]), ReadError>
    ensures { ReadsAs (λ x. (x.0, x.1.now)) result (number_at w32 bytes.now) }
{
    u32_in(bytes).ok_or(ReadError::Broken)
}

pub fn u64_at(bytes: &[u8]) -> Result<(u64, &[u8]), ReadError>
    ensures { ReadsAs (λ x. (x.0, x.1.now)) result (number_at w64 bytes.now) }
{
    u64_in(bytes).ok_or(ReadError::Broken)
}

pub fn time_of(bytes: &[u8]) -> Result<(i64, &[u8]), ReadError>
    ensures { ReadsAs (λ x. (x.0, x.1.now)) result (time_at bytes.now) }
{
    time_in(bytes).ok_or(ReadError::Broken)
}

pub fn name_of(alloc: Global, bytes: &[u8]) -> Result<(Text, &[u8]), ReadError>
    ensures { ReadsAs (λ x. (x.0, x.1.now)) result (name_at bytes.now) }
{
    match name_in(bytes) {
        Some((name, rest)) => Ok((Text::of(String::from_str(alloc, name)?), rest)),
        None => Err(ReadError::Broken),
    }
}

/// Copies `count` rows as they stand, once they are tested.
pub(crate) fn rows_of(
    alloc: Global,
    count: u64,
    bytes: &[u8],
) -> Result<(PackedRows, &[u8]), ReadError>
    ensures given { ReadsAs (λ x. (x.0, x.1.now)) result (rows_at count bytes.now) }
    ensures count { IfOk result (λ x. length x.0 ≡ count) }
{
    match behind_rows(count, bytes) {
        Some(rest) => Ok((PackedRows::read(alloc, bytes, count as usize, rest)?, rest)),
        None => Err(ReadError::Broken),
    }
}
