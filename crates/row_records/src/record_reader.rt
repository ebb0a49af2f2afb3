// Reading a record: the table's name and its writes.
ghost use Rattle.std.specs.Prelude.{◌≡◌, IfOk, IfSome, Some, option_map};
ghost use Rattle.std.specs.List.{list_any};
ghost use Rattle.leaf_model.specs.Lent.{lent_row, lent_rows, lent_value};
ghost use Rattle.row_records.specs.Records.{LogRecord, IsRecord, has_set, has_sets, is_set_value, record_bytes, record_read, row_has_set};
ghost use Rattle.row_records.specs.Reading.{ReadsAs, add_at, write_at, writes_at, flush_at, whole_at, body_of, record_of};

use crate::fault::ReadError;
use crate::row_reader::{name_of, rows_of, time_of, u32_at, u64_at};
use leaf_model::{LentRow, LentRows, LentValue, MAX_ROWS, Rows, Text, Write, Writes};
use std::alloc::{AllocError, Global};

/// A record that was read: whether its kind allows sets, its table's name, and its writes.
#[derive(Drop)]
pub struct Flush {
    pub sets: bool,
    pub name: Text,
    pub writes: Writes,
}

#[tactic(auto, unfolding(crate::specs::Reading::add_at))]
fn add_of(alloc: Global, bytes: &[u8]) -> Result<(Write, &[u8]), ReadError>
    ensures { ReadsAs (λ x. (x.0, x.1.now)) result (add_at bytes.now) }
{
    let (count, rest) = u32_at(bytes)?;
    if count as u64 > MAX_ROWS {
        return Err(ReadError::Broken);
    }
    let (rows, rest) = rows_of(alloc, count as u64, rest)?;
    let rows = Rows::of(rows);
    Ok((Write::Add(rows), rest))
}

#[tactic(auto, unfolding(crate::specs::Reading::write_at))]
fn write_of(alloc: Global, bytes: &[u8]) -> Result<(Write, &[u8]), ReadError>
    ensures { ReadsAs (λ x. (x.0, x.1.now)) result (write_at bytes.now) }
{
    match bytes {
        [1, rest @ ..] => add_of(alloc, rest),
        [2, rest @ ..] => {
            let (horizon, rest) = time_of(rest)?;
            Ok((Write::Expire(horizon), rest))
        }
        [3, rest @ ..] => {
            let (rows, rest) = u64_at(rest)?;
            Ok((Write::Keep(rows), rest))
        }
        _ => Err(ReadError::Broken),
    }
}

fn writes_of(alloc: Global, count: u64, bytes: &[u8]) -> Result<(Vec<Write>, &[u8]), ReadError>
    ensures { ReadsAs (λ x. (x.0.items, x.1.now)) result (writes_at count bytes.now) }
{
    let mut writes = Vec::new(alloc);
    let mut rest = bytes;
    for _ in 0..count {
        let (write, after) = write_of(alloc, rest)?;
        writes.push(write)?;
        rest = after;
    }
    Ok((writes, rest))
}

#[tactic(auto, unfolding(crate::specs::Reading::flush_at))]
fn flush_of(alloc: Global, bytes: &[u8]) -> Result<((Text, Writes), &[u8]), ReadError>
    ensures { ReadsAs (λ x. ((x.0.0, x.0.1), x.1.now)) result (flush_at bytes.now) }
{
    let (name, rest) = name_of(alloc, bytes)?;
    let (count, rest) = u64_at(rest)?;
    if count == 0 {
        return Err(ReadError::Broken);
    }
    let (writes, rest) = writes_of(alloc, count, rest)?;
    let writes = Writes::of(writes);
    Ok(((name, writes), rest))
}

#[tactic(auto, unfolding(crate::specs::Reading::whole_at))]
fn whole_of(alloc: Global, sets: bool, bytes: &[u8]) -> Result<Flush, ReadError>
    ensures { ReadsAs record_read result (whole_at sets bytes.now) }
{
    let ((name, writes), rest) = flush_of(alloc, bytes)?;
    if !rest.is_empty() {
        return Err(ReadError::Broken);
    }
    Ok(Flush { sets, name, writes })
}

fn is_set_value(value: &LentValue) -> bool
    ensures { result ≡ is_set_value (lent_value value.now) }
{
    match value {
        LentValue::Set(_members) => true,
        LentValue::Int(_) | LentValue::Text(_) => false,
    }
}

fn row_has_set(row: &LentRow) -> bool
    ensures { result ≡ row_has_set (lent_row row.now) }
{
    let mut left = row.cells;
    while let Some((first, others)) = left.split_first() {
        if is_set_value(&first.value) {
            return true;
        }
        left = others;
    }
    false
}

fn have_set(rows: &LentRows) -> bool
    ensures { result ≡ list_any row_has_set (lent_rows rows.now) }
{
    let mut left = *rows;
    while let Some((first, others)) = left.split_first() {
        if row_has_set(&first) {
            return true;
        }
        left = others;
    }
    false
}

fn has_set(write: &Write) -> bool
    ensures { result ≡ has_set write.now }
{
    match write {
        Write::Add(rows) => have_set(&rows.lend()),
        Write::Expire(_) | Write::Keep(_) => false,
    }
}

fn has_sets(writes: &[Write]) -> bool
    ensures { result ≡ has_sets writes.now }
{
    writes.iter().any(|write| has_set(write))
}

#[tactic(auto, unfolding(crate::specs::Reading::body_of))]
fn body_of(alloc: Global, bytes: &[u8]) -> Result<Flush, ReadError>
    ensures { ReadsAs record_read result (body_of bytes.now) }
{
    match bytes {
        [1, rest @ ..] => {
            let record = whole_of(alloc, false, rest)?;
            if has_sets(record.writes.as_slice()) {
                return Err(ReadError::Broken);
            }
            Ok(record)
        }
        [2, rest @ ..] => whole_of(alloc, true, rest),
        _ => Err(ReadError::Broken),
    }
}

#[tactic(auto, unfolding(crate::specs::Reading::record_of))]
fn record_of(alloc: Global, bytes: &[u8]) -> Result<Flush, ReadError>
    ensures { ReadsAs record_read result (record_of bytes.now) }
{
    let (len, rest) = u64_at(bytes)?;
    if len != rest.len() as u64 {
        return Err(ReadError::Broken);
    }
    body_of(alloc, rest)
}

/// Reads all of the bytes as one record: its table and its writes. None if they are no record.
pub fn read_record(alloc: Global, bytes: &[u8]) -> Result<Option<Flush>, AllocError>
    // The bytes spell the record that is read.
    ensures found { IfOk result (λ found.
        IfSome found (λ flush. IsRecord (record_read flush) × (bytes.now ≡ record_bytes (record_read flush)))) }
    // A record that the bytes spell is read, unless memory runs out.
    ensures only { (r : LogRecord) → IsRecord r
        → bytes.now ≡ record_bytes r → IfOk result (λ found. option_map record_read found ≡ Some r) }
{
    match record_of(alloc, bytes) {
        Ok(flush) => Ok(Some(flush)),
        Err(ReadError::Broken) => Ok(None),
        Err(ReadError::Memory) => Err(AllocError),
    }
}
