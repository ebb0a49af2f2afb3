// Rows packed as bytes, one row after another.
ghost use Rattle.std.specs.Prelude.{◌≡◌, ◌+◌, ◌≤◌, ◌++◌, ℕ, List, [], drop, length, take, IfOk, IfSome, IsSome, IsTrue, OnErr, OnOk};
ghost use Rattle.std.specs.List.{AllByRecursion};
ghost use Rattle.row_model.specs.declared.rows.Row.{Row};
ghost use Rattle.leaf_model.specs.Content.{rows_from};
ghost use Rattle.row_model.specs.Values.{IsRow};
ghost use Rattle.leaf_model.specs.Bytes.{row_bytes, rows_bytes, BeginsWith};
ghost use Rattle.leaf_model.specs.Reading.{row_at, rows_at};
ghost use Rattle.leaf_model.specs.Lent.{lent_rows, spelled_rows};
ghost use Rattle.leaf_model.specs.Packed.{packed_rows, AreFrom, ArePacked, IsPacked};

use crate::fronts::SpelledRows;
use crate::lent_rows::{LentRows, behind_rows, row_in};
use crate::live_bytes::{LiveBytes, drop_bytes, move_down};
use crate::packed_bytes::with_more;
use crate::row_writer::put_row;
use std::alloc::{AllocError, Global};
use std::marker::Model;

/// Rows packed as bytes: a row takes no heap block of its own. Contracts see them as the list.
#[derive(Drop)]
pub struct PackedRows {
    pub(crate) bytes: LiveBytes,
    pub(crate) count: usize,
}

impl Model for PackedRows {
    ghost use Rattle.std.specs.Prelude.{List};
    ghost use Rattle.row_model.specs.declared.rows.Row.{Row};
    ghost use Rattle.leaf_model.specs.Packed.{packed_rows, ArePacked};

    ghost Value = { List Row };

    ghost view = { λ rows. packed_rows rows.count rows.bytes };

    ghost invariant = { λ rows. ArePacked rows.count rows.bytes };
}

impl PackedRows {
    /// No rows.
    #[tactic(auto, using(crate::proofs::PackedLaws::none_packed))]
    pub fn new(alloc: Global) -> PackedRows
        ensures { result ≡ [] }
    {
        PackedRows {
            bytes: LiveBytes::of(Vec::new(alloc)),
            count: 0,
        }
    }

    /// The number of rows.
    pub fn len(&self) -> usize
        ensures { result ≡ length self.now }
    {
        know(self.count, self.bytes.as_slice());
        self.count
    }

    /// No-op; states the invariant: each of them is a row.
    pub fn are_rows(&self)
        ensures { AllByRecursion IsRow self.now }
    {
        know(self.count, self.bytes.as_slice());
    }

    /// The rows, borrowed.
    pub fn lend(&self) -> LentRows<'_>
        ensures { lent_rows result ≡ self.now }
    {
        LentRows::Spelled(SpelledRows::of(self.bytes.as_slice(), self.count))
    }

    /// Appends those of `rows` whose time is at least the horizon. Err leaves the rows as they were.
    pub fn extend_from(&mut self, rows: &LentRows, horizon: i64) -> Result<(), AllocError>
        requires { AllByRecursion IsRow (lent_rows rows.now) }
        ensures put { OnOk result (self.new ≡ self.old ++ rows_from horizon (lent_rows rows.now)) }
        ensures kept { OnErr result (self.new ≡ self.old) }
    {
        know(self.count, self.bytes.as_slice());
        let added = self.bytes.put_from(rows, horizon)?;
        self.count = with_more(self.bytes.as_slice(), self.count, added);
        Ok(())
    }

    /// Removes the rows below the horizon.
    pub fn retain_from(&mut self, horizon: i64)
        ensures { self.new ≡ rows_from horizon self.old }
    {
        know(self.count, self.bytes.as_slice());
        if are_from(&self.lend(), horizon) {
            return;
        }
        let count = self.bytes.keep_from(self.count, horizon);
        self.count = count;
    }

    /// Removes the first `count` rows. It seldom moves the others: to remove n rows, one after another, costs n steps,
    /// amortized.
    pub fn drop_first(&mut self, count: usize)
        requires { count ≤ length self.old }
        ensures { self.new ≡ drop count self.old }
    {
        know(self.count, self.bytes.as_slice());
        let len = front_len(self.bytes.as_slice(), self.count, count);
        self.bytes.cut_front(len);
        self.count -= count;
    }

    /// Keeps the first `count` rows.
    pub fn truncate(&mut self, count: usize)
        requires { count ≤ length self.old }
        ensures { self.new ≡ take count self.old }
    {
        know(self.count, self.bytes.as_slice());
        let len = front_len(self.bytes.as_slice(), self.count, count);
        self.bytes.truncate(len);
        self.count = count;
    }

    /// Removes all rows.
    #[tactic(auto, using(crate::proofs::PackedLaws::none_packed))]
    pub fn clear(&mut self)
        ensures { self.new ≡ [] }
    {
        self.bytes.clear();
        self.count = 0;
    }

    /// The allocator of the bytes.
    pub fn allocator(&self) -> Global {
        self.bytes.allocator()
    }
}

impl LiveBytes {
    /// Appends the bytes of the rows whose time is at least the horizon. Gives the number of these rows.
    #[tactic(auto, using(crate::proofs::LiveLaws::drop_more))]
    fn put_from(&mut self, rows: &LentRows, horizon: i64) -> Result<usize, AllocError>
        requires { AllByRecursion IsRow (lent_rows rows.now) }
        ensures put { OnOk result (self.new ≡ self.old ++ rows_bytes (rows_from horizon (lent_rows rows.now))) }
        ensures counted { IfOk result (λ count. count ≡ length (rows_from horizon (lent_rows rows.now))) }
        ensures kept { OnErr result (self.new ≡ self.old) }
    {
        put_from(&mut self.all, rows, horizon)
    }

    /// Removes the bytes of the rows below the horizon. Gives the number of rows that stay.
    fn keep_from(&mut self, count: usize, horizon: i64) -> usize
        requires { IsPacked count self.old (packed_rows count self.old) }
        ensures kept { self.new ≡ rows_bytes (rows_from horizon (packed_rows count self.old)) }
        ensures counted { result ≡ length (rows_from horizon (packed_rows count self.old)) }
    {
        drop_bytes(&mut self.all, self.dead);
        self.dead = 0;
        keep_bytes(&mut self.all, count, horizon)
    }
}

/// No-op; states what `ArePacked` implies of the rows.
pub(crate) fn know(count: usize, bytes: &[u8])
    requires { ArePacked count bytes.now }
    ensures { IsPacked count bytes.now (packed_rows count bytes.now) }
{
    let _bytes = bytes;
}

/// Whether no row is below the horizon.
fn are_from(rows: &LentRows, horizon: i64) -> bool
    ensures { IsTrue result → rows_from horizon (lent_rows rows.now) ≡ lent_rows rows.now }
{
    let mut left = *rows;
    while let Some((first, others)) = left.split_first() {
        if first.time < horizon {
            return false;
        }
        left = others;
    }
    true
}

/// The number of bytes of the first `count` rows.
fn front_len(bytes: &[u8], all: usize, count: usize) -> usize
    requires few { count ≤ all }
    requires packed { IsPacked all bytes.now (packed_rows all bytes.now) }
    ensures { result ≡ length (rows_bytes (take count (packed_rows all bytes.now))) }
{
    bytes.len() - behind_rows(count, bytes).len()
}

/// The time of the first row, and its number of bytes.
fn first_row(bytes: &[u8]) -> (i64, usize)
    requires { IsSome (row_at bytes.now) }
    ensures { (row : Row) (rest : List ℕ) → IsRow row
        → bytes.now ≡ row_bytes row ++ rest → (result.0 ≡ row.time) × (result.1 ≡ length (row_bytes row)) }
{
    let (row, rest) = row_in(bytes);
    (row.time, bytes.len() - rest.len())
}

/// Removes the bytes of the rows below the horizon. Gives the number of rows that stay.
fn keep_bytes(bytes: &mut Vec<u8>, count: usize, horizon: i64) -> usize
    requires { IsPacked count bytes.old.items (packed_rows count bytes.old.items) }
    ensures kept { bytes.new.items ≡ rows_bytes (rows_from horizon (packed_rows count bytes.old.items)) }
    ensures counted { result ≡ length (rows_from horizon (packed_rows count bytes.old.items)) }
{
    let (len, kept) = keep_from(bytes.as_mut_slice(), count, horizon);
    bytes.truncate(len);
    kept
}

/// Moves each row that stays down over the rows that go. Gives how many bytes and how many rows stay.
fn keep_from(bytes: &mut [u8], count: usize, horizon: i64) -> (usize, usize)
    requires { IsPacked count bytes.old (packed_rows count bytes.old) }
    ensures len { length bytes.new ≡ length bytes.old }
    ensures kept { take result.0 bytes.new ≡ rows_bytes (rows_from horizon (packed_rows count bytes.old)) }
    ensures counted { result.1 ≡ length (rows_from horizon (packed_rows count bytes.old)) }
{
    let mut from = 0;
    let mut to = 0;
    let mut kept = 0;
    for place in 0..count {
        let (time, len) = first_row(&bytes[from..]);
        if time < horizon {
            from += len;
            continue;
        }
        move_down(bytes, from, to, len);
        from += len;
        to += len;
        kept += 1;
    }
    (to, kept)
}

/// Appends the bytes of the rows whose time is at least the horizon. Gives the number of these rows. Err leaves the
/// bytes as they were.
fn put_from(out: &mut Vec<u8>, rows: &LentRows, horizon: i64) -> Result<usize, AllocError>
    requires { AllByRecursion IsRow (lent_rows rows.now) }
    ensures put { OnOk result (out.new.items ≡ out.old.items ++ rows_bytes (rows_from horizon (lent_rows rows.now))) }
    ensures counted { IfOk result (λ count. count ≡ length (rows_from horizon (lent_rows rows.now))) }
    ensures kept { OnErr result (out.new.items ≡ out.old.items) }
{
    match bytes_from(rows, horizon) {
        Some(bytes) => {
            out.extend_from_slice(bytes)?;
            Ok(rows.len())
        }
        None => put_each(out, rows, horizon),
    }
}

/// The bytes of rows that are spelled already. None if a row is below the horizon, or if the rows are values.
fn bytes_from<'a>(rows: &LentRows<'a>, horizon: i64) -> Option<&'a [u8]>
    ensures bytes { IfSome result (λ bytes. bytes.now ≡ rows_bytes (lent_rows rows.now)) }
    ensures all { IfSome result (λ _. AreFrom horizon (lent_rows rows.now)) }
{
    match rows {
        LentRows::Owned(_) => None,
        LentRows::Spelled(rows) => {
            let rest = behind_from(rows.bytes, rows.count, horizon)?;
            Some(spelling(rows.count, rows.bytes, rest))
        }
    }
}

/// The bytes that follow the first `count` rows. None if one of these is below the horizon.
fn behind_from(bytes: &[u8], count: usize, horizon: i64) -> Option<&[u8]>
    requires { IsSome (rows_at count bytes.now) }
    ensures behind { IfSome result (λ rest. rows_at count bytes.now ≡ Some (packed_rows count bytes.now, rest.now)) }
    ensures all { IfSome result (λ _. AreFrom horizon (packed_rows count bytes.now)) }
{
    let mut rest = bytes;
    for _ in 0..count {
        let (row, after) = row_in(rest);
        if row.time < horizon {
            return None;
        }
        rest = after;
    }
    Some(rest)
}

/// The bytes before `rest`: they spell the `count` rows.
fn spelling<'a>(count: usize, bytes: &'a [u8], rest: &[u8]) -> &'a [u8]
    requires { rows_at count bytes.now ≡ Some (packed_rows count bytes.now, rest.now) }
    ensures { result.now ≡ rows_bytes (packed_rows count bytes.now) }
{
    let len = bytes.len() - rest.len();
    &bytes[..len]
}

/// Appends the rows one by one. Err leaves the bytes as they were.
fn put_each(out: &mut Vec<u8>, rows: &LentRows, horizon: i64) -> Result<usize, AllocError>
    requires { AllByRecursion IsRow (lent_rows rows.now) }
    ensures put { OnOk result (out.new.items ≡ out.old.items ++ rows_bytes (rows_from horizon (lent_rows rows.now))) }
    ensures counted { IfOk result (λ count. count ≡ length (rows_from horizon (lent_rows rows.now))) }
    ensures kept { OnErr result (out.new.items ≡ out.old.items) }
{
    let len = out.len();
    let done = lay_from(out, rows, horizon);
    if done.is_err() {
        out.truncate(len);
    }
    done
}

/// The same, but Err may leave part of the rows after the old bytes.
fn lay_from(out: &mut Vec<u8>, rows: &LentRows, horizon: i64) -> Result<usize, AllocError>
    requires { AllByRecursion IsRow (lent_rows rows.now) }
    ensures put { OnOk result (out.new.items ≡ out.old.items ++ rows_bytes (rows_from horizon (lent_rows rows.now))) }
    ensures counted { IfOk result (λ count. count ≡ length (rows_from horizon (lent_rows rows.now))) }
    ensures begins { OnErr result (BeginsWith out.old.items out.new.items) }
{
    // A usize holds the number of all rows, and so the count below.
    let _most = rows.len();
    let mut added = 0;
    let mut left = *rows;
    while let Some((first, others)) = left.split_first() {
        left = others;
        if first.time < horizon {
            continue;
        }
        put_row(out, &first)?;
        added += 1;
    }
    Ok(added)
}
