// Narrows places to those that meet the conditions of a query.
ghost use Rattle.std.specs.Prelude.{◌≡◌, ◌<◌, ◌≤◌, length, filter, slice_index_or, IfOk, IfSome, Some};
ghost use Rattle.std.specs.List.{AllByRecursion};
ghost use Rattle.row_model.specs.declared.rows.Value.TheVariants as values;
ghost use Rattle.leaf_model.specs.Groups.{cond_accepts, set_accepts};
ghost use Rattle.row_model.specs.Names.{is_among};
ghost use Rattle.column_bytes.specs.Cells.{entries, no_value, value_lent};
ghost use Rattle.block_scan.specs.declared.decoded.Decoded.TheVariants.{Codes};
ghost use Rattle.block_scan.specs.Decoded.{accepted_codes, IsSized, conds_hold, decoded_at};
ghost use Rattle.block_scan.specs.Reads.{IsRead, columns_of, row_of};

use crate::decoded::{Decoded, EntryCodes, decode};
use crate::reading::ReadColumn;
use column_bytes::{ColumnView, SetRef, ValueRef};
use group_table::accepts;
use leaf_model::{Cond, Op, Value};
use std::alloc::{AllocError, Global};

fn accepts_integer(cond: &Cond, number: &i64) -> bool
    ensures { result ≡ cond_accepts cond.now (Some (values.Int number.now)) }
{
    match &cond.value {
        Value::Int(other) => accepts(&cond.op, number.cmp(other)),
        Value::Text(_text) => false,
        Value::Set(_members) => false,
    }
}

fn accepts_text(cond: &Cond, text: &str) -> bool
    ensures { result ≡ cond_accepts cond.now (Some (values.Text text.now)) }
{
    match &cond.value {
        Value::Int(_number) => false,
        Value::Text(other) => accepts(&cond.op, text.cmp(other.as_str())),
        Value::Set(_members) => false,
    }
}

fn is_member(members: &SetRef, text: &str) -> bool
    ensures { result ≡ is_among members.now text.now }
{
    for i in 0..members.len() {
        if members.text(i) == text {
            return true;
        }
    }
    false
}

fn set_accepts(op: &Op, members: &SetRef, text: &str) -> bool
    ensures { result ≡ set_accepts op.now members.now text.now }
{
    match op {
        Op::Has => is_member(members, text),
        Op::Eq | Op::Ne | Op::Lt | Op::Le | Op::Gt | Op::Ge => false,
    }
}

fn accepts_set(cond: &Cond, members: &SetRef) -> bool
    ensures { result ≡ cond_accepts cond.now (Some (values.Set members.now)) }
{
    match &cond.value {
        Value::Int(_number) => false,
        Value::Text(text) => set_accepts(&cond.op, members, text.as_str()),
        Value::Set(_others) => false,
    }
}

fn accepts_value(cond: &Cond, value: &ValueRef) -> bool
    ensures { result ≡ cond_accepts cond.now (Some (value_lent value.now)) }
{
    match value {
        ValueRef::Int(number) => accepts_integer(cond, number),
        ValueRef::Text(text) => accepts_text(cond, text),
        ValueRef::Set(members) => accepts_set(cond, members),
    }
}

/// The text or set of a code.
pub(crate) fn entry_of<'a>(view: &ColumnView<'a>, code: u64) -> ValueRef<'a>
    requires { code < length (entries view.now.book) }
    ensures { value_lent result ≡ slice_index_or (entries view.now.book) code no_value }
{
    if code >= u64::from(view.entries()) {
        unreachable!()
    }
    view.entry(code as u32)
}

/// Whether the decoded cell at a place meets the condition.
fn is_met(rows: u32, cond: &Cond, decoded: &Decoded, place: u32) -> bool
    requires sized { IsSized rows decoded.now }
    requires place { place < rows }
    ensures { result ≡ cond_accepts cond.now (decoded_at decoded.now place) }
{
    let place = place as usize;
    match decoded {
        Decoded::Missing => false,
        Decoded::Ints(found) => found.present[place] && accepts_integer(cond, &found.values[place]),
        Decoded::Codes(found) => {
            found.present[place] && accepts_value(cond, &entry_of(found.view, found.codes[place]))
        }
    }
}

/// For each code of a column whether its text or set meets the condition.
fn accepted_entries(alloc: Global, cond: &Cond, view: &ColumnView) -> Result<Vec<bool>, AllocError>
    ensures { IfOk result (λ all. all.items ≡ accepted_codes cond.now (entries view.now.book)) }
{
    let mut all = Vec::with_capacity(alloc, view.entries() as usize)?;
    for code in 0..view.entries() {
        all.push(accepts_value(cond, &view.entry(code)))?;
    }
    Ok(all)
}

/// Whether the cell at a place meets the condition, by its code.
fn is_code_met(rows: u32, cond: &Cond, found: &EntryCodes, accepted: &[bool], place: u32) -> bool
    requires sized { IsSized rows (Codes found.now) }
    requires accepted { accepted.now ≡ accepted_codes cond.now (entries found.now.view.now.book) }
    requires place { place < rows }
    ensures { result ≡ cond_accepts cond.now (decoded_at (Codes found.now) place) }
{
    let place = place as usize;
    found.present[place] && accepted[found.codes[place] as usize]
}

/// The places whose text or set meets the condition. Each text or set of the dictionary is tested once.
fn narrow_codes(
    alloc: Global,
    rows: u32,
    cond: &Cond,
    found: &EntryCodes,
    places: &[u32],
) -> Result<Vec<u32>, AllocError>
    requires sized { IsSized rows (Codes found.now) }
    requires places { AllByRecursion (λ place. place < rows) places.now }
    ensures { IfOk result (λ left.
        left.items ≡ filter (λ i. cond_accepts cond.now (decoded_at (Codes found.now) i)) places.now) }
{
    let accepted = accepted_entries(alloc, cond, found.view)?;
    let mut left = Vec::new(alloc);
    for place in places {
        if is_code_met(rows, cond, found, accepted.as_slice(), *place) {
            left.push(*place)?;
        }
    }
    Ok(left)
}

/// The places whose cell meets the condition. Each cell is tested.
fn narrow_each(
    alloc: Global,
    rows: u32,
    cond: &Cond,
    decoded: &Decoded,
    places: &[u32],
) -> Result<Vec<u32>, AllocError>
    requires sized { IsSized rows decoded.now }
    requires places { AllByRecursion (λ place. place < rows) places.now }
    ensures { IfOk result (λ left.
        left.items ≡ filter (λ i. cond_accepts cond.now (decoded_at decoded.now i)) places.now) }
{
    let mut left = Vec::new(alloc);
    for place in places {
        if is_met(rows, cond, decoded, *place) {
            left.push(*place)?;
        }
    }
    Ok(left)
}

/// The places whose cell meets the condition.
fn narrow(
    alloc: Global,
    rows: u32,
    cond: &Cond,
    decoded: &Decoded,
    places: &[u32],
) -> Result<Vec<u32>, AllocError>
    requires sized { IsSized rows decoded.now }
    requires places { AllByRecursion (λ place. place < rows) places.now }
    ensures { IfOk result (λ left.
        left.items ≡ filter (λ i. cond_accepts cond.now (decoded_at decoded.now i)) places.now) }
{
    match decoded {
        Decoded::Missing | Decoded::Ints(_) => narrow_each(alloc, rows, cond, decoded, places),
        Decoded::Codes(found) => narrow_codes(alloc, rows, cond, found, places),
    }
}

/// The places that meet all conditions. None if two columns have the name of one condition.
pub(crate) fn narrow_all(
    alloc: Global,
    conds: &[Cond],
    times: &[i64],
    read: &[ReadColumn],
    places: Vec<u32>,
) -> Result<Option<Vec<u32>>, AllocError>
    requires few { length times.now ≤ 65536 }
    requires read { AllByRecursion (IsRead (length times.now)) read.now }
    requires places { AllByRecursion (λ place. place < length times.now) places.items }
    ensures { IfOk result (λ found. IfSome found (λ left.
        left.items ≡ filter (λ i. conds_hold conds.now (row_of times.now (columns_of read.now) i)) places.items)) }
{
    let mut left = places;
    for cond in conds {
        let Some(decoded) = decode(alloc, &cond.name, times, read)? else {
            return Ok(None);
        };
        left = narrow(alloc, times.len() as u32, cond, &decoded, left.as_slice())?;
    }
    Ok(Some(left))
}
