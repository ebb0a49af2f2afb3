// Decodes the column of a name: its cell at each place.
ghost use Rattle.std.specs.Prelude.{◌≡◌, ℕ, ◌<◌, ◌≤◌, true, false, length, pos, slice_index, slice_index_or, IfOk, IfSome, Some, None, if◌then◌else◌};
ghost use Rattle.std.specs.List.{AllByRecursion};
ghost use Rattle.row_model.specs.declared.rows.Value.TheVariants as cells;
ghost use Rattle.leaf_model.specs.Groups.{value_of};
ghost use Rattle.column_bytes.specs.declared.kind.Kind.TheVariants as kinds;
ghost use Rattle.column_bytes.specs.Cells.{entries, has_entries, kind_of_book, no_value};
ghost use Rattle.row_blocks.specs.Blocks.{value_in};
ghost use Rattle.block_scan.specs.Decoded.{IsDecoded};
ghost use Rattle.block_scan.specs.Reads.{IsRead, columns_of, row_of};

use crate::finding::{NamedColumns, find_named};
use crate::reading::ReadColumn;
use column_bytes::{ColumnView, Kind};
use leaf_model::Text;
use std::alloc::{AllocError, Global};

/// For each place whether its cell is there, and its integer.
#[derive(Drop)]
pub struct Integers {
    pub present: Vec<bool>,
    pub values: Vec<i64>,
}

/// For each place whether its cell is there, and the code of its text or set.
#[derive(Drop)]
pub struct EntryCodes<'b, 'a> {
    pub present: Vec<bool>,
    pub codes: Vec<u64>,
    pub view: &'b ColumnView<'a>,
}

/// The cells of a name at all places: missing, integers, or texts or sets by their codes.
#[derive(Drop)]
pub enum Decoded<'b, 'a> {
    Missing,
    Ints(Integers),
    Codes(EntryCodes<'b, 'a>),
}

fn fill_integers(
    rows: u32,
    read: &ReadColumn,
    codes: &mut [u64],
    present: &mut [bool],
    values: &mut [i64],
)
    requires read { IsRead rows read.now }
    requires kind { kind_of_book read.now.view.book ≡ kinds.Ints }
    requires codes { length codes.old ≡ rows }
    requires present { length present.old ≡ rows }
    requires values { length values.old ≡ rows }
    ensures { (i : ℕ) → i < rows → value_in read.now.column.now.bytes i ≡ (if slice_index_or present.new i false
        then Some (cells.Int (slice_index_or values.new i (pos 0))) else None) }
{
    read.view.integers(codes, present, values);
}

fn decode_integers(alloc: Global, rows: u32, read: &ReadColumn) -> Result<Integers, AllocError>
    requires read { IsRead rows read.now }
    requires kind { kind_of_book read.now.view.book ≡ kinds.Ints }
    ensures present { IfOk result (λ d. length d.present.items ≡ rows) }
    ensures values { IfOk result (λ d. length d.values.items ≡ rows) }
    ensures each { IfOk result (λ d.
        (i : ℕ) → i < rows → value_in read.now.column.now.bytes i ≡ (if slice_index_or d.present.items i false
        then Some (cells.Int (slice_index_or d.values.items i (pos 0))) else None)) }
{
    let mut codes = vec![in alloc; 0u64; rows as usize]?;
    let mut present = vec![in alloc; false; rows as usize]?;
    let mut values = vec![in alloc; 0i64; rows as usize]?;
    fill_integers(
        rows,
        read,
        codes.as_mut_slice(),
        present.as_mut_slice(),
        values.as_mut_slice(),
    );
    Ok(Integers { present, values })
}

fn fill_codes(rows: u32, read: &ReadColumn, codes: &mut [u64], present: &mut [bool])
    requires read { IsRead rows read.now }
    requires kind { has_entries (kind_of_book read.now.view.book) ≡ true }
    requires codes { length codes.old ≡ rows }
    requires present { length present.old ≡ rows }
    ensures each { (i : ℕ) → i < rows → value_in read.now.column.now.bytes i ≡ (if slice_index_or present.new i false
        then Some (slice_index_or (entries read.now.view.book) (slice_index codes.new i) no_value) else None) }
    ensures below { (i : ℕ) → i < rows → slice_index_or present.new i false ≡ true
        → slice_index codes.new i < length (entries read.now.view.book) }
{
    read.view.codes(codes, present);
}

fn decode_codes<'b, 'a>(
    alloc: Global,
    rows: u32,
    read: &'b ReadColumn<'a>,
) -> Result<EntryCodes<'b, 'a>, AllocError>
    requires read { IsRead rows read.now }
    requires kind { has_entries (kind_of_book read.now.view.book) ≡ true }
    ensures view { IfOk result (λ d. d.view.now ≡ read.now.view) }
    ensures present { IfOk result (λ d. length d.present.items ≡ rows) }
    ensures codes { IfOk result (λ d. length d.codes.items ≡ rows) }
    ensures each { IfOk result (λ d.
        (i : ℕ) → i < rows → value_in read.now.column.now.bytes i ≡ (if slice_index_or d.present.items i false
        then Some (slice_index_or (entries read.now.view.book) (slice_index d.codes.items i) no_value) else None)) }
    ensures below { IfOk result (λ d. (i : ℕ) → i < rows → slice_index_or d.present.items i false ≡ true
        → slice_index d.codes.items i < length (entries read.now.view.book)) }
{
    let mut codes = vec![in alloc; 0u64; rows as usize]?;
    let mut present = vec![in alloc; false; rows as usize]?;
    fill_codes(rows, read, codes.as_mut_slice(), present.as_mut_slice());
    let view = &read.view;
    Ok(EntryCodes {
        present,
        codes,
        view,
    })
}

fn decode_column<'b, 'a>(
    alloc: Global,
    rows: u32,
    read: &'b ReadColumn<'a>,
) -> Result<Decoded<'b, 'a>, AllocError>
    requires { IsRead rows read.now }
    ensures { IfOk result (λ d. IsDecoded rows (value_in read.now.column.now.bytes) d) }
{
    match read.view.kind() {
        Kind::Ints => {
            let integers = decode_integers(alloc, rows, read)?;
            Ok(Decoded::Ints(integers))
        }
        Kind::Texts | Kind::Sets => {
            let codes = decode_codes(alloc, rows, read)?;
            Ok(Decoded::Codes(codes))
        }
    }
}

fn own_times(alloc: Global, times: &[i64]) -> Result<Integers, AllocError>
    ensures present { IfOk result (λ d. length d.present.items ≡ length times.now) }
    ensures values { IfOk result (λ d. d.values.items ≡ times.now) }
    ensures each { IfOk result (λ d. (i : ℕ) → i < length times.now → slice_index_or d.present.items i false ≡ true) }
{
    let present = vec![in alloc; true; times.len()]?;
    let mut values = Vec::with_capacity(alloc, times.len())?;
    values.extend_from_slice(times)?;
    Ok(Integers { present, values })
}

/// Decodes the cells of a name at all places. None if two columns have the name.
pub(crate) fn decode<'b, 'a>(
    alloc: Global,
    name: &Text,
    times: &[i64],
    read: &'b [ReadColumn<'a>],
) -> Result<Option<Decoded<'b, 'a>>, AllocError>
    requires few { length times.now ≤ 65536 }
    requires read { AllByRecursion (IsRead (length times.now)) read.now }
    ensures { IfOk result (λ found. IfSome found (λ d.
        IsDecoded (length times.now) (λ i. value_of name.now (row_of times.now (columns_of read.now) i)) d)) }
{
    if name.as_str() == "time" {
        let integers = own_times(alloc, times)?;
        return Ok(Some(Decoded::Ints(integers)));
    }
    let rows = times.len() as u32;
    match find_named(rows, name, read) {
        NamedColumns::Nowhere => Ok(Some(Decoded::Missing)),
        NamedColumns::Once(column) => {
            let decoded = decode_column(alloc, rows, column)?;
            Ok(Some(decoded))
        }
        NamedColumns::Twice => Ok(None),
    }
}
