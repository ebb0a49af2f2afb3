// Encodes cells as the bytes of a column.
ghost use Rattle.std.specs.Prelude.{◌≡◌, ◌<◌, ◌≤◌, ◌↔◌, ℕ, List, Option, length, map, is_some, option_map, IfOk, IfSome, IsTrue};
ghost use Rattle.row_model.specs.declared.rows.Value.{Value};
ghost use Rattle.leaf_model.specs.Lent.{each_value, lent_value};
ghost use Rattle.column_bytes.specs.declared.kind.Kind.TheVariants.{Ints, Texts};
ghost use Rattle.column_bytes.specs.Cells.{Entries};
ghost use Rattle.column_bytes.specs.Column.{HasCells, kind_in};
ghost use Rattle.column_bytes.specs.Coding.{AreIntegers, AreOfKind, IsCoding, IsOfKind};
ghost use Rattle.dictionaries.specs.Dictionary.{AreTexts};

use crate::integers::{encode_integers, integer_column};
use crate::kind::Kind;
use crate::set_codes::encode_sets;
use crate::text_codes::{encode_texts, text_column};
use crate::text_set::TextSet;
use leaf_model::{LentValue, MAX_TEXT, Value};
use std::alloc::{AllocError, Global};
use std::marker::Model;

/// A column as bytes. The offsets in it count from its first byte, so it may be moved. Contracts see the bytes.
#[derive(Drop)]
pub struct Column {
    bytes: Vec<u8>,
}

impl Model for Column {
    ghost use Rattle.std.specs.Prelude.{List, ℕ};

    ghost Value = { List ℕ };

    ghost view = { λ column. column.bytes.items };
}

impl Column {
    pub fn bytes(&self) -> &[u8]
        ensures { result.now ≡ self.now }
    {
        self.bytes.as_slice()
    }

    pub fn into_bytes(self) -> Vec<u8>
        ensures { result.items ≡ self }
    {
        self.bytes
    }
}

fn is_of_kind(kind: Kind, cell: &Option<Value>) -> bool
    ensures { IsTrue result ↔ IfSome cell.now (IsOfKind kind) }
{
    match cell {
        None => true,
        Some(Value::Int(_)) => kind == Kind::Ints,
        Some(Value::Text(text)) => kind == Kind::Texts && text.as_str().len() <= MAX_TEXT,
        Some(Value::Set(members)) => kind == Kind::Sets && members.is_set(),
    }
}

/// Whether each cell that is there is of the kind: a text has at most 65,535 bytes, and a set's texts are a set.
pub fn are_of_kind(kind: Kind, cells: &[Option<Value>]) -> bool
    ensures { IsTrue result ↔ AreOfKind kind cells.now }
{
    for cell in cells {
        if !is_of_kind(kind, cell) {
            return false;
        }
    }
    true
}

fn lend(cell: &Option<Value>) -> Option<LentValue<'_>>
    ensures { option_map lent_value result ≡ cell.now }
{
    match cell {
        None => None,
        Some(value) => Some(LentValue::of(value)),
    }
}

fn lend_all(
    alloc: Global,
    cells: &[Option<Value>],
) -> Result<Vec<Option<LentValue<'_>>>, AllocError>
    ensures { IfOk result (λ lent. each_value lent.items ≡ cells.now) }
{
    let mut lent = Vec::with_capacity(alloc, cells.len())?;
    for cell in cells {
        lent.push(lend(cell))?;
    }
    Ok(lent)
}

/// Encodes 1 to 65,536 cells of one kind, as `encode_refs`, from owned values. Err if memory runs out.
pub fn encode(alloc: Global, kind: Kind, cells: &[Option<Value>]) -> Result<Column, AllocError>
    requires some { 0 < length cells.now }
    requires few { length cells.now ≤ 65536 }
    requires kind { AreOfKind kind cells.now }
    ensures cells { IfOk result (λ column. HasCells column (length cells.now) cells.now) }
    ensures kind { IfOk result (λ column. kind_in column ≡ kind) }
{
    let lent = lend_all(alloc, cells)?;
    encode_refs(alloc, kind, &lent)
}

/// Encodes 1 to 65,536 integers, in the form that takes fewer bytes: one for each cell, and any for a missing one. Err
/// if memory runs out.
pub fn encode_numbers(
    alloc: Global,
    integers: &[i64],
    present: &[bool],
) -> Result<Column, AllocError>
    requires some { 0 < length integers.now }
    requires few { length integers.now ≤ 65536 }
    requires same { length present.now ≡ length integers.now }
    ensures cells { (cells : List (Option Value)) → map is_some cells ≡ present.now
        → AreIntegers cells integers.now → IfOk result (λ column. HasCells column (length present.now) cells) }
    ensures kind { IfOk result (λ column. kind_in column ≡ Ints) }
{
    let bytes = integer_column(alloc, integers, present)?;
    Ok(Column { bytes })
}

/// Encodes 1 to 65,536 texts: a code of `set` for each cell, and any for a missing one. Err if memory runs out.
pub fn encode_codes(
    alloc: Global,
    set: &TextSet,
    codes: &[u64],
    present: &[bool],
) -> Result<Column, AllocError>
    requires some { 0 < length codes.now }
    requires few { length codes.now ≤ 65536 }
    requires same { length present.now ≡ length codes.now }
    requires texts { AreTexts set.now }
    requires each { length set.now ≤ length codes.now }
    ensures cells { (cells : List (Option Value))
        → map is_some cells ≡ present.now → IsCoding cells codes.now (Entries set.now)
        → IfOk result (λ column. HasCells column (length present.now) cells) }
    ensures kind { IfOk result (λ column. kind_in column ≡ Texts) }
{
    let bytes = text_column(alloc, set, codes, present)?;
    Ok(Column { bytes })
}

/// Encodes 1 to 65,536 borrowed cells of one kind: integers in the form that takes fewer bytes, codes with the least
/// width that holds them. Err if memory runs out.
pub fn encode_refs(
    alloc: Global,
    kind: Kind,
    cells: &[Option<LentValue>],
) -> Result<Column, AllocError>
    requires some { 0 < length cells.now }
    requires few { length cells.now ≤ 65536 }
    requires kind { AreOfKind kind (each_value cells.now) }
    ensures cells { IfOk result (λ column. HasCells column (length cells.now) (each_value cells.now)) }
    ensures kind { IfOk result (λ column. kind_in column ≡ kind) }
{
    match kind {
        Kind::Ints => {
            let bytes = encode_integers(alloc, cells)?;
            Ok(Column { bytes })
        }
        Kind::Texts => {
            let bytes = encode_texts(alloc, cells)?;
            Ok(Column { bytes })
        }
        Kind::Sets => {
            let bytes = encode_sets(alloc, cells)?;
            Ok(Column { bytes })
        }
    }
}
