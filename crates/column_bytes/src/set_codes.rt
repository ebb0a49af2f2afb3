// Codes sets: each distinct text once, each distinct set once as indices of its texts, and a code for each cell.
ghost use Rattle.std.specs.Prelude.{◌≡◌, ℕ, ◌+◌, ◌*◌, ◌<◌, ◌≤◌, ◌^◌, ◌++◌, List, [], length, map, slice_index_or, IfOk, IfSome, OnOk, Some, option_map};
ghost use Rattle.std.specs.List.{All};
ghost use Rattle.leaf_model.specs.Lent.{each_value, lent_texts, lent_value};
ghost use Rattle.row_model.specs.Values.{IsSet, bytes_in};
ghost use Rattle.row_model.specs.declared.rows.Value.{Value};
ghost use Rattle.row_model.specs.declared.rows.Value.TheVariants as values;
ghost use Rattle.column_bytes.specs.declared.kind.Kind.TheVariants as kinds;
ghost use Rattle.dictionaries.specs.Fields.{u32_at};
ghost use Rattle.column_bytes.specs.Cells.{Sets};
ghost use Rattle.column_bytes.specs.Column.{HasCells, kind_in};
ghost use Rattle.dictionaries.specs.Dictionary.{AreKept, AreTexts, lent, texts_by};
ghost use Rattle.dictionaries.specs.Sets.{AreNumbers, AreSetCodes, IsSetDictionary, number_bytes, numbers_in, sets_at, sets_by};
ghost use Rattle.column_bytes.specs.Coding.{IsOfKind, AreOfKind, IsCoding, end_at, joined};

use crate::form::Form;
use crate::set_numbers::SetNumbers;
use crate::text_codes::dictionary_bytes;
use crate::text_set::TextSet;
use crate::writer::{present_in, put_u32, write};
use leaf_model::{LentTexts, LentValue};
use std::alloc::{AllocError, Global};

// The indices of the texts of a set, in the order of the set. New texts are appended to `texts`.
fn numbers_of<'a>(
    alloc: Global,
    members: &LentTexts<'a>,
    texts: &mut TextSet<'a>,
) -> Result<Vec<u32>, AllocError>
    requires members { IsSet (lent_texts members.now) }
    requires few { length texts.old + length (lent_texts members.now) ≤ 67108864 }
    ensures numbers { IfOk result (λ numbers.
        AreNumbers (length texts.new) numbers.items × (texts_by texts.new numbers.items ≡ lent_texts members.now)) }
    ensures kept { OnOk result (AreKept texts.old texts.new) }
    ensures texts { OnOk result (AreTexts texts.old → AreTexts texts.new) }
    ensures grows { OnOk result (length texts.new ≤ length texts.old + length (lent_texts members.now)) }
    ensures bytes { OnOk result (bytes_in texts.new ≤ bytes_in texts.old + bytes_in (lent_texts members.now)) }
{
    let mut numbers = Vec::with_capacity(alloc, members.len())?;
    let mut left = *members;
    while let Some((text, others)) = left.split_first() {
        numbers.push(texts.code_of(text)? as u32)?;
        left = others;
    }
    Ok(numbers)
}

fn set_code<'a>(
    alloc: Global,
    value: &LentValue<'a>,
    texts: &mut TextSet<'a>,
    sets: &mut SetNumbers,
) -> Result<u64, AllocError>
    requires kind { IsOfKind kinds.Sets (lent_value value.now) }
    requires few { length texts.old ≤ 67107840 }
    ensures code { IfOk result (λ code. (code < length sets.new)
        × (lent_value value.now ≡ values.Set (texts_by texts.new (slice_index_or sets.new code [])))) }
    ensures kept { OnOk result (AreKept texts.old texts.new) }
    ensures sets { OnOk result (AreKept sets.old sets.new) }
    ensures held { OnOk result (AreSetCodes texts.old sets.old → AreSetCodes texts.new sets.new) }
    ensures grows { OnOk result (length sets.new ≤ length sets.old + 1) }
    ensures few { OnOk result (length texts.new ≤ length texts.old + 1024) }
    ensures bytes { OnOk result (bytes_in texts.new ≤ bytes_in texts.old + 65535) }
{
    match value {
        LentValue::Set(members) => {
            let numbers = numbers_of(alloc, members, texts)?;
            let code = sets.code_of(numbers)?;
            Ok(code)
        }
        LentValue::Int(_) | LentValue::Text(_) => unreachable!(),
    }
}

// The code of a cell's set; the one before if the cell is missing.
fn code_or<'a>(
    alloc: Global,
    cell: &Option<LentValue<'a>>,
    texts: &mut TextSet<'a>,
    sets: &mut SetNumbers,
    before: u64,
) -> Result<u64, AllocError>
    requires kind { IfSome (option_map lent_value cell.now) (IsOfKind kinds.Sets) }
    requires few { length texts.old ≤ 67107840 }
    ensures code { IfOk result (λ code. (value : Value) → option_map lent_value cell.now ≡ Some value
        → (code < length sets.new) × (value ≡ values.Set (texts_by texts.new (slice_index_or sets.new code [])))) }
    ensures kept { OnOk result (AreKept texts.old texts.new) }
    ensures sets { OnOk result (AreKept sets.old sets.new) }
    ensures held { OnOk result (AreSetCodes texts.old sets.old → AreSetCodes texts.new sets.new) }
    ensures grows { OnOk result (length sets.new ≤ length sets.old + 1) }
    ensures few { OnOk result (length texts.new ≤ length texts.old + 1024) }
    ensures bytes { OnOk result (bytes_in texts.new ≤ bytes_in texts.old + 65535) }
{
    match cell {
        Some(value) => {
            let code = set_code(alloc, value, texts, sets)?;
            Ok(code)
        }
        None => Ok(before),
    }
}

// A code for each cell. A missing one gets that of the cell before, so that no code becomes wider.
fn cell_codes<'a>(
    alloc: Global,
    cells: &[Option<LentValue<'a>>],
    texts: &mut TextSet<'a>,
    sets: &mut SetNumbers,
) -> Result<Vec<u64>, AllocError>
    requires no_texts { texts.old ≡ [] }
    requires no_sets { sets.old ≡ [] }
    requires small { length cells.now ≤ 65536 }
    requires kind { AreOfKind kinds.Sets (each_value cells.now) }
    ensures coding { IfOk result (λ codes.
        IsCoding (each_value cells.now) codes.items (Sets (sets_by texts.new sets.new))) }
    ensures held { OnOk result (AreSetCodes texts.new sets.new) }
    ensures few { OnOk result (length sets.new ≤ length cells.now) }
    ensures texts { OnOk result (length texts.new ≤ 67108864) }
    ensures bytes { OnOk result (bytes_in texts.new < 2 ^ 32) }
{
    let mut last = 0;
    let mut codes = Vec::with_capacity(alloc, cells.len())?;
    for cell in cells {
        last = code_or(alloc, cell, texts, sets, last)?;
        codes.push(last)?;
    }
    Ok(codes)
}

// The number of sets, and for each set the number of members up to its end.
fn set_ends(alloc: Global, sets: &[Vec<u32>]) -> Result<Vec<u8>, AllocError>
    requires few { length sets.now ≤ 65536 }
    requires small { length (joined (numbers_in sets.now)) < 4294967296 }
    ensures len { IfOk result (λ bytes. length bytes.items ≡ 4 + 4 * length sets.now) }
    ensures count { IfOk result (λ bytes. u32_at bytes.items 0 ≡ length sets.now) }
    ensures ends { IfOk result (λ bytes.
        (k : ℕ) → k < length sets.now → u32_at bytes.items (4 + 4 * k) ≡ end_at (numbers_in sets.now) (k + 1)) }
{
    let mut bytes = Vec::with_capacity(alloc, 4 + 4 * sets.len())?;
    put_u32(&mut bytes, sets.len() as u32)?;
    let mut end = 0;
    for numbers in sets {
        end += numbers.len();
        put_u32(&mut bytes, end as u32)?;
    }
    Ok(bytes)
}

// Appends the members of a set, four bytes each.
#[tactic(auto, using(crate::proofs::SetBytes::numbers_more))]
fn put_numbers(out: &mut Vec<u8>, numbers: &[u32]) -> Result<(), AllocError>
    ensures { OnOk result (out.new.items ≡ out.old.items ++ number_bytes numbers.now) }
{
    for number in numbers {
        put_u32(out, *number)?;
    }
    Ok(())
}

fn put_sets(out: &mut Vec<u8>, sets: &[Vec<u32>]) -> Result<(), AllocError>
    ensures { OnOk result (out.new.items ≡ out.old.items ++ number_bytes (joined (numbers_in sets.now))) }
{
    for numbers in sets {
        put_numbers(out, numbers.as_slice())?;
    }
    Ok(())
}

// The bytes of a dictionary of sets.
fn set_dictionary_bytes(
    alloc: Global,
    texts: &[&str],
    sets: &[Vec<u32>],
) -> Result<Vec<u8>, AllocError>
    requires held { AreSetCodes (lent texts.now) (numbers_in sets.now) }
    requires small { length (joined (lent texts.now)) < 4294967296 }
    requires few_texts { length texts.now ≤ 67108864 }
    requires few { length sets.now ≤ 65536 }
    ensures dictionary { IfOk result (λ bytes. IsSetDictionary bytes.items) }
    ensures same { IfOk result (λ bytes. sets_at bytes.items ≡ sets_by (lent texts.now) (numbers_in sets.now)) }
    ensures small { IfOk result (λ bytes. length bytes.items ≤ 2 ^ 40) }
{
    let mut bytes = dictionary_bytes(alloc, texts)?;
    let ends = set_ends(alloc, sets)?;
    bytes.extend_from_slice(&ends)?;
    put_sets(&mut bytes, sets)?;
    Ok(bytes)
}

/// The bytes of a column of sets, of borrowed cells.
pub(crate) fn encode_sets(alloc: Global, cells: &[Option<LentValue>]) -> Result<Vec<u8>, AllocError>
    requires some { 0 < length cells.now }
    requires few { length cells.now ≤ 65536 }
    requires kind { AreOfKind kinds.Sets (each_value cells.now) }
    ensures cells { IfOk result (λ bytes. HasCells bytes.items (length cells.now) (each_value cells.now)) }
    ensures kind { IfOk result (λ bytes. kind_in bytes.items ≡ kinds.Sets) }
{
    let mut texts = TextSet::new(alloc);
    let mut sets = SetNumbers::new(alloc);
    let codes = cell_codes(alloc, cells, &mut texts, &mut sets)?;
    let extra = set_dictionary_bytes(alloc, texts.as_slice(), sets.as_slice())?;
    let present = present_in(alloc, cells)?;
    write(alloc, Form::Sets, &present, &codes, &extra)
}
