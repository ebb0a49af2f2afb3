// Codes texts: each distinct text once, in the order of its first occurrence, and a code for each cell.
ghost use Rattle.std.specs.Prelude.{◌≡◌, ℕ, ◌+◌, ◌*◌, ◌<◌, ◌≤◌, ◌^◌, ◌++◌, [], length, take, slice_index_or, IfOk, IfSome, OnOk, Some, option_map, List, Option, map, is_some};
ghost use Rattle.std.specs.List.{All};
ghost use Rattle.leaf_model.specs.Lent.{each_value, lent_value};
ghost use Rattle.row_model.specs.declared.rows.Value.{Value};
ghost use Rattle.row_model.specs.declared.rows.Value.TheVariants as values;
ghost use Rattle.column_bytes.specs.declared.kind.Kind.TheVariants as kinds;
ghost use Rattle.dictionaries.specs.Fields.{u32_at};
ghost use Rattle.column_bytes.specs.Cells.{Entries};
ghost use Rattle.column_bytes.specs.Column.{HasCells, kind_in};
ghost use Rattle.dictionaries.specs.Dictionary.{AreKept, AreTexts, IsDictionary, distinct, lent, texts_at, texts_by};
ghost use Rattle.column_bytes.specs.Coding.{IsOfKind, AreOfKind, IsCoding, end_at, joined};

use crate::form::Form;
use crate::text_set::TextSet;
use crate::writer::{present_in, put_u32, write};
use delta_codes::Codes;
use leaf_model::{LentValue, Text, Texts};
use std::alloc::{AllocError, Global};

/// The distinct texts of a list, and a code for each of its elements.
#[derive(Drop)]
pub struct Dict {
    pub texts: Texts,
    pub codes: Codes,
}

fn own_texts(alloc: Global, texts: &[&str]) -> Result<Vec<Text>, AllocError>
    ensures { IfOk result (λ own. own.items ≡ lent texts.now) }
{
    let mut own = Vec::with_capacity(alloc, texts.len())?;
    for text in texts {
        own.push(Text::of(String::from_str(alloc, text)?))?;
    }
    Ok(own)
}

fn codes_of<'a>(
    alloc: Global,
    values: &'a [Text],
    set: &mut TextSet<'a>,
) -> Result<Vec<u64>, AllocError>
    requires { set.old ≡ [] }
    ensures texts { OnOk result (set.new ≡ distinct values.now) }
    ensures codes { IfOk result (λ codes. texts_by set.new codes.items ≡ values.now) }
    ensures below { IfOk result (λ codes. All (λ code. code < length set.new) codes.items) }
{
    let mut codes = Vec::with_capacity(alloc, values.len())?;
    for value in values {
        codes.push(set.code_of(value.as_str())?)?;
    }
    Ok(codes)
}

/// The distinct texts in the order of their first occurrence, and a code for each element. Err if memory runs out.
pub fn dictionary(alloc: Global, values: &[Text]) -> Result<Dict, AllocError>
    ensures texts { IfOk result (λ dict. dict.texts ≡ distinct values.now) }
    ensures codes { IfOk result (λ dict. texts_by dict.texts dict.codes ≡ values.now) }
    ensures below { IfOk result (λ dict. All (λ code. code < length dict.texts) dict.codes) }
{
    let mut set = TextSet::new(alloc);
    let codes = codes_of(alloc, values, &mut set)?;
    let texts = own_texts(alloc, set.as_slice())?;
    Ok(Dict {
        texts: Texts::of(texts),
        codes: Codes::of(codes),
    })
}

fn value_code<'a>(set: &mut TextSet<'a>, value: &LentValue<'a>) -> Result<u64, AllocError>
    requires { IsOfKind kinds.Texts (lent_value value.now) }
    ensures below { IfOk result (λ code. code < length set.new) }
    ensures code { IfOk result (λ code. lent_value value.now ≡ values.Text (slice_index_or set.new code [])) }
    ensures kept { OnOk result (AreKept set.old set.new) }
    ensures texts { OnOk result (AreTexts set.old → AreTexts set.new) }
    ensures grows { OnOk result (length set.new ≤ length set.old + 1) }
{
    match value {
        LentValue::Text(text) => {
            let code = set.code_of(text)?;
            Ok(code)
        }
        LentValue::Int(_) | LentValue::Set(_) => unreachable!(),
    }
}

/// The code of a cell's text; `before` if the cell is missing. A new text is appended to `set`.
pub fn code_or<'a>(
    set: &mut TextSet<'a>,
    cell: &Option<LentValue<'a>>,
    before: u64,
) -> Result<u64, AllocError>
    requires { IfSome (option_map lent_value cell.now) (IsOfKind kinds.Texts) }
    ensures code { IfOk result (λ code. (value : Value) → option_map lent_value cell.now ≡ Some value
        → (code < length set.new) × (value ≡ values.Text (slice_index_or set.new code []))) }
    ensures kept { OnOk result (AreKept set.old set.new) }
    ensures texts { OnOk result (AreTexts set.old → AreTexts set.new) }
    ensures grows { OnOk result (length set.new ≤ length set.old + 1) }
{
    match cell {
        Some(value) => {
            let code = value_code(set, value)?;
            Ok(code)
        }
        None => Ok(before),
    }
}

// A code for each cell. A missing one gets that of the cell before, so that no code becomes wider.
fn cell_codes<'a>(
    alloc: Global,
    cells: &[Option<LentValue<'a>>],
    set: &mut TextSet<'a>,
) -> Result<Vec<u64>, AllocError>
    requires none { set.old ≡ [] }
    requires kind { AreOfKind kinds.Texts (each_value cells.now) }
    ensures coding { IfOk result (λ codes. IsCoding (each_value cells.now) codes.items (Entries set.new)) }
    ensures texts { OnOk result (AreTexts set.new) }
    ensures few { OnOk result (length set.new ≤ length cells.now) }
{
    let mut last = 0;
    let mut codes = Vec::with_capacity(alloc, cells.len())?;
    for cell in cells {
        last = code_or(set, cell, last)?;
        codes.push(last)?;
    }
    Ok(codes)
}

// The number of texts, and for each text the number of bytes up to its end.
fn ends_of(alloc: Global, texts: &[&str]) -> Result<Vec<u8>, AllocError>
    requires few { length texts.now ≤ 67108864 }
    requires small { length (joined (lent texts.now)) < 4294967296 }
    ensures len { IfOk result (λ bytes. length bytes.items ≡ 4 + 4 * length texts.now) }
    ensures count { IfOk result (λ bytes. u32_at bytes.items 0 ≡ length texts.now) }
    ensures ends { IfOk result (λ bytes.
        (k : ℕ) → k < length texts.now → u32_at bytes.items (4 + 4 * k) ≡ end_at (lent texts.now) (k + 1)) }
{
    let mut bytes = Vec::with_capacity(alloc, 4 + 4 * texts.len())?;
    put_u32(&mut bytes, texts.len() as u32)?;
    let mut end = 0;
    for text in texts {
        end += text.len();
        put_u32(&mut bytes, end as u32)?;
    }
    Ok(bytes)
}

fn put_texts(out: &mut Vec<u8>, texts: &[&str]) -> Result<(), AllocError>
    ensures { OnOk result (out.new.items ≡ out.old.items ++ joined (lent texts.now)) }
{
    for text in texts {
        out.extend_from_slice(text.as_bytes())?;
    }
    Ok(())
}

// The bytes of a dictionary of texts.
pub(crate) fn dictionary_bytes(alloc: Global, texts: &[&str]) -> Result<Vec<u8>, AllocError>
    requires few { length texts.now ≤ 67108864 }
    requires small { length (joined (lent texts.now)) < 4294967296 }
    requires texts { AreTexts (lent texts.now) }
    ensures dictionary { IfOk result (λ bytes. IsDictionary bytes.items) }
    ensures same { IfOk result (λ bytes. texts_at bytes.items ≡ lent texts.now) }
    ensures small { IfOk result (λ bytes. length bytes.items ≤ 2 ^ 33) }
{
    let mut bytes = ends_of(alloc, texts)?;
    put_texts(&mut bytes, texts)?;
    Ok(bytes)
}

/// The bytes of a column of texts: a code for each cell, and any for a missing one.
pub(crate) fn text_column(
    alloc: Global,
    set: &TextSet,
    codes: &[u64],
    present: &[bool],
) -> Result<Vec<u8>, AllocError>
    requires some { 0 < length codes.now }
    requires few { length codes.now ≤ 65536 }
    requires same { length present.now ≡ length codes.now }
    requires texts { AreTexts set.now }
    requires each { length set.now ≤ length codes.now }
    ensures cells { (cells : List (Option Value))
        → map is_some cells ≡ present.now → IsCoding cells codes.now (Entries set.now)
        → IfOk result (λ bytes. HasCells bytes.items (length present.now) cells) }
    ensures kind { IfOk result (λ bytes. kind_in bytes.items ≡ kinds.Texts) }
{
    let extra = dictionary_bytes(alloc, set.as_slice())?;
    write(alloc, Form::Dictionary, present, codes, &extra)
}

/// The bytes of a column of texts, of borrowed cells.
pub(crate) fn encode_texts(
    alloc: Global,
    cells: &[Option<LentValue>],
) -> Result<Vec<u8>, AllocError>
    requires some { 0 < length cells.now }
    requires few { length cells.now ≤ 65536 }
    requires kind { AreOfKind kinds.Texts (each_value cells.now) }
    ensures cells { IfOk result (λ bytes. HasCells bytes.items (length cells.now) (each_value cells.now)) }
    ensures kind { IfOk result (λ bytes. kind_in bytes.items ≡ kinds.Texts) }
{
    let mut set = TextSet::new(alloc);
    let codes = cell_codes(alloc, cells, &mut set)?;
    let present = present_in(alloc, cells)?;
    text_column(alloc, &set, &codes, &present)
}
