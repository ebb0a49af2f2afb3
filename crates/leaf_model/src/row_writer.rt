// Appends rows to bytes.
ghost use Rattle.std.specs.Prelude.{◌≡◌, ◌≤◌, ◌++◌, length, OnOk, OnErr};
ghost use Rattle.std.specs.List.{flat_map, AllByRecursion};
ghost use Rattle.row_model.specs.Values.{IsSet, IsValue, IsCell, IsRow};
ghost use Rattle.leaf_model.specs.Bytes.{name_bytes, text_bytes, value_bytes, cell_bytes, row_bytes, i64_bytes, u16_bytes, BeginsWith};
ghost use Rattle.leaf_model.specs.Lent.{lent_cell, lent_cells, lent_row, lent_texts, lent_value};

use crate::lent_cells::{LentCell, LentCells, LentValue};
use crate::lent_rows::LentRow;
use crate::lent_texts::LentTexts;
use std::alloc::AllocError;

/// Appends the row's bytes. After Err the bytes begin with what was there.
pub(crate) fn put_row(out: &mut Vec<u8>, row: &LentRow) -> Result<(), AllocError>
    requires { IsRow (lent_row row.now) }
    ensures put { OnOk result (out.new.items ≡ out.old.items ++ row_bytes (lent_row row.now)) }
    ensures begins { OnErr result (BeginsWith out.old.items out.new.items) }
{
    put_head(out, row.time, row.cells.len() as u16)?;
    put_cells(out, &row.cells)
}

/// Appends a length byte and the name. After Err the bytes begin with what was there.
pub fn put_name(out: &mut Vec<u8>, name: &str) -> Result<(), AllocError>
    requires { length name.now ≤ 255 }
    ensures put { OnOk result (out.new.items ≡ out.old.items ++ name_bytes name.now) }
    ensures begins { OnErr result (BeginsWith out.old.items out.new.items) }
{
    out.push(name.len() as u8)?;
    out.extend_from_slice(name.as_bytes())
}

fn put_head(out: &mut Vec<u8>, time: i64, cells: u16) -> Result<(), AllocError>
    ensures put { OnOk result (out.new.items ≡ out.old.items ++ (i64_bytes time ++ u16_bytes cells)) }
    ensures begins { OnErr result (BeginsWith out.old.items out.new.items) }
{
    out.extend_from_slice(&time.to_le_bytes())?;
    out.extend_from_slice(&cells.to_le_bytes())
}

fn put_cells(out: &mut Vec<u8>, cells: &LentCells) -> Result<(), AllocError>
    requires { AllByRecursion IsCell (lent_cells cells.now) }
    ensures put { OnOk result (out.new.items ≡ out.old.items ++ flat_map cell_bytes (lent_cells cells.now)) }
    ensures begins { OnErr result (BeginsWith out.old.items out.new.items) }
{
    let mut left = *cells;
    while let Some((first, others)) = left.split_first() {
        put_cell(out, &first)?;
        left = others;
    }
    Ok(())
}

fn put_cell(out: &mut Vec<u8>, cell: &LentCell) -> Result<(), AllocError>
    requires { IsCell (lent_cell cell.now) }
    ensures put { OnOk result (out.new.items ≡ out.old.items ++ cell_bytes (lent_cell cell.now)) }
    ensures begins { OnErr result (BeginsWith out.old.items out.new.items) }
{
    put_name(out, cell.name)?;
    put_value(out, &cell.value)
}

fn put_value(out: &mut Vec<u8>, value: &LentValue) -> Result<(), AllocError>
    requires { IsValue (lent_value value.now) }
    ensures put { OnOk result (out.new.items ≡ out.old.items ++ value_bytes (lent_value value.now)) }
    ensures begins { OnErr result (BeginsWith out.old.items out.new.items) }
{
    match value {
        LentValue::Int(number) => {
            out.push(1)?;
            out.extend_from_slice(&number.to_le_bytes())
        }
        LentValue::Text(text) => {
            out.push(2)?;
            put_text(out, text)
        }
        LentValue::Set(members) => {
            out.push(3)?;
            put_set(out, members)
        }
    }
}

fn put_text(out: &mut Vec<u8>, text: &str) -> Result<(), AllocError>
    requires { length text.now ≤ 65535 }
    ensures put { OnOk result (out.new.items ≡ out.old.items ++ text_bytes text.now) }
    ensures begins { OnErr result (BeginsWith out.old.items out.new.items) }
{
    out.extend_from_slice(&(text.len() as u16).to_le_bytes())?;
    out.extend_from_slice(text.as_bytes())
}

#[tactic(auto, using(crate::proofs::TextSets::each_short))]
fn put_set(out: &mut Vec<u8>, members: &LentTexts) -> Result<(), AllocError>
    requires { IsSet (lent_texts members.now) }
    ensures put { OnOk result (out.new.items ≡ out.old.items
        ++ (u16_bytes (length (lent_texts members.now)) ++ flat_map text_bytes (lent_texts members.now))) }
    ensures begins { OnErr result (BeginsWith out.old.items out.new.items) }
{
    out.extend_from_slice(&(members.len() as u16).to_le_bytes())?;
    put_texts(out, members)
}

fn put_texts(out: &mut Vec<u8>, texts: &LentTexts) -> Result<(), AllocError>
    requires { AllByRecursion (λ text. length text ≤ 65535) (lent_texts texts.now) }
    ensures put { OnOk result (out.new.items ≡ out.old.items ++ flat_map text_bytes (lent_texts texts.now)) }
    ensures begins { OnErr result (BeginsWith out.old.items out.new.items) }
{
    let mut left = *texts;
    while let Some((first, others)) = left.split_first() {
        put_text(out, first)?;
        left = others;
    }
    Ok(())
}
