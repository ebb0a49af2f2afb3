// Owned values and cells, copied from what a column lends.
ghost use Rattle.std.specs.Prelude.{◌≡◌, ◌<◌, ◌++◌, length, IfOk};
ghost use Rattle.column_bytes.specs.Cells.{cell_at, value_lent};
ghost use Rattle.row_blocks.specs.Blocks.{cell_at_place};

use column_bytes::{ColumnView, SetRef, ValueRef};
use leaf_model::{Cell, Text, Texts, Value};
use std::alloc::{AllocError, Global};

fn own_texts(alloc: Global, members: &SetRef) -> Result<Texts, AllocError>
    ensures { IfOk result (λ own. own ≡ members.now) }
{
    let mut texts = Vec::with_capacity(alloc, members.len() as usize)?;
    for i in 0..members.len() {
        let text = String::from_str(alloc, members.text(i))?;
        texts.push(Text::of(text))?;
    }
    Ok(Texts::of(texts))
}

/// An owned copy of a value that a column lends.
pub fn own_value(alloc: Global, value: &ValueRef) -> Result<Value, AllocError>
    ensures { IfOk result (λ own. own ≡ value_lent value.now) }
{
    match value {
        ValueRef::Int(number) => Ok(Value::Int(*number)),
        ValueRef::Text(text) => {
            let own = String::from_str(alloc, text)?;
            Ok(Value::Text(Text::of(own)))
        }
        ValueRef::Set(members) => {
            let own = own_texts(alloc, members)?;
            Ok(Value::Set(own))
        }
    }
}

/// Appends the cell of a column at `place`, under `name`, if there is one.
pub fn push_cell(
    alloc: Global,
    name: &Text,
    view: &ColumnView,
    place: u32,
    cells: &mut Vec<Cell>,
) -> Result<(), AllocError>
    requires { place < length view.now.codes }
    ensures { IfOk result (λ done. cells.new.items ≡ cells.old.items
        ++ cell_at_place name.now (cell_at view.now place)) }
{
    match view.cell(place) {
        None => Ok(()),
        Some(value) => {
            let value = own_value(alloc, &value)?;
            let name = name.copy()?;
            cells.push(Cell { name, value })?;
            Ok(())
        }
    }
}
