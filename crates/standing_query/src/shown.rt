// The row that the keys of a spread's group stand for.
ghost use Rattle.std.specs.Prelude.{◌≡◌, IfOk, ◌++◌};
ghost use Rattle.standing_query.specs.Spread.{cell_under, cells_in, cells_shown, row_shown, time_in, time_shown, value_shown};

use leaf_model::{Cell, Cells, Key, Row, Text, Value};
use std::alloc::{AllocError, Global};

fn time_shown(key: &Key) -> i64
    ensures { result ≡ time_shown key.now }
{
    match key {
        Key::Missing => 0,
        Key::Int(time) => *time,
        Key::Text(_text) => 0,
        Key::Set(_members) => 0,
    }
}

/// The time of a group's rows: the first of its keys.
pub fn time_in(keys: &[Key]) -> i64
    ensures { result ≡ time_in keys.now }
{
    match keys.first() {
        None => 0,
        Some(key) => time_shown(key),
    }
}

fn value_shown(key: &Key) -> Result<Option<Value>, AllocError>
    ensures { IfOk result (λ value. value ≡ value_shown key.now) }
{
    match key {
        Key::Missing => Ok(None),
        Key::Int(number) => Ok(Some(Value::Int(*number))),
        Key::Text(text) => Ok(Some(Value::Text(text.copy()?))),
        Key::Set(members) => Ok(Some(Value::Set(members.copy()?))),
    }
}

/// Appends a cell, unless the key is missing.
fn with_cell(mut cells: Vec<Cell>, name: &Text, key: &Key) -> Result<Vec<Cell>, AllocError>
    ensures { IfOk result (λ more. more.items ≡ cells.items ++ cell_under name.now (value_shown key.now)) }
{
    match value_shown(key)? {
        None => Ok(cells),
        Some(value) => {
            let name = name.copy()?;
            cells.push(Cell { name, value })?;
            Ok(cells)
        }
    }
}

fn cells_shown(alloc: Global, names: &[Text], keys: &[Key]) -> Result<Vec<Cell>, AllocError>
    ensures { IfOk result (λ cells. cells.items ≡ cells_shown names.now keys.now) }
{
    let mut cells: Vec<Cell> = Vec::new(alloc);
    let mut i: usize = 0;
    while i < names.len() && i < keys.len() {
        cells = with_cell(cells, &names[i], &keys[i])?;
        i += 1;
    }
    Ok(cells)
}

/// The cells of these names, by the keys after the time.
fn cells_in(alloc: Global, names: &[Text], keys: &[Key]) -> Result<Vec<Cell>, AllocError>
    ensures { IfOk result (λ cells. cells.items ≡ cells_in names.now keys.now) }
{
    match keys.split_first() {
        None => Ok(Vec::new(alloc)),
        Some((_time, others)) => Ok(cells_shown(alloc, names, others)?),
    }
}

pub fn row_shown(alloc: Global, names: &[Text], keys: &[Key]) -> Result<Row, AllocError>
    ensures { IfOk result (λ row. row ≡ row_shown names.now keys.now) }
{
    Ok(Row {
        time: time_in(keys),
        cells: Cells::of(cells_in(alloc, names, keys)?),
    })
}
