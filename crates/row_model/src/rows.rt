// Rows: a time, and cells ascending by name.
ghost use Rattle.std.specs.Prelude.{◌≡◌, IfOk};

use crate::text::{Text, Texts};
use std::alloc::AllocError;
use std::marker::Model;

/// The value of a cell.
#[derive(Drop)]
pub enum Value {
    Int(i64),
    Text(Text),
    /// Texts, strictly ascending by bytes.
    Set(Texts),
}

impl Value {
    pub fn copy(&self) -> Result<Value, AllocError>
        ensures { IfOk result (λ copy. copy ≡ self.now) }
    {
        match self {
            Value::Int(number) => Ok(Value::Int(*number)),
            Value::Text(text) => Ok(Value::Text(text.copy()?)),
            Value::Set(members) => Ok(Value::Set(members.copy()?)),
        }
    }
}

/// A named value of a row. No cell is named `time`.
#[derive(Drop)]
pub struct Cell {
    pub name: Text,
    pub value: Value,
}

impl Cell {
    pub fn copy(&self) -> Result<Cell, AllocError>
        ensures { IfOk result (λ copy. copy ≡ self.now) }
    {
        Ok(Cell {
            name: self.name.copy()?,
            value: self.value.copy()?,
        })
    }
}

/// The cells of a row. Contracts see them as the list.
#[derive(Drop)]
pub struct Cells {
    inner: Vec<Cell>,
}

impl Model for Cells {
    ghost use Rattle.std.specs.Prelude.{List};
    ghost use Rattle.row_model.specs.declared.rows.Cell.{Cell};

    ghost Value = { List Cell };

    ghost view = { λ list. list.inner.items };
}

impl Cells {
    pub fn of(inner: Vec<Cell>) -> Cells
        ensures { result ≡ inner.items }
    {
        Cells { inner }
    }

    pub fn as_slice(&self) -> &[Cell]
        ensures { result.now ≡ self.now }
    {
        self.inner.as_slice()
    }

    pub fn into_inner(self) -> Vec<Cell>
        ensures { result.items ≡ self }
    {
        self.inner
    }

    pub fn copy(&self) -> Result<Cells, AllocError>
        ensures { IfOk result (λ copy. copy ≡ self.now) }
    {
        let mut inner: Vec<Cell> = Vec::new(*self.inner.allocator());
        for item in self.inner.as_slice() {
            inner.push(item.copy()?)?;
        }
        Ok(Cells { inner })
    }
}

/// A time from 0 to 2^63 - 1, and at most 1,024 cells with strictly ascending names.
#[derive(Drop)]
pub struct Row {
    pub time: i64,
    pub cells: Cells,
}

impl Row {
    pub fn copy(&self) -> Result<Row, AllocError>
        ensures { IfOk result (λ copy. copy ≡ self.now) }
    {
        Ok(Row {
            time: self.time,
            cells: self.cells.copy()?,
        })
    }
}
