// Borrowed cells, either as values or as bytes.
ghost use Rattle.std.specs.Prelude.{◌≡◌, ℕ, List, length, IfOk, IsSome, Some};
ghost use Rattle.leaf_model.specs.Reading.{set_at, value_at};
ghost use Rattle.leaf_model.specs.Fronts.{any_cell_at, any_cells_at, front_of};
ghost use Rattle.leaf_model.specs.Lent.{cells_before, cells_parted, lent_cell, lent_cells, lent_texts, lent_value, spelled_cells};

use crate::fronts::{SpelledCells, SpelledTexts};
use crate::lent_texts::LentTexts;
use crate::spelled::{behind_texts, long_text_in, name_in, u16_in, u64_in};
use row_model::{Cell, Cells, Text, Value};
use std::alloc::{AllocError, Global};

/// A borrowed value.
#[derive(Clone, Copy)]
pub enum LentValue<'a> {
    Int(i64),
    Text(&'a str),
    Set(LentTexts<'a>),
}

impl<'a> LentValue<'a> {
    pub fn of(value: &'a Value) -> LentValue<'a>
        ensures { lent_value result ≡ value.now }
    {
        match value {
            Value::Int(number) => LentValue::Int(*number),
            Value::Text(text) => LentValue::Text(text.as_str()),
            Value::Set(members) => LentValue::Set(LentTexts::of(members)),
        }
    }

    /// An owned copy. Err if memory runs out.
    pub fn own(&self, alloc: Global) -> Result<Value, AllocError>
        ensures { IfOk result (λ value. value ≡ lent_value self.now) }
    {
        match self {
            LentValue::Int(number) => Ok(Value::Int(*number)),
            LentValue::Text(text) => Ok(Value::Text(Text::of(String::from_str(alloc, text)?))),
            LentValue::Set(members) => Ok(Value::Set(members.own(alloc)?)),
        }
    }
}

/// A borrowed cell.
#[derive(Clone, Copy)]
pub struct LentCell<'a> {
    pub name: &'a str,
    pub value: LentValue<'a>,
}

impl<'a> LentCell<'a> {
    pub fn of(cell: &'a Cell) -> LentCell<'a>
        ensures { lent_cell result ≡ cell.now }
    {
        LentCell {
            name: cell.name.as_str(),
            value: LentValue::of(&cell.value),
        }
    }

    /// An owned copy. Err if memory runs out.
    pub fn own(&self, alloc: Global) -> Result<Cell, AllocError>
        ensures { IfOk result (λ cell. cell ≡ lent_cell self.now) }
    {
        Ok(Cell {
            name: Text::of(String::from_str(alloc, self.name)?),
            value: self.value.own(alloc)?,
        })
    }
}

/// Reads the texts of a set, after their number. Gives them and the bytes that follow.
#[tactic(auto, unfolding(crate::specs::Reading::set_at))]
pub(crate) fn set_in(bytes: &[u8]) -> (LentTexts<'_>, &[u8])
    requires { IsSome (set_at bytes.now) }
    ensures { set_at bytes.now ≡ Some (lent_texts result.0, result.1.now) }
{
    let (count, rest) = u16_in(bytes);
    let members = LentTexts::Spelled(SpelledTexts::of(rest, count));
    (members, behind_texts(count, rest))
}

/// Reads the value at the start of the bytes. Gives it and the bytes that follow.
#[tactic(auto, unfolding(crate::specs::Reading::value_at))]
pub(crate) fn value_in(bytes: &[u8]) -> (LentValue<'_>, &[u8])
    requires { IsSome (value_at bytes.now) }
    ensures { value_at bytes.now ≡ Some (lent_value result.0, result.1.now) }
{
    match bytes {
        [1, rest @ ..] => {
            let (number, rest) = u64_in(rest);
            (LentValue::Int(number.cast_signed()), rest)
        }
        [2, rest @ ..] => {
            let (text, rest) = long_text_in(rest);
            (LentValue::Text(text), rest)
        }
        [3, rest @ ..] => {
            let (members, rest) = set_in(rest);
            (LentValue::Set(members), rest)
        }
        _ => unreachable!(),
    }
}

/// Reads the cell at the start of the bytes. Gives it and the bytes that follow.
#[tactic(auto, unfolding(crate::specs::Fronts::any_cell_at))]
fn cell_in(bytes: &[u8]) -> (LentCell<'_>, &[u8])
    requires { IsSome (any_cell_at bytes.now) }
    ensures { any_cell_at bytes.now ≡ Some (lent_cell result.0, result.1.now) }
{
    let (name, rest) = name_in(bytes);
    let (value, rest) = value_in(rest);
    (LentCell { name, value }, rest)
}

/// The bytes that follow the first `count` cells.
pub(crate) fn behind_cells(count: u16, bytes: &[u8]) -> &[u8]
    requires { IsSome (any_cells_at count bytes.now) }
    ensures { any_cells_at count bytes.now ≡ Some (front_of (any_cells_at count bytes.now), result.now) }
{
    let mut rest = bytes;
    for _ in 0..count {
        let (_cell, after) = cell_in(rest);
        rest = after;
    }
    rest
}

impl<'a> SpelledCells<'a> {
    pub(crate) fn of(bytes: &'a [u8], count: u16) -> SpelledCells<'a>
        requires { IsSome (any_cells_at count bytes.now) }
        ensures { spelled_cells result ≡ front_of (any_cells_at count bytes.now) }
    {
        SpelledCells { bytes, count }
    }

    fn len(&self) -> usize
        ensures { result ≡ length (spelled_cells self.now) }
    {
        self.count as usize
    }

    fn split_first(&self) -> Option<(LentCell<'a>, SpelledCells<'a>)>
        ensures { cells_before result ≡ spelled_cells self.now }
    {
        if self.count == 0 {
            return None;
        }
        let (first, bytes) = cell_in(self.bytes);
        let count = self.count - 1;
        Some((first, SpelledCells { bytes, count }))
    }
}

/// The borrowed cells of a row: a slice of values, or the bytes that spell them.
#[derive(Clone, Copy)]
pub enum LentCells<'a> {
    Owned(&'a [Cell]),
    Spelled(SpelledCells<'a>),
}

impl<'a> LentCells<'a> {
    /// The number of cells.
    pub fn len(&self) -> usize
        ensures { result ≡ length (lent_cells self.now) }
    {
        match self {
            LentCells::Owned(cells) => cells.len(),
            LentCells::Spelled(cells) => cells.len(),
        }
    }

    /// The first cell and the others. None if there is no cell.
    pub fn split_first(&self) -> Option<(LentCell<'a>, LentCells<'a>)>
        ensures { cells_parted result ≡ lent_cells self.now }
    {
        match self {
            LentCells::Owned([]) => None,
            LentCells::Owned([first, others @ ..]) => {
                Some((LentCell::of(first), LentCells::Owned(others)))
            }
            LentCells::Spelled(cells) => {
                let (first, others) = cells.split_first()?;
                Some((first, LentCells::Spelled(others)))
            }
        }
    }

    /// An owned copy. Err if memory runs out.
    pub fn own(&self, alloc: Global) -> Result<Cells, AllocError>
        ensures { IfOk result (λ cells. cells ≡ lent_cells self.now) }
    {
        let mut cells = Vec::with_capacity(alloc, self.len())?;
        let mut left = *self;
        while let Some((first, others)) = left.split_first() {
            cells.push(first.own(alloc)?)?;
            left = others;
        }
        Ok(Cells::of(cells))
    }
}
