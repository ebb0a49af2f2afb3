// Reads a row whose members all are valid as they come. Its cells are built at once.
ghost use Rattle.std.specs.Prelude.{◌≡◌, ◌≤ℤ◌, pos, length, Some, Ok, IfSome, IsTrue};
ghost use Rattle.std.specs.List.{AllByRecursion};
ghost use Rattle.json.specs.Json.{members, value};
ghost use Rattle.json.specs.Reads.{token_of};
ghost use Rattle.serde_json.specs.Data.{Data, Members, no_members, object, put};
ghost use Rattle.serde_json.specs.Read.{converted, of_members, read};
ghost use Rattle.row_model.specs.Values.{IsCell, IsCellName, IsRow, IsTime, IsValue};
ghost use Rattle.row_json.specs.Row.{row_of};
ghost use Rattle.row_json.specs.Quick.{Knows, data_of};
ghost use Rattle.row_json.specs.QuickRow.{Ascend, IsMadeOf, IsPlace, MeansValue, Puts};

use crate::quick::{RowRoom, integer, time_in};
use json::{Reader, Scratch, Token};
use row_model::{Cell, Cells, MAX_CELLS, MAX_NAME, MAX_TEXT, Row, Text, Value};
use std::alloc::Global;
use std::cmp::Ordering;

/// The most cells that an insert moves. So the time of a row grows only linearly with its cells.
const MAX_STEPS: usize = 64;

/// Whether a cell may have the name.
fn is_cell_name(name: &str) -> bool
    ensures { IsTrue result → IsCellName name.now }
{
    name != "time" && !name.is_empty() && name.len() <= MAX_NAME
}

/// A copy of the text. None if memory runs out.
fn own(alloc: Global, text: &str) -> Option<Text>
    ensures { IfSome result (λ copy. copy ≡ text.now) }
{
    match String::from_str(alloc, text) {
        Ok(text) => Some(Text::of(text)),
        Err(_) => None,
    }
}

/// The value of a token; Some(None) for a null. None if a cell cannot hold it, or memory ran out.
fn value_in(alloc: Global, token: Token<'_>) -> Option<Option<Value>>
    ensures exact { IfSome result (λ found. (d : Data) × (data_of (token_of token.entry) ≡ Some d)
        × MeansValue d found) }
    ensures is_value { IfSome result (λ found. IfSome found IsValue) }
{
    match token {
        Token::Number(text) => {
            let number = integer(text)?;
            Some(Some(Value::Int(number)))
        }
        Token::String(text) => {
            if text.len() > MAX_TEXT {
                return None;
            }
            let text = own(alloc, text)?;
            Some(Some(Value::Text(text)))
        }
        Token::Null => Some(None),
        _ => None,
    }
}

/// The place for a cell of this name. None if it is far from the end, or a cell has the name.
fn place_of(cells: &[Cell], name: &str) -> Option<usize>
    requires { Ascend cells.now }
    ensures { IfSome result (λ place. IsPlace cells.now name.now place) }
{
    let least = cells.len().saturating_sub(MAX_STEPS);
    let mut place = cells.len();
    while place > least {
        match name.cmp(cells[place - 1].name.as_str()) {
            Ordering::Greater => return Some(place),
            Ordering::Equal => return None,
            Ordering::Less => place -= 1,
        }
    }
    if place == 0 { Some(place) } else { None }
}

/// Inserts a cell at its place, if there is a value. None if it has no place, or memory ran out.
fn put_cell(alloc: Global, cells: &mut Vec<Cell>, name: &str, value: Option<Value>) -> Option<()>
    requires name { IsCellName name.now }
    requires value { IfSome value IsValue }
    requires ordered { Ascend cells.old.items }
    requires cells { AllByRecursion IsCell cells.old.items }
    ensures puts { IfSome result (λ _. (d : Data) → MeansValue d value
        → Puts name.now d cells.old.items cells.new.items) }
    ensures are_cells { IfSome result (λ _. AllByRecursion IsCell cells.new.items) }
{
    let place = place_of(cells.as_slice(), name)?;
    let Some(value) = value else {
        return Some(());
    };
    let name = own(alloc, name)?;
    if cells.insert(place, Cell { name, value }).is_err() {
        return None;
    }
    Some(())
}

/// The known time after one more member, whose cell is inserted. None if the member is not valid.
fn put_member(
    alloc: Global,
    time: Option<i64>,
    cells: &mut Vec<Cell>,
    name: &str,
    token: Token<'_>,
) -> Option<Option<i64>>
    requires ordered { Ascend cells.old.items }
    requires cells { AllByRecursion IsCell cells.old.items }
    ensures exact { IfSome result (λ now. (d : Data) × (data_of (token_of token.entry) ≡ Some d) × ((old : Members)
        → Knows time old → Knows now (put name.now d old)) × Puts name.now d cells.old.items cells.new.items) }
    ensures are_cells { IfSome result (λ _. AllByRecursion IsCell cells.new.items) }
{
    if name == "time" {
        let now = time_in(token)?;
        return Some(Some(now));
    }
    if !is_cell_name(name) {
        return None;
    }
    let value = value_in(alloc, token)?;
    put_cell(alloc, cells, name, value)?;
    Some(time)
}

/// The row of this time and these cells, which give their spare room back.
fn row_with(time: Option<i64>, mut cells: Vec<Cell>) -> Option<Row>
    requires { IfSome time (λ t. pos 0 ≤ℤ t) }
    ensures exact { IfSome result (λ row. (time ≡ Some row.time) × (row.cells ≡ cells.items)) }
    ensures is_time { IfSome result (λ row. IsTime row.time) }
{
    let time = time?;
    cells.shrink_to_fit();
    Some(Row {
        time,
        cells: Cells::of(cells),
    })
}

/// Reads the members up to the closing brace as a row. Room for `room` cells is taken first.
fn members_row(alloc: Global, reader: &mut Reader<'_>, room: usize) -> Option<Row>
    ensures exact { IfSome result (λ row. (all : Members) × (converted (λ ms. of_members ms no_members)
        (members (value 126) (length reader.old) reader.old) ≡ Some (all, reader.new)) × IsMadeOf all row) }
    ensures is_row { IfSome result IsRow }
{
    let Ok(mut cells) = Vec::with_capacity(alloc, room) else {
        return None;
    };
    let mut time = None;
    'members: while cells.len() <= MAX_CELLS {
        let Ok(found) = reader.next_key() else {
            return None;
        };
        let Some(name) = found else {
            return row_with(time, cells);
        };
        let token = reader.next()?;
        time = put_member(alloc, time, &mut cells, name, token)?;
    }
    None
}

/// The row that a JSON text means. None says nothing of the text.
fn text_row(alloc: Global, text: &str, scratch: &mut Scratch, room: usize) -> Option<Row>
    ensures exact { IfSome result (λ row. (all : Members) × (read text.now ≡ Some (object all)) × IsMadeOf all row) }
    ensures is_row { IfSome result IsRow }
{
    let Ok(mut reader) = Reader::new(text, scratch) else {
        return None;
    };
    let Some(Token::BeginObject) = reader.next() else {
        return None;
    };
    let row = members_row(alloc, &mut reader, room)?;
    if reader.next().is_some() {
        return None;
    }
    Some(row)
}

/// The row that a text means, if each member is valid as it comes. None says nothing of the text.
pub fn quick_row(alloc: Global, room: &mut RowRoom, text: &[u8]) -> Option<Row>
    ensures exact { IfSome result (λ row. row_of text.now ≡ Ok row) }
    ensures is_row { IfSome result IsRow }
{
    let Ok(text) = simdutf8::basic::from_utf8(text) else {
        return None;
    };
    let row = text_row(alloc, text, &mut room.scratch, room.cells)?;
    room.cells = row.cells.as_slice().len();
    Some(row)
}
