// Reads a row from its JSON text.
ghost use Rattle.std.specs.Prelude.{◌≡◌, ◌≢◌, ◌↔◌, ◌≤ℤ◌, ℕ, List, [], nat_lt, Ok, Err, IfOk, IfErr, IfSome, option_map, pos, string_bytes, string_cmp};
ghost use Rattle.std.specs.List.{AllByRecursion};
ghost use Rattle.std.specs.List.Sorted.{IsStrictlySortedBy};
ghost use Rattle.std.specs.Map.{keys_of};
ghost use Rattle.serde_json.specs.View.{view, members_view};
ghost use Rattle.row_model.specs.declared.rows.Value.TheVariants.{Int};
ghost use Rattle.row_model.specs.Values.{IsCell, IsRow, IsValue};
ghost use Rattle.row_json.specs.Meaning.{IsThisRow, Refuses};
ghost use Rattle.row_json.specs.Row.{row_of, row_of_data, row_of_members, time_of, cell_count, cells_of, cell_of, value_of, text_of, items_of};

use crate::sets::set_in;
use row_model::{Cell, Cells, MAX_CELLS, MAX_NAME, MAX_TEXT, Row, RowFault, Text, Value};
use std::alloc::Global;
use std::collections::BTreeMap;

type ObjectMembers = BTreeMap<String, serde_json::Value>;

/// Reads a text of JSON as a row, or gives its first fault. The order is `Json`, `NotObject`, `NoTime`, `TooMany`, and
/// then `Name` or `Value` of the first member at fault by name. `NoMemory` may come at any point.
pub fn row(alloc: Global, text: &[u8]) -> Result<Row, RowFault>
    ensures exact { result ≢ Err RowFault.NoMemory → result ≡ row_of text.now }
    ensures is_row { IfOk result IsRow }
{
    match serde_json::Value::from_slice(alloc, text) {
        Ok(value) => row_of_value(alloc, value),
        Err(error) => {
            if error.is_memory() {
                Err(RowFault::NoMemory)
            } else {
                Err(RowFault::Json)
            }
        }
    }
}

/// No-op; states which texts are rows, and what each fault means, by the members of the text's object.
#[tactic(auto, using(crate::proofs::Meaning::rows_meaning, crate::proofs::Meaning::faults_meaning))]
pub fn row_meaning()
    ensures rows { (text : List ℕ) → (row : Row) → row_of text ≡ Ok row → IsThisRow text row }
    ensures faults { (text : List ℕ) → (fault : RowFault) → (row_of text ≡ Err fault) ↔ Refuses text fault }
{}

fn row_of_value(alloc: Global, value: serde_json::Value) -> Result<Row, RowFault>
    ensures exact { result ≢ Err RowFault.NoMemory → result ≡ row_of_data (view value) }
    ensures is_row { IfOk result IsRow }
{
    let time = time_of(&value);
    match value {
        serde_json::Value::Object(members) => row_of_members(alloc, time, members),
        serde_json::Value::Null => Err(RowFault::NotObject),
        serde_json::Value::Bool(_is) => Err(RowFault::NotObject),
        serde_json::Value::Number(_number) => Err(RowFault::NotObject),
        serde_json::Value::String(_text) => Err(RowFault::NotObject),
        serde_json::Value::Array(_items) => Err(RowFault::NotObject),
    }
}

fn row_of_members(alloc: Global, time: Option<i64>, members: ObjectMembers) -> Result<Row, RowFault>
    requires { IfSome time (λ t. pos 0 ≤ℤ t) }
    ensures exact { result ≢ Err RowFault.NoMemory → result ≡ row_of_members time (members_view members.entries) }
    ensures is_row { IfOk result IsRow }
{
    let Some(time) = time else {
        return Err(RowFault::NoTime);
    };
    if has_too_many(&members) {
        return Err(RowFault::TooMany);
    }
    let cells = cells(alloc, members)?;
    Ok(Row {
        time,
        cells: Cells::of(cells),
    })
}

/// The time of an object. None if it has none, or a negative one.
fn time_of(value: &serde_json::Value) -> Option<i64>
    ensures exact { result ≡ time_of (view value.now) }
    ensures not_negative { IfSome result (λ t. pos 0 ≤ℤ t) }
{
    let time = value.get("time")?.as_i64()?;
    if time < 0 { None } else { Some(time) }
}

/// Whether the object has more cells than a row may have. Most objects have fewer members than that.
#[tactic(auto, using(crate::proofs::Few::cells_at_most))]
fn has_too_many(members: &ObjectMembers) -> bool
    ensures { result ≡ nat_lt 1024 (cell_count (members_view members.now.entries)) }
{
    members.len() > MAX_CELLS && cell_count(members) > MAX_CELLS
}

/// The number of members other than the time that are not null.
fn cell_count(members: &ObjectMembers) -> usize
    ensures { result ≡ cell_count (members_view members.now.entries) }
{
    let mut count = 0;
    for (name, value) in members {
        if name.as_str() != "time" && !value.is_null() {
            count += 1;
        }
    }
    count
}

/// The cells of an object, ascending by name, or the first fault.
#[tactic(auto, using(crate::proofs::Rows::before_append, crate::proofs::Order::are_cells_with))]
fn cells(alloc: Global, members: ObjectMembers) -> Result<Vec<Cell>, RowFault>
    ensures exact { result ≢ Err RowFault.NoMemory → items_of result ≡ cells_of (members_view members.entries) }
    ensures are_cells { IfOk result (λ cells. AllByRecursion IsCell cells.items) }
    ensures ordered { IsStrictlySortedBy string_cmp (keys_of members.entries) }
{
    let mut cells = room_for_cells(alloc, &members)?;
    for (name, value) in members {
        if let Some(cell) = cell_of(alloc, name, value)? {
            if cells.push(cell).is_err() {
                return Err(RowFault::NoMemory);
            }
        }
    }
    Ok(cells)
}

/// A list with room for a cell for each member other than the time. A row that is kept keeps this room.
fn room_for_cells(alloc: Global, members: &ObjectMembers) -> Result<Vec<Cell>, RowFault>
    ensures none { IfOk result (λ cells. cells.items ≡ []) }
    ensures refused { IfErr result (λ fault. fault ≡ RowFault.NoMemory) }
{
    match Vec::with_capacity(alloc, members.len().saturating_sub(1)) {
        Ok(cells) => Ok(cells),
        Err(_) => Err(RowFault::NoMemory),
    }
}

/// The cell of a member. None if it is the time or null.
fn cell_of(alloc: Global, name: String, value: serde_json::Value) -> Result<Option<Cell>, RowFault>
    ensures exact { result ≢ Err RowFault.NoMemory → result ≡ cell_of (string_bytes name) (view value) }
    ensures is_cell { IfOk result (λ found. IfSome found IsCell) }
{
    if name.as_str() == "time" {
        return Ok(None);
    }
    let name = Text::of(name);
    let length = name.as_str().len();
    if length == 0 || length > MAX_NAME {
        return Err(RowFault::Name(name));
    }
    if value.is_null() {
        return Ok(None);
    }
    match value_of(alloc, value)? {
        Some(value) => Ok(Some(Cell { name, value })),
        None => Err(RowFault::Value(name)),
    }
}

/// The value of a member. None if a cell cannot hold it.
fn value_of(alloc: Global, value: serde_json::Value) -> Result<Option<Value>, RowFault>
    ensures exact { IfOk result (λ found. found ≡ value_of (view value)) }
    ensures refused { IfErr result (λ fault. fault ≡ RowFault.NoMemory) }
    ensures is_value { IfOk result (λ found. IfSome found IsValue) }
{
    match value {
        serde_json::Value::Number(number) => Ok(integer_of(number.as_i64())),
        serde_json::Value::String(text) => Ok(text_of(text)),
        serde_json::Value::Array(items) => set_in(alloc, items),
        serde_json::Value::Null => Ok(None),
        serde_json::Value::Bool(_is) => Ok(None),
        serde_json::Value::Object(_members) => Ok(None),
    }
}

/// The value of an integer.
fn integer_of(integer: Option<i64>) -> Option<Value>
    ensures exact { result ≡ option_map Int integer }
    ensures is_value { IfSome result IsValue }
{
    match integer {
        Some(integer) => Some(Value::Int(integer)),
        None => None,
    }
}

/// The value of a text. None if it has more than 65,535 bytes.
fn text_of(text: String) -> Option<Value>
    ensures exact { result ≡ text_of (string_bytes text) }
    ensures is_value { IfSome result IsValue }
{
    let text = Text::of(text);
    if text.as_str().len() > MAX_TEXT {
        None
    } else {
        Some(Value::Text(text))
    }
}
