// Reads an array of JSON as a set.
ghost use Rattle.std.specs.Prelude.{◌≡◌, ◌≤◌, ℕ, List, [], length, map, Some, IfOk, IfErr, IfSome, option_map, option_and_then, string_bytes, string_cmp};
ghost use Rattle.std.specs.List.Sorted.{IsStrictlySortedBy};
ghost use Rattle.serde_json.specs.View.{items_view};
ghost use Rattle.row_model.specs.Texts.{text_cmp};
ghost use Rattle.row_model.specs.Values.{IsValue};
ghost use Rattle.row_json.specs.Row.{item_count, set_of, texts_with};

use row_model::{MAX_MEMBERS, RowFault, Text, Texts, Value};
use std::alloc::Global;
use std::collections::BTreeSet;

/// The distinct texts of an array, ascending. None if an item is no text.
#[tactic(auto, using(crate::proofs::SetItems::text_put, crate::proofs::SetItems::put_length))]
fn texts_in(
    alloc: Global,
    items: Vec<serde_json::Value>,
) -> Result<Option<BTreeSet<String>>, RowFault>
    ensures exact { IfOk result (λ found.
        option_map (λ texts. map string_bytes texts.keys) found ≡ texts_with [] (items_view items.items)) }
    ensures refused { IfErr result (λ fault. fault ≡ RowFault.NoMemory) }
    ensures few { IfOk result (λ found. IfSome found (λ texts. length texts.keys ≤ length items.items)) }
{
    let mut texts = BTreeSet::new(alloc);
    for item in items {
        match item {
            serde_json::Value::String(text) => {
                if texts.insert(text).is_err() {
                    return Err(RowFault::NoMemory);
                }
            }
            serde_json::Value::Null => return Ok(None),
            serde_json::Value::Bool(_is) => return Ok(None),
            serde_json::Value::Number(_number) => return Ok(None),
            serde_json::Value::Array(_items) => return Ok(None),
            serde_json::Value::Object(_members) => return Ok(None),
        }
    }
    Ok(Some(texts))
}

/// The same texts as a list.
fn own_texts(alloc: Global, strings: BTreeSet<String>) -> Result<Vec<Text>, RowFault>
    ensures same { IfOk result (λ texts. texts.items ≡ map string_bytes strings.keys) }
    ensures ordered { IsStrictlySortedBy string_cmp strings.keys }
    ensures refused { IfErr result (λ fault. fault ≡ RowFault.NoMemory) }
{
    let Ok(mut texts) = Vec::with_capacity(alloc, strings.len()) else {
        return Err(RowFault::NoMemory);
    };
    for string in strings {
        if texts.push(Text::of(string)).is_err() {
            return Err(RowFault::NoMemory);
        }
    }
    Ok(texts)
}

/// The set of an array. None if a cell cannot hold it.
pub(crate) fn set_in(
    alloc: Global,
    items: Vec<serde_json::Value>,
) -> Result<Option<Value>, RowFault>
    ensures exact { IfOk result (λ found. found
        ≡ option_and_then (set_of (item_count (items_view items.items))) (texts_with [] (items_view items.items))) }
    ensures refused { IfErr result (λ fault. fault ≡ RowFault.NoMemory) }
    ensures is_value { IfOk result (λ found. IfSome found IsValue) }
{
    if items.len() > MAX_MEMBERS {
        return Ok(None);
    }
    let Some(strings) = texts_in(alloc, items)? else {
        return Ok(None);
    };
    let texts = Texts::of(own_texts(alloc, strings)?);
    if texts.is_set() {
        Ok(Some(Value::Set(texts)))
    } else {
        Ok(None)
    }
}
