// A group as one line of text.
ghost use Rattle.std.specs.Prelude.{◌≡◌, IfOk, codes, map, string_bytes};
ghost use Rattle.std.specs.Fmt.{signed_decimal};
ghost use Rattle.std.specs.Option.{option_map_or};
ghost use Rattle.serde_json.specs.Data.{array};
ghost use Rattle.serde_json.specs.View.{items_view};
ghost use Rattle.serde_json.specs.Written.{compact_text};
ghost use Rattle.answer_text.specs.Answer.{agg_text, group_line, group_parts, key_text, strings};

use leaf_model::{Agg, Fold, Group, Key, Query, Text, Texts};
use serde_json::Value;
use std::alloc::{AllocError, Global};

fn int_text(alloc: Global, number: Option<i64>) -> Result<String, AllocError>
    ensures { IfOk result (λ text. string_bytes text ≡ option_map_or signed_decimal number (codes "-")) }
{
    match number {
        None => String::from_str(alloc, "-"),
        Some(number) => number.to_string(alloc),
    }
}

/// The texts as items of a JSON array.
#[tactic(auto, using(crate::proofs::SetText::one_more))]
fn items_of(alloc: Global, texts: &[Text]) -> Result<Vec<Value>, AllocError>
    ensures { IfOk result (λ items. items_view items.items ≡ strings texts.now) }
{
    let mut items = Vec::with_capacity(alloc, texts.len())?;
    for text in texts {
        items.push(Value::String(text.copy()?.into_inner()))?;
    }
    Ok(items)
}

fn set_text(alloc: Global, members: &Texts) -> Result<String, AllocError>
    ensures { IfOk result (λ text. string_bytes text ≡ compact_text (array (strings members.now))) }
{
    let items = items_of(alloc, members.as_slice())?;
    Value::Array(items).to_string(alloc)
}

fn key_text(alloc: Global, key: &Key) -> Result<String, AllocError>
    ensures { IfOk result (λ text. string_bytes text ≡ key_text key.now) }
{
    match key {
        Key::Missing => String::from_str(alloc, "-"),
        Key::Int(number) => number.to_string(alloc),
        Key::Text(text) => Value::String(text.copy()?.into_inner()).to_string(alloc),
        Key::Set(members) => set_text(alloc, members),
    }
}

fn agg_text(alloc: Global, count: u64, agg: &Agg, fold: &Fold) -> Result<String, AllocError>
    ensures { IfOk result (λ text. string_bytes text ≡ agg_text count agg.now fold.now) }
{
    match agg {
        Agg::Count => count.to_string(alloc),
        Agg::Sum(_name) => fold.sum.to_string(alloc),
        Agg::Min(_name) => int_text(alloc, fold.min),
        Agg::Max(_name) => int_text(alloc, fold.max),
        Agg::Avg(_name) => format!(in alloc; "{}/{}", fold.sum, fold.seen),
    }
}

/// The keys, and then the aggregates.
fn group_parts(alloc: Global, query: &Query, group: &Group) -> Result<Vec<String>, AllocError>
    ensures { IfOk result (λ parts. map string_bytes parts.items ≡ group_parts query.now group.now) }
{
    let aggs = query.aggs.as_slice();
    let folds = group.folds.as_slice();
    let mut parts = Vec::new(alloc);
    for key in group.keys.as_slice() {
        parts.push(key_text(alloc, key)?)?;
    }
    for i in 0..aggs.len().min(folds.len()) {
        parts.push(agg_text(alloc, group.count, &aggs[i], &folds[i])?)?;
    }
    Ok(parts)
}

/// The parts of a group, with one space between each two.
pub fn line(alloc: Global, query: &Query, group: &Group) -> Result<Text, AllocError>
    ensures { IfOk result (λ line. line ≡ group_line query.now group.now) }
{
    let parts = group_parts(alloc, query, group)?;
    Ok(Text::of(parts.as_slice().join(alloc, " ")?))
}
