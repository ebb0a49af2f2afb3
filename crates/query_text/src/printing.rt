// The one text that a query is printed as. Each call appends its part.
ghost use Rattle.std.specs.Prelude.{◌≡◌, ◌++◌, ℕ, List, OnOk, IfOk, codes, decimal, string_bytes};
ghost use Rattle.std.specs.Fmt.{signed_decimal};
ghost use Rattle.query_text.specs.Printing.{printed, names_then, more_aggs_then, aggs_then, range_then, cond_then, conds_then, more_names_then, group_then, ordering_agg, order_then};

use crate::spellings::{op_word, push_agg, push_name, push_number, push_part, push_value};
use leaf_model::{Agg, Cond, Query, Text};
use std::alloc::{AllocError, Global};

/// SELECT's names, each with a comma.
fn push_names(out: &mut String, names: &[Text]) -> Result<(), AllocError>
    ensures { OnOk result
        ((further : List ℕ) → string_bytes out.new ++ further ≡ string_bytes out.old ++ names_then names.now further) }
{
    for name in names {
        push_name(out, name)?;
        push_part(out, ", ")?;
    }
    Ok(())
}

fn push_more_aggs(out: &mut String, aggs: &[Agg]) -> Result<(), AllocError>
    ensures { OnOk result ((further : List ℕ)
        → string_bytes out.new ++ further ≡ string_bytes out.old ++ more_aggs_then aggs.now further) }
{
    for agg in aggs {
        push_part(out, ", ")?;
        push_agg(out, agg)?;
    }
    Ok(())
}

fn push_aggs(out: &mut String, aggs: &[Agg]) -> Result<(), AllocError>
    ensures { OnOk result
        ((further : List ℕ) → string_bytes out.new ++ further ≡ string_bytes out.old ++ aggs_then aggs.now further) }
{
    match aggs {
        [] => Ok(()),
        [first, more @ ..] => {
            push_agg(out, first)?;
            push_more_aggs(out, more)
        }
    }
}

/// A bound of the range of times, after the words that lead to it.
fn push_bound(out: &mut String, opening: &str, bound: i64) -> Result<(), AllocError>
    ensures { OnOk result ((further : List ℕ) → string_bytes out.new
        ++ further ≡ string_bytes out.old ++ (opening.now ++ (signed_decimal bound ++ further))) }
{
    push_part(out, opening)?;
    push_number(out, bound)
}

/// The table and the range of times.
fn push_range(out: &mut String, query: &Query) -> Result<(), AllocError>
    ensures { OnOk result
        ((further : List ℕ) → string_bytes out.new ++ further ≡ string_bytes out.old ++ range_then query.now further) }
{
    push_part(out, " FROM ")?;
    push_part(out, query.table.as_str())?;
    push_bound(out, " WHERE time >= ", query.from)?;
    push_bound(out, " AND time <= ", query.to)
}

fn push_cond(out: &mut String, cond: &Cond) -> Result<(), AllocError>
    ensures { OnOk result
        ((further : List ℕ) → string_bytes out.new ++ further ≡ string_bytes out.old ++ cond_then cond.now further) }
{
    push_part(out, " AND ")?;
    push_name(out, &cond.name)?;
    push_part(out, " ")?;
    push_part(out, op_word(cond.op))?;
    push_part(out, " ")?;
    push_value(out, &cond.value)
}

fn push_conds(out: &mut String, conds: &[Cond]) -> Result<(), AllocError>
    ensures { OnOk result
        ((further : List ℕ) → string_bytes out.new ++ further ≡ string_bytes out.old ++ conds_then conds.now further) }
{
    for cond in conds {
        push_cond(out, cond)?;
    }
    Ok(())
}

fn push_more_names(out: &mut String, names: &[Text]) -> Result<(), AllocError>
    ensures { OnOk result ((further : List ℕ)
        → string_bytes out.new ++ further ≡ string_bytes out.old ++ more_names_then names.now further) }
{
    for name in names {
        push_part(out, ", ")?;
        push_name(out, name)?;
    }
    Ok(())
}

/// GROUP BY, if a name is selected.
fn push_group(out: &mut String, names: &[Text]) -> Result<(), AllocError>
    ensures { OnOk result
        ((further : List ℕ) → string_bytes out.new ++ further ≡ string_bytes out.old ++ group_then names.now further) }
{
    match names {
        [] => Ok(()),
        [first, more @ ..] => {
            push_part(out, " GROUP BY ")?;
            push_name(out, first)?;
            push_more_names(out, more)
        }
    }
}

/// ORDER BY, if the answer has an order.
fn push_order(out: &mut String, order: Option<u64>, aggs: &[Agg]) -> Result<(), AllocError>
    ensures { OnOk result ((further : List ℕ)
        → string_bytes out.new ++ further ≡ string_bytes out.old ++ order_then (ordering_agg order aggs.now) further) }
{
    let Some(place) = order else {
        return Ok(());
    };
    match aggs.get(place as usize) {
        None => Ok(()),
        Some(agg) => {
            push_part(out, " ORDER BY ")?;
            push_agg(out, agg)
        }
    }
}

fn push_limit(out: &mut String, limit: u32) -> Result<(), AllocError>
    ensures { OnOk result ((further : List ℕ)
        → string_bytes out.new ++ further ≡ string_bytes out.old ++ (codes " LIMIT " ++ (decimal limit ++ further))) }
{
    push_part(out, " LIMIT ")?;
    push_number(out, i64::from(limit))
}

/// The one text of a query. It has one space between tokens, none before a comma, and none at an aggregate's
/// parentheses. A name has no quotes if it may be plain. LIMIT is always written.
pub fn print(alloc: Global, query: &Query) -> Result<Text, AllocError>
    ensures spelled { IfOk result (λ text. text ≡ printed query.now) }
{
    let mut out = String::new(alloc);
    push_part(&mut out, "SELECT ")?;
    push_names(&mut out, query.keys.as_slice())?;
    push_aggs(&mut out, query.aggs.as_slice())?;
    push_range(&mut out, query)?;
    push_conds(&mut out, query.conds.as_slice())?;
    push_group(&mut out, query.keys.as_slice())?;
    push_order(&mut out, query.order, query.aggs.as_slice())?;
    push_limit(&mut out, query.limit)?;
    Ok(Text::of(out))
}
