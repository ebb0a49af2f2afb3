// How names, values and aggregates are written. Each call adds its part behind what was written.
ghost use Rattle.std.specs.Prelude.{◌≡◌, ◌++◌, ◌<◌, ℕ, List, codes, OnOk, IfOk, string_bytes};
ghost use Rattle.std.specs.List.{flat_map, list_all};
ghost use Rattle.std.specs.Fmt.{signed_decimal};
ghost use Rattle.query_text.specs.Tokens.{goes_on_word};
ghost use Rattle.query_text.specs.Printing.{is_plain, doubled, in_quotes, name_text, value_text, op_text, agg_then};

use crate::roles::is_reserved;
use crate::scanner::{starts_word, stays_word};
use leaf_model::{Agg, Op, Text, Value};
use std::alloc::{AllocError, Global};

/// A part as it stands.
pub fn push_part(out: &mut String, part: &str) -> Result<(), AllocError>
    ensures { OnOk result
        ((further : List ℕ) → string_bytes out.new ++ further ≡ string_bytes out.old ++ (part.now ++ further)) }
{
    out.push_str(part)
}

pub fn push_number(out: &mut String, number: i64) -> Result<(), AllocError>
    ensures { OnOk result ((further : List ℕ)
        → string_bytes out.new ++ further ≡ string_bytes out.old ++ (signed_decimal number ++ further)) }
{
    let digits = format!(in *out.allocator(); "{number}")?;
    push_part(out, digits.as_str())
}

fn all_stay(rest: &[u8]) -> bool
    ensures { result ≡ list_all goes_on_word rest.now }
{
    for b in rest {
        if !stays_word(*b) {
            return false;
        }
    }
    true
}

/// A word that is no keyword needs no quotes.
fn needs_no_quotes(name: &str) -> bool
    ensures { result ≡ is_plain name.now }
{
    match name.as_bytes() {
        [] => false,
        [first, rest @ ..] => starts_word(*first) && all_stay(rest) && !is_reserved(name),
    }
}

fn push_doubled(out: &mut Vec<u8>, mark: u8, text: &[u8]) -> Result<(), AllocError>
    ensures { OnOk result (out.new.items ≡ out.old.items ++ flat_map (doubled mark) text.now) }
{
    for b in text {
        if *b == mark {
            out.push(mark)?;
        }
        out.push(*b)?;
    }
    Ok(())
}

/// A text in quotes, with the marks inside doubled.
fn quoted(alloc: Global, mark: u8, text: &str) -> Result<String, AllocError>
    requires { mark < 128 }
    ensures { IfOk result (λ quoted. string_bytes quoted ≡ in_quotes mark text.now) }
{
    let mut bytes: Vec<u8> = Vec::new(alloc);
    bytes.push(mark)?;
    push_doubled(&mut bytes, mark, text.as_bytes())?;
    bytes.push(mark)?;
    match String::from_utf8(bytes) {
        Ok(quoted) => Ok(quoted),
        Err(_error) => unreachable!(),
    }
}

fn push_quoted(out: &mut String, mark: u8, text: &str) -> Result<(), AllocError>
    requires { mark < 128 }
    ensures { OnOk result ((further : List ℕ)
        → string_bytes out.new ++ further ≡ string_bytes out.old ++ (in_quotes mark text.now ++ further)) }
{
    let quoted = quoted(*out.allocator(), mark, text)?;
    push_part(out, quoted.as_str())
}

/// A name, plain where it may be.
pub fn push_name(out: &mut String, name: &Text) -> Result<(), AllocError>
    ensures { OnOk result ((further : List ℕ)
        → string_bytes out.new ++ further ≡ string_bytes out.old ++ (name_text name.now ++ further)) }
{
    if needs_no_quotes(name.as_str()) {
        push_part(out, name.as_str())
    } else {
        push_quoted(out, b'"', name.as_str())
    }
}

pub fn push_value(out: &mut String, value: &Value) -> Result<(), AllocError>
    ensures { OnOk result ((further : List ℕ)
        → string_bytes out.new ++ further ≡ string_bytes out.old ++ (value_text value.now ++ further)) }
{
    match value {
        Value::Int(number) => push_number(out, *number),
        Value::Text(text) => push_quoted(out, b'\'', text.as_str()),
        Value::Set(_members) => Ok(()),
    }
}

pub fn op_word(op: Op) -> &'static str
    ensures { result.now ≡ op_text op }
{
    match op {
        Op::Eq => "=",
        Op::Ne => "!=",
        Op::Lt => "<",
        Op::Le => "<=",
        Op::Gt => ">",
        Op::Ge => ">=",
        Op::Has => "HAS",
    }
}

/// An aggregate's word and parenthesis, its name, and the other parenthesis.
fn push_call(out: &mut String, opening: &str, name: &Text) -> Result<(), AllocError>
    ensures { OnOk result ((further : List ℕ) → string_bytes out.new
        ++ further ≡ string_bytes out.old ++ (opening.now ++ (name_text name.now ++ (codes ")" ++ further)))) }
{
    push_part(out, opening)?;
    push_name(out, name)?;
    push_part(out, ")")
}

pub fn push_agg(out: &mut String, agg: &Agg) -> Result<(), AllocError>
    ensures { OnOk result
        ((further : List ℕ) → string_bytes out.new ++ further ≡ string_bytes out.old ++ agg_then agg.now further) }
{
    match agg {
        Agg::Count => push_part(out, "COUNT(*)"),
        Agg::Sum(name) => push_call(out, "SUM(", name),
        Agg::Min(name) => push_call(out, "MIN(", name),
        Agg::Max(name) => push_call(out, "MAX(", name),
        Agg::Avg(name) => push_call(out, "AVG(", name),
    }
}
