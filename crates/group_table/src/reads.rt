// Tests the conditions of a query.
ghost use Rattle.std.specs.Prelude.{◌≡◌, ◌≤◌, length, Some, option_map, option_and_then};
ghost use Rattle.std.specs.List.{list_all};
ghost use Rattle.leaf_model.specs.Groups.{op_accepts, set_accepts, compares, cond_accepts, passes, value_of, as_int};
ghost use Rattle.leaf_model.specs.Lent.{each_value, lent_texts, lent_value};
ghost use Rattle.group_table.specs.Reads.{AreSeen, all_met, seen_row};

use crate::seen::SeenRow;
use leaf_model::{Cond, LentTexts, LentValue, Op, Query, Value};
use std::cmp::Ordering;

/// Whether the operator accepts this order of the cell and the constant. `Has` accepts none.
pub fn accepts(op: &Op, order: Ordering) -> bool
    ensures { result ≡ op_accepts op.now order }
{
    match op {
        Op::Eq => order == Ordering::Equal,
        Op::Ne => order != Ordering::Equal,
        Op::Lt => order == Ordering::Less,
        Op::Le => order != Ordering::Greater,
        Op::Gt => order == Ordering::Greater,
        Op::Ge => order != Ordering::Less,
        Op::Has => false,
    }
}

fn set_accepts(op: &Op, members: &LentTexts, text: &str) -> bool
    ensures { result ≡ set_accepts op.now (lent_texts members.now) text.now }
{
    match op {
        Op::Has => members.holds(text),
        Op::Eq | Op::Ne | Op::Lt | Op::Le | Op::Gt | Op::Ge => false,
    }
}

fn holds(cond: &Cond, value: &LentValue) -> bool
    ensures { result ≡ compares cond.now.op (lent_value value.now) cond.now.value }
{
    match value {
        LentValue::Int(n) => match &cond.value {
            Value::Int(m) => accepts(&cond.op, n.cmp(m)),
            Value::Text(_text) => false,
            Value::Set(_members) => false,
        },
        LentValue::Text(text) => match &cond.value {
            Value::Int(_m) => false,
            Value::Text(other) => accepts(&cond.op, text.cmp(other.as_str())),
            Value::Set(_members) => false,
        },
        LentValue::Set(members) => match &cond.value {
            Value::Int(_m) => false,
            Value::Text(text) => set_accepts(&cond.op, members, text.as_str()),
            Value::Set(_others) => false,
        },
    }
}

fn meets(cond: &Cond, seen: Option<LentValue>) -> bool
    ensures { result ≡ cond_accepts cond.now (option_map lent_value seen.entry) }
{
    match seen {
        None => false,
        Some(value) => holds(cond, &value),
    }
}

fn meets_all(conds: &[Cond], seen: &[Option<LentValue>]) -> bool
    requires { length conds.now ≤ length seen.now }
    ensures { result ≡ all_met conds.now (each_value seen.now) }
{
    let mut i: usize = 0;
    while i < conds.len() {
        if !meets(&conds[i], seen[i]) {
            return false;
        }
        i += 1;
    }
    true
}

fn meets_conds(query: &Query, row: &SeenRow) -> bool
    requires { AreSeen query.now row.now }
    ensures { result ≡ list_all (λ c. cond_accepts c (value_of c.name (seen_row row.now))) query.now.conds }
{
    meets_all(query.conds.as_slice(), row.conds)
}

/// Whether the row's time is in the query's range, and each condition holds.
pub fn is_passing(query: &Query, row: &SeenRow) -> bool
    requires { AreSeen query.now row.now }
    ensures { result ≡ passes query.now (seen_row row.now) }
{
    query.from <= row.row.time && row.row.time <= query.to && meets_conds(query, row)
}

/// The value as an integer. None if it is missing, or of another kind.
pub fn int_of(seen: Option<LentValue>) -> Option<i64>
    ensures { result ≡ option_and_then as_int (option_map lent_value seen.entry) }
{
    match seen {
        None => None,
        Some(value) => match value {
            LentValue::Int(n) => Some(n),
            LentValue::Text(_text) => None,
            LentValue::Set(_members) => None,
        },
    }
}
