// Aggregates: what their parentheses take, and their places among the selected ones.
ghost use Rattle.std.specs.Prelude.{◌≡◌, ℕ, List, option_and_then, bytes_eq};
ghost use Rattle.std.specs.List.{list_any, position_from};
ghost use Rattle.query_text.specs.declared.tokens.Token.TheVariants.{Name};
ghost use Rattle.query_text.specs.Roles.{name_of_token, agg_inside, same_agg, has_kind, is_orderable};

use crate::places::AggWord;
use crate::roles::{stars, take_name};
use crate::tokens::Token;
use leaf_model::{Agg, Text};

/// Whether ORDER BY takes the aggregate: any but AVG.
fn takes_order(agg: &Agg) -> bool
    ensures { result ≡ is_orderable agg.now }
{
    !matches!(agg, Agg::Avg(_))
}

pub fn any_takes_order(aggs: &[Agg]) -> bool
    ensures { result ≡ list_any is_orderable aggs.now }
{
    for agg in aggs {
        if takes_order(agg) {
            return true;
        }
    }
    false
}

/// Whether the aggregate is of this kind, and ORDER BY takes it.
fn is_kind(kind: AggWord, agg: &Agg) -> bool
    ensures { result ≡ has_kind kind agg.now }
{
    match agg {
        Agg::Count => kind == AggWord::Count,
        Agg::Sum(_) => kind == AggWord::Sum,
        Agg::Min(_) => kind == AggWord::Min,
        Agg::Max(_) => kind == AggWord::Max,
        Agg::Avg(_) => false,
    }
}

pub fn any_is_kind(kind: AggWord, aggs: &[Agg]) -> bool
    ensures { result ≡ list_any (has_kind kind) aggs.now }
{
    for agg in aggs {
        if is_kind(kind, agg) {
            return true;
        }
    }
    false
}

fn agg_of_name(kind: AggWord, name: Text) -> Option<Agg>
    ensures { result ≡ agg_inside kind (Name name) }
{
    match kind {
        AggWord::Count => None,
        AggWord::Sum => Some(Agg::Sum(name)),
        AggWord::Min => Some(Agg::Min(name)),
        AggWord::Max => Some(Agg::Max(name)),
        AggWord::Avg => Some(Agg::Avg(name)),
    }
}

fn take_named(kind: AggWord, token: Token) -> Option<Agg>
    ensures { result ≡ option_and_then (λ (name : List ℕ). agg_inside kind (Name name)) (name_of_token token) }
{
    match take_name(token) {
        None => None,
        Some(name) => agg_of_name(kind, name),
    }
}

/// The aggregate of this kind with this token between its parentheses. None if the kind does not take the token.
pub fn take_inside(kind: AggWord, token: Token) -> Option<Agg>
    ensures { result ≡ agg_inside kind token }
{
    match kind {
        AggWord::Count => {
            if stars(&token) {
                Some(Agg::Count)
            } else {
                None
            }
        }
        AggWord::Sum | AggWord::Min | AggWord::Max | AggWord::Avg => take_named(kind, token),
    }
}

pub fn is_same_text(a: &Text, b: &Text) -> bool
    ensures { result ≡ bytes_eq a.now b.now }
{
    a.as_str() == b.as_str()
}

fn is_same_agg(a: &Agg, b: &Agg) -> bool
    ensures { result ≡ same_agg a.now b.now }
{
    match a {
        Agg::Count => match b {
            Agg::Count => true,
            Agg::Sum(_) | Agg::Min(_) | Agg::Max(_) | Agg::Avg(_) => false,
        },
        Agg::Sum(name) => match b {
            Agg::Sum(other) => is_same_text(name, other),
            Agg::Count | Agg::Min(_) | Agg::Max(_) | Agg::Avg(_) => false,
        },
        Agg::Min(name) => match b {
            Agg::Min(other) => is_same_text(name, other),
            Agg::Count | Agg::Sum(_) | Agg::Max(_) | Agg::Avg(_) => false,
        },
        Agg::Max(name) => match b {
            Agg::Max(other) => is_same_text(name, other),
            Agg::Count | Agg::Sum(_) | Agg::Min(_) | Agg::Avg(_) => false,
        },
        Agg::Avg(name) => match b {
            Agg::Avg(other) => is_same_text(name, other),
            Agg::Count | Agg::Sum(_) | Agg::Min(_) | Agg::Max(_) => false,
        },
    }
}

/// The place of the first aggregate that is equal to `agg`. None if there is none.
pub fn find_agg(agg: &Agg, aggs: &[Agg]) -> Option<u64>
    ensures { result ≡ position_from (same_agg agg.now) 0 aggs.now }
{
    let mut i: usize = 0;
    while i < aggs.len() {
        if is_same_agg(agg, &aggs[i]) {
            return Some(i as u64);
        }
        i += 1;
    }
    None
}
