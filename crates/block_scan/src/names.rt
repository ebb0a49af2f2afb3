// The names that a query reads.
ghost use Rattle.std.specs.Prelude.{◌≡◌, ◌||◌, bytes_eq};
ghost use Rattle.std.specs.List.{list_any};
ghost use Rattle.block_scan.specs.Scanning.{is_named, is_of_agg, is_of_cond};

use leaf_model::{Agg, Cond, Query, Text};

pub(crate) fn is_same(name: &Text, other: &Text) -> bool
    ensures { result ≡ bytes_eq name.now other.now }
{
    name.as_str() == other.as_str()
}

fn is_of_cond(name: &Text, cond: &Cond) -> bool
    ensures { result ≡ is_of_cond name.now cond.now }
{
    is_same(name, &cond.name)
}

fn is_of_agg(name: &Text, agg: &Agg) -> bool
    ensures { result ≡ is_of_agg name.now agg.now }
{
    match agg {
        Agg::Count => false,
        Agg::Sum(other) => is_same(name, other),
        Agg::Min(other) => is_same(name, other),
        Agg::Max(other) => is_same(name, other),
        Agg::Avg(other) => is_same(name, other),
    }
}

fn is_in_conds(name: &Text, conds: &[Cond]) -> bool
    ensures { result ≡ list_any (is_of_cond name.now) conds.now }
{
    conds.iter().any(|cond| is_of_cond(name, cond))
}

fn is_in_keys(name: &Text, keys: &[Text]) -> bool
    ensures { result ≡ list_any (bytes_eq name.now) keys.now }
{
    keys.iter().any(|key| is_same(name, key))
}

fn is_in_aggs(name: &Text, aggs: &[Agg]) -> bool
    ensures { result ≡ list_any (is_of_agg name.now) aggs.now }
{
    aggs.iter().any(|agg| is_of_agg(name, agg))
}

/// Whether a condition, a key or an aggregate of the query has this name.
pub(crate) fn asks_for(query: &Query, name: &Text) -> bool
    ensures { result ≡ (list_any (is_of_cond name.now) query.now.conds || (list_any
        (bytes_eq name.now) query.now.keys || list_any (is_of_agg name.now) query.now.aggs)) }
{
    is_in_conds(name, query.conds.as_slice())
        || is_in_keys(name, query.keys.as_slice())
        || is_in_aggs(name, query.aggs.as_slice())
}

/// Whether the query reads this name. It always reads `time`.
pub(crate) fn is_named(query: &Query, name: &Text) -> bool
    ensures { result ≡ is_named query.now name.now }
{
    name.as_str() == "time" || asks_for(query, name)
}
