// Makes the spread of a query.
ghost use Rattle.std.specs.Prelude.{◌≡◌, ℕ, IfOk, ◌∷◌, ◌++◌, [], List, map, option_to_list};
ghost use Rattle.std.specs.List.{filter, flat_map};
ghost use Rattle.std.specs.List.Sorted.{IsStrictlySortedBy};
ghost use Rattle.std.specs.Option.{option_map};
ghost use Rattle.leaf_model.specs.declared.queries.Cond.{Cond};
ghost use Rattle.row_model.specs.Texts.{text_cmp};
ghost use Rattle.row_model.specs.Values.{time_name};
ghost use Rattle.standing_query.specs.Names.{has, is_cell};
ghost use Rattle.standing_query.specs.Spread.{agg_names, cells_read, names_read, spread};

use leaf_model::{Agg, Aggs, Cond, Conds, Names, Query, Text};
use std::alloc::{AllocError, Global};

fn with_conds<'a>(mut names: Vec<&'a str>, conds: &'a [Cond]) -> Result<Vec<&'a str>, AllocError>
    ensures { IfOk result (λ more. map (λ n. n.now) more.items ≡ map (λ n. n.now) names.entry.items
        ++ map (λ (c : Cond). c.name) conds.now) }
{
    for cond in conds {
        names.push(cond.name.as_str())?;
    }
    Ok(names)
}

fn with_keys<'a>(mut names: Vec<&'a str>, keys: &'a [Text]) -> Result<Vec<&'a str>, AllocError>
    ensures { IfOk result (λ more. map (λ n. n.now) more.items ≡ map (λ n. n.now) names.entry.items ++ keys.now) }
{
    for key in keys {
        names.push(key.as_str())?;
    }
    Ok(names)
}

/// The name that an aggregate folds. None for COUNT.
fn agg_name(agg: &Agg) -> Option<&str>
    ensures { agg_names agg.now ≡ option_to_list (option_map (λ name. name.now) result) }
{
    match agg {
        Agg::Count => None,
        Agg::Sum(name) => Some(name.as_str()),
        Agg::Min(name) => Some(name.as_str()),
        Agg::Max(name) => Some(name.as_str()),
        Agg::Avg(name) => Some(name.as_str()),
    }
}

fn with_aggs<'a>(mut names: Vec<&'a str>, aggs: &'a [Agg]) -> Result<Vec<&'a str>, AllocError>
    ensures { IfOk result (λ more. map (λ n. n.now) more.items ≡ map (λ n. n.now) names.entry.items
        ++ flat_map agg_names aggs.now) }
{
    for agg in aggs {
        if let Some(name) = agg_name(agg) {
            names.push(name)?;
        }
    }
    Ok(names)
}

/// The names of the conditions, keys and aggregates, in the order of the query.
fn names_of(alloc: Global, query: &Query) -> Result<Vec<&str>, AllocError>
    ensures { IfOk result (λ names. map (λ n. n.now) names.items ≡ names_read query.now) }
{
    let names = with_conds(Vec::new(alloc), query.conds.as_slice())?;
    let names = with_keys(names, query.keys.as_slice())?;
    Ok(with_aggs(names, query.aggs.as_slice())?)
}

/// Sorts the names, and drops repeated ones.
fn put_in_order(names: &mut Vec<&str>)
    ensures ascends { IsStrictlySortedBy text_cmp (map (λ n. n.now) names.new.items) }
    ensures same { (n : List ℕ) → has n (map (λ n. n.now) names.new.items) ≡ has n (map (λ n. n.now) names.old.items) }
{
    names.sort_unstable();
    names.dedup();
}

/// Copies of the names other than `time`.
fn cells_among(alloc: Global, names: &[&str]) -> Result<Vec<Text>, AllocError>
    ensures { IfOk result (λ cells. cells.items ≡ filter is_cell (map (λ n. n.now) names.now)) }
{
    let mut cells: Vec<Text> = Vec::new(alloc);
    for name in names {
        if *name != "time" {
            cells.push(Text::of(String::from_str(alloc, name)?))?;
        }
    }
    Ok(cells)
}

/// The names of the cells that a query reads, ascending and distinct. Only the names of the answer are copied.
fn cells_of(alloc: Global, query: &Query) -> Result<Vec<Text>, AllocError>
    ensures { IfOk result (λ names. names.items ≡ cells_read query.now) }
{
    let mut names = names_of(alloc, query)?;
    put_in_order(&mut names);
    cells_among(alloc, names.as_slice())
}

/// `time`, and then these names.
fn behind_time(alloc: Global, mut names: Vec<Text>) -> Result<Names, AllocError>
    ensures { IfOk result (λ keys. keys ≡ time_name ∷ names.items) }
{
    let time = Text::of(String::from_str(alloc, "time")?);
    names.insert(0, time)?;
    Ok(Names::of(names))
}

fn counted(alloc: Global) -> Result<Aggs, AllocError>
    ensures { IfOk result (λ aggs. aggs ≡ Agg.Count ∷ []) }
{
    let mut aggs: Vec<Agg> = Vec::new(alloc);
    aggs.push(Agg::Count)?;
    Ok(Aggs::of(aggs))
}

/// The spread of the query: it counts the rows of each time and each list of values that the query reads. Err if memory
/// runs out.
pub fn spread_of(alloc: Global, query: &Query) -> Result<Query, AllocError>
    ensures { IfOk result (λ s. s ≡ spread query.now) }
{
    Ok(Query {
        table: query.table.copy()?,
        from: 0,
        to: i64::MAX,
        conds: Conds::of(Vec::new(alloc)),
        keys: behind_time(alloc, cells_of(alloc, query)?)?,
        aggs: counted(alloc)?,
        order: None,
        limit: 100_000,
    })
}
