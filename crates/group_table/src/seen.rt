// What a query reads of a row. Each name is looked up once.
ghost use Rattle.std.specs.Prelude.{◌≡◌, ◌++◌, map, IfOk, Some};
ghost use Rattle.leaf_model.specs.declared.queries.Cond.{Cond};
ghost use Rattle.row_model.specs.declared.rows.Row.{Row};
ghost use Rattle.leaf_model.specs.Groups.{key_of, value_of};
ghost use Rattle.leaf_model.specs.Lent.{each_value, lent_row, lent_value};
ghost use Rattle.leaf_model.specs.Looks.{sought_in};
ghost use Rattle.group_table.specs.Reads.{AreSeen, agg_name, names_in, seen_key, values_in};

use leaf_model::{Agg, Cond, Key, Keys, LentRow, LentTexts, LentValue, Query, Sought, Text};
use std::alloc::{AllocError, Global};

/// A row, and its values for each condition, key and aggregate of a query.
#[derive(Clone, Copy)]
pub struct SeenRow<'s, 'a> {
    pub row: &'s LentRow<'a>,
    pub conds: &'s [Option<LentValue<'a>>],
    pub keys: &'s [Option<LentValue<'a>>],
    pub aggs: &'s [Option<LentValue<'a>>],
}

impl<'s, 'a> SeenRow<'s, 'a> {
    /// `seen` has the row's values in the order of `sought_by`.
    pub fn of(
        query: &Query,
        row: &'s LentRow<'a>,
        seen: &'s [Option<LentValue<'a>>],
    ) -> SeenRow<'s, 'a>
        requires { each_value seen.now ≡ values_in (lent_row row.now) (names_in query.now) }
        ensures row { result.row.now ≡ row.now }
        ensures seen { AreSeen query.now result }
    {
        let (conds, others) = seen.split_at(query.conds.as_slice().len());
        let (keys, aggs) = others.split_at(query.keys.as_slice().len());
        SeenRow {
            row,
            conds,
            keys,
            aggs,
        }
    }
}

fn look_for_conds<'q>(sought: &mut Vec<Sought<'q>>, conds: &'q [Cond]) -> Result<(), AllocError>
    ensures { (row : Row) → IfOk result (λ done. map (sought_in row) sought.new.items
        ≡ map (sought_in row) sought.old.items ++ values_in row (map (λ (c : Cond). c.name) conds.now)) }
{
    for cond in conds {
        sought.push(Sought::of(&cond.name))?;
    }
    Ok(())
}

fn look_for_keys<'q>(sought: &mut Vec<Sought<'q>>, names: &'q [Text]) -> Result<(), AllocError>
    ensures { (row : Row) → IfOk result (λ done.
        map (sought_in row) sought.new.items ≡ map (sought_in row) sought.old.items ++ values_in row names.now) }
{
    for name in names {
        sought.push(Sought::of(name))?;
    }
    Ok(())
}

fn sought_for<'q>(agg: &'q Agg) -> Sought<'q>
    ensures { (row : Row) → sought_in row result ≡ value_of (agg_name agg.now) row }
{
    match agg {
        Agg::Count => Sought::Time,
        Agg::Sum(name) => Sought::of(name),
        Agg::Min(name) => Sought::of(name),
        Agg::Max(name) => Sought::of(name),
        Agg::Avg(name) => Sought::of(name),
    }
}

fn look_for_aggs<'q>(sought: &mut Vec<Sought<'q>>, aggs: &'q [Agg]) -> Result<(), AllocError>
    ensures { (row : Row) → IfOk result (λ done. map (sought_in row) sought.new.items
        ≡ map (sought_in row) sought.old.items ++ values_in row (map agg_name aggs.now)) }
{
    for agg in aggs {
        sought.push(sought_for(agg))?;
    }
    Ok(())
}

/// What a query looks up in a row: the names of its conditions, then of its keys, then of its aggregates.
pub fn sought_by<'q>(alloc: Global, query: &'q Query) -> Result<Vec<Sought<'q>>, AllocError>
    ensures { (row : Row) → IfOk result (λ sought.
        map (sought_in row) sought.items ≡ values_in row (names_in query.now)) }
{
    let mut sought = Vec::new(alloc);
    look_for_conds(&mut sought, query.conds.as_slice())?;
    look_for_keys(&mut sought, query.keys.as_slice())?;
    look_for_aggs(&mut sought, query.aggs.as_slice())?;
    Ok(sought)
}

/// A key of a table, in the form of a row's value.
pub fn see_key(key: &Key) -> Option<LentValue<'_>>
    ensures { seen_key result ≡ key.now }
{
    match key {
        Key::Missing => None,
        Key::Int(n) => Some(LentValue::Int(*n)),
        Key::Text(text) => Some(LentValue::Text(text.as_str())),
        Key::Set(members) => Some(LentValue::Set(LentTexts::of(members))),
    }
}

fn own_value(alloc: Global, value: &LentValue) -> Result<Key, AllocError>
    ensures { IfOk result (λ k. k ≡ key_of (Some (lent_value value.now))) }
{
    match value {
        LentValue::Int(n) => Ok(Key::Int(*n)),
        LentValue::Text(text) => Ok(Key::Text(Text::of(String::from_str(alloc, text)?))),
        LentValue::Set(members) => Ok(Key::Set(members.own(alloc)?)),
    }
}

fn own_key(alloc: Global, seen: Option<LentValue>) -> Result<Key, AllocError>
    ensures { IfOk result (λ k. k ≡ seen_key seen.entry) }
{
    match seen {
        None => Ok(Key::Missing),
        Some(value) => own_value(alloc, &value),
    }
}

pub fn own_keys(alloc: Global, seen: &[Option<LentValue>]) -> Result<Keys, AllocError>
    ensures { IfOk result (λ ks. ks ≡ map seen_key seen.now) }
{
    let mut keys: Vec<Key> = Vec::with_capacity(alloc, seen.len())?;
    for one in seen {
        keys.push(own_key(alloc, *one)?)?;
    }
    Ok(Keys::of(keys))
}
