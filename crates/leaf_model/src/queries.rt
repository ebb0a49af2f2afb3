// Queries: a range of times, conditions, keys and aggregates.
ghost use Rattle.std.specs.Prelude.{◌≡◌, IfOk};

use row_model::{Names, Text, Value};
use std::alloc::AllocError;
use std::marker::Model;

/// How a cell compares with a constant. `Has` tests whether a set holds a text.
#[derive(Clone, Copy, PartialEq, Eq)]
pub enum Op {
    Eq,
    Ne,
    Lt,
    Le,
    Gt,
    Ge,
    Has,
}

/// A condition on the cell of a name. A missing cell meets none, and neither does an integer against a text. A set
/// meets `Has` alone.
#[derive(Drop)]
pub struct Cond {
    pub name: Text,
    pub op: Op,
    pub value: Value,
}

impl Cond {
    pub fn copy(&self) -> Result<Cond, AllocError>
        ensures { IfOk result (λ copy. copy ≡ self.now) }
    {
        Ok(Cond {
            name: self.name.copy()?,
            op: self.op,
            value: self.value.copy()?,
        })
    }
}

/// The conditions of a query. A row has to meet all. Contracts see them as the list.
#[derive(Drop)]
pub struct Conds {
    inner: Vec<Cond>,
}

impl Model for Conds {
    ghost use Rattle.std.specs.Prelude.{List};
    ghost use Rattle.leaf_model.specs.declared.queries.Cond.{Cond};

    ghost Value = { List Cond };

    ghost view = { λ list. list.inner.items };
}

impl Conds {
    pub fn of(inner: Vec<Cond>) -> Conds
        ensures { result ≡ inner.items }
    {
        Conds { inner }
    }

    pub fn as_slice(&self) -> &[Cond]
        ensures { result.now ≡ self.now }
    {
        self.inner.as_slice()
    }

    pub fn into_inner(self) -> Vec<Cond>
        ensures { result.items ≡ self }
    {
        self.inner
    }

    pub fn copy(&self) -> Result<Conds, AllocError>
        ensures { IfOk result (λ copy. copy ≡ self.now) }
    {
        let mut inner: Vec<Cond> = Vec::new(*self.inner.allocator());
        for item in self.inner.as_slice() {
            inner.push(item.copy()?)?;
        }
        Ok(Conds { inner })
    }
}

/// An aggregate: the number of rows of a group, or of the integers under a name the sum, the least, the greatest, or
/// the average, as sum and number.
#[derive(Drop)]
pub enum Agg {
    Count,
    Sum(Text),
    Min(Text),
    Max(Text),
    Avg(Text),
}

impl Agg {
    pub fn copy(&self) -> Result<Agg, AllocError>
        ensures { IfOk result (λ copy. copy ≡ self.now) }
    {
        match self {
            Agg::Count => Ok(Agg::Count),
            Agg::Sum(name) => Ok(Agg::Sum(name.copy()?)),
            Agg::Min(name) => Ok(Agg::Min(name.copy()?)),
            Agg::Max(name) => Ok(Agg::Max(name.copy()?)),
            Agg::Avg(name) => Ok(Agg::Avg(name.copy()?)),
        }
    }
}

/// The aggregates of a query, in the order of its answer. Contracts see them as the list.
#[derive(Drop)]
pub struct Aggs {
    inner: Vec<Agg>,
}

impl Model for Aggs {
    ghost use Rattle.std.specs.Prelude.{List};
    ghost use Rattle.leaf_model.specs.declared.queries.Agg.{Agg};

    ghost Value = { List Agg };

    ghost view = { λ list. list.inner.items };
}

impl Aggs {
    pub fn of(inner: Vec<Agg>) -> Aggs
        ensures { result ≡ inner.items }
    {
        Aggs { inner }
    }

    pub fn as_slice(&self) -> &[Agg]
        ensures { result.now ≡ self.now }
    {
        self.inner.as_slice()
    }

    pub fn into_inner(self) -> Vec<Agg>
        ensures { result.items ≡ self }
    {
        self.inner
    }

    pub fn copy(&self) -> Result<Aggs, AllocError>
        ensures { IfOk result (λ copy. copy ≡ self.now) }
    {
        let mut inner: Vec<Agg> = Vec::new(*self.inner.allocator());
        for item in self.inner.as_slice() {
            inner.push(item.copy()?)?;
        }
        Ok(Aggs { inner })
    }
}

/// A query of one table: the rows with a time in `from..=to` that meet all conditions, grouped by `keys`. `order` is
/// the index into `aggs` by which the answer is ordered, and `limit` the most lines of the answer.
#[derive(Drop)]
pub struct Query {
    pub table: Text,
    pub from: i64,
    pub to: i64,
    pub conds: Conds,
    pub keys: Names,
    pub aggs: Aggs,
    pub order: Option<u64>,
    pub limit: u32,
}

impl Query {
    pub fn copy(&self) -> Result<Query, AllocError>
        ensures { IfOk result (λ copy. copy ≡ self.now) }
    {
        Ok(Query {
            table: self.table.copy()?,
            from: self.from,
            to: self.to,
            conds: self.conds.copy()?,
            keys: self.keys.copy()?,
            aggs: self.aggs.copy()?,
            order: self.order,
            limit: self.limit,
        })
    }
}
