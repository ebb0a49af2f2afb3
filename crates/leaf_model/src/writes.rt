// Writes: the changes of a table.
ghost use Rattle.std.specs.Prelude.{◌≡◌};

use crate::add_rows::Rows;
use std::marker::Model;

/// A change of a table: rows to add, a horizon below which rows expire, or how many of the last rows to keep.
#[derive(Drop)]
pub enum Write {
    Add(Rows),
    Expire(i64),
    Keep(u64),
}

/// Writes, the earliest first. Contracts see them as the list.
#[derive(Drop)]
pub struct Writes {
    inner: Vec<Write>,
}

impl Model for Writes {
    ghost use Rattle.std.specs.Prelude.{List};
    ghost use Rattle.leaf_model.specs.declared.writes.Write.{Write};

    ghost Value = { List Write };

    ghost view = { λ list. list.inner.items };
}

impl Writes {
    pub fn of(inner: Vec<Write>) -> Writes
        ensures { result ≡ inner.items }
    {
        Writes { inner }
    }

    pub fn as_slice(&self) -> &[Write]
        ensures { result.now ≡ self.now }
    {
        self.inner.as_slice()
    }

    pub fn into_inner(self) -> Vec<Write>
        ensures { result.items ≡ self }
    {
        self.inner
    }
}
