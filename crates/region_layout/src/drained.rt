// The tables that go into a region or come out of it.
ghost use Rattle.std.specs.Prelude.{◌≡◌};

use leaf_model::Text;
use std::marker::Model;
use table_state::Parts;

/// A table of a drain: its name and what it hands over.
#[derive(Drop)]
pub struct DrainTable {
    pub name: Text,
    pub parts: Parts,
}

/// The tables of a drain in order. Contracts see them as the list.
#[derive(Drop)]
pub struct DrainTables {
    inner: Vec<DrainTable>,
}

impl Model for DrainTables {
    ghost use Rattle.std.specs.Prelude.{List};
    ghost use Rattle.region_layout.specs.declared.drained.DrainTable.{DrainTable};

    ghost Value = { List DrainTable };

    ghost view = { λ list. list.inner.items };
}

impl DrainTables {
    pub fn of(inner: Vec<DrainTable>) -> DrainTables
        ensures { result ≡ inner.items }
    {
        DrainTables { inner }
    }

    pub fn as_slice(&self) -> &[DrainTable]
        ensures { result.now ≡ self.now }
    {
        self.inner.as_slice()
    }

    pub fn into_inner(self) -> Vec<DrainTable>
        ensures { result.items ≡ self }
    {
        self.inner
    }
}
