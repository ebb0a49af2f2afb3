// The tables of a leaf.
ghost use Rattle.std.specs.Prelude.{◌≡◌, map};
ghost use Rattle.table_state.specs.Tables.{Table, bare, columns_most};

use crate::table::TableState;
use std::marker::Model;

/// Tables, in the order of their names. Contracts see the contents of each and a bound on its columns, but not how its
/// rows stand.
#[derive(Drop)]
pub struct Tables {
    inner: Vec<TableState>,
}

impl Model for Tables {
    ghost use Rattle.std.specs.Prelude.{map};
    ghost use Rattle.table_state.specs.Tables.{HeldTables, Table, bare, columns_most};

    ghost Value = { HeldTables };

    ghost view = { λ tables. record {
      each = map bare tables.inner.items;
      columns = map (λ (t : Table). columns_most t.store) tables.inner.items;
    } };
}

impl Tables {
    pub fn of(inner: Vec<TableState>) -> Tables
        ensures each { result.each ≡ map bare inner.items }
        ensures columns { result.columns ≡ map (λ (t : Table). columns_most t.store) inner.items }
    {
        Tables { inner }
    }

    pub fn into_inner(self) -> Vec<TableState>
        ensures each { map bare result.items ≡ self.each }
        ensures columns { map (λ (t : Table). columns_most t.store) result.items ≡ self.columns }
    {
        self.inner
    }
}
