// The shut tables of a leaf: each is sealed and taken apart, as a drain needs it.
ghost use Rattle.std.specs.Prelude.{◌≡◌, ◌<◌, ◌++◌, ◌∷◌, [], length, None, true, false, OnOk, OnErr, vec_len, vec_capacity};
ghost use Rattle.std.specs.List.{AllByRecursion};
ghost use Rattle.row_blocks.specs.Held.{columns_count};
ghost use Rattle.table_state.specs.Tables.{IsParts, bare, columns_most};
ghost use Rattle.region_layout.specs.declared.drained.DrainTable.{DrainTable};
ghost use Rattle.leaf_machine.specs.Shut.{AreNoMore, AreTablesOf, drained_columns, table_of_parts};

use leaf_model::Text;
use region_layout::{DrainTable, DrainTables};
use std::alloc::{AllocError, Global};
use std::marker::Model;
use table_state::TableState;

/// The sealed tables, and maybe one more whose tail is not sealed. No table has a pending record.
#[derive(Drop)]
pub(crate) struct ShutTables {
    sealed: Vec<DrainTable>,
    last: Option<TableState>,
}

impl Model for ShutTables {
    ghost use Rattle.std.specs.Prelude.{◌≡◌, ◌++◌, None, map, IfSome};
    ghost use Rattle.std.specs.List.{AllByRecursion};
    ghost use Rattle.table_state.specs.Tables.{IsParts};
    ghost use Rattle.region_layout.specs.declared.drained.DrainTable.{DrainTable};
    ghost use Rattle.leaf_machine.specs.Shut.{ShutState, drained_columns, drained_table, last_columns, last_table, is_there};

    ghost Value = { ShutState };

    ghost view = { λ t. record {
      names = map (λ (d : DrainTable). d.name) t.sealed.items;
      closed = map drained_table t.sealed.items ++ last_table t.last;
      columns = drained_columns t.sealed.items ++ last_columns t.last;
      waits = is_there t.last;
    } };

    ghost invariant = { λ t. AllByRecursion (λ (d : DrainTable). IsParts d.parts) t.sealed.items
        × IfSome t.last (λ last. last.pending ≡ None) };
}

impl ShutTables {
    pub fn new(alloc: Global) -> ShutTables
        ensures names { result.names ≡ [] }
        ensures closed { result.closed ≡ [] }
        ensures columns { result.columns ≡ [] }
        ensures waits { result.waits ≡ false }
    {
        ShutTables {
            sealed: Vec::new(alloc),
            last: None,
        }
    }

    /// The number of shut tables.
    pub fn len(&self) -> usize
        ensures { result ≡ length self.now.closed }
    {
        match &self.last {
            None => self.sealed.len(),
            Some(_) => self.sealed.len() + 1,
        }
    }

    /// Whether the last table is not sealed yet.
    pub fn waits(&self) -> bool
        ensures { result ≡ self.now.waits }
    {
        self.last.is_some()
    }

    /// Appends a table. All others are sealed.
    pub fn put(&mut self, table: TableState)
        requires sealed { self.old.waits ≡ false }
        requires taken { table.pending ≡ None }
        ensures names { self.new.names ≡ self.old.names }
        ensures closed { self.new.closed ≡ self.old.closed ++ bare table ∷ [] }
        ensures columns { self.new.columns ≡ self.old.columns ++ columns_most table.store ∷ [] }
        ensures waits { self.new.waits ≡ true }
    {
        self.last = Some(table);
    }

    /// Seals the tail of the last table, which has this name. Without memory it stays as it is.
    pub fn seal(&mut self, name: &Text) -> Result<(), AllocError>
        requires waits { self.old.waits ≡ true }
        ensures closed { self.new.closed ≡ self.old.closed }
        ensures columns { AreNoMore self.new.columns self.old.columns }
        ensures done { OnOk result ((self.new.names ≡ self.old.names ++ name.now ∷ []) × (self.new.waits ≡ false)) }
        ensures failed { OnErr result ((self.new.names ≡ self.old.names) × (self.new.waits ≡ true)) }
    {
        let name = name.copy()?;
        self.sealed.reserve(1)?;
        let Some(mut table) = self.last.take() else {
            unreachable!();
        };
        if table.seal_tail().is_err() {
            self.last = Some(table);
            return Err(AllocError);
        }
        keep(&mut self.sealed, name, table);
        Ok(())
    }

    /// All tables, as a drain takes them.
    pub fn into_tables(self) -> DrainTables
        requires sealed { self.waits ≡ false }
        ensures are { AreTablesOf self.names self.closed result }
        ensures columns { drained_columns result ≡ self.columns }
        ensures parts { AllByRecursion (λ (t : DrainTable). IsParts t.parts) result }
    {
        DrainTables::of(self.sealed)
    }

    /// The tables that a drain gave back.
    pub fn of(tables: DrainTables) -> ShutTables
        requires parts { AllByRecursion (λ (t : DrainTable). IsParts t.parts) tables }
        ensures are { AreTablesOf result.names result.closed tables }
        ensures columns { result.columns ≡ drained_columns tables }
        ensures waits { result.waits ≡ false }
    {
        ShutTables {
            sealed: tables.into_inner(),
            last: None,
        }
    }
}

// Appends a table with an empty tail. There is room for it.
#[tactic(auto, using(crate::proofs::ShutLists::sealed_columns))]
fn keep(sealed: &mut Vec<DrainTable>, name: Text, table: TableState)
    requires room { vec_len sealed.old < vec_capacity sealed.old }
    requires taken { table.pending ≡ None }
    requires tail { table.store.tail ≡ [] }
    ensures { (kept : DrainTable) × (sealed.new.items ≡ sealed.old.items ++ kept ∷ []) × (kept.name ≡ name)
        × (table_of_parts kept.parts ≡ bare table)
        × (columns_count kept.parts.blocks ≡ columns_most table.store) × IsParts kept.parts }
{
    let kept = DrainTable {
        name,
        parts: table.into_parts(),
    };
    match sealed.push(kept) {
        Ok(()) => {}
        Err(_) => unreachable!(),
    }
}
