// The value behind the turnstile.
ghost use Rattle.std.specs.Prelude.{◌≡◌, ◌⊎◌, true, false, Some, None};
ghost use Rattle.std.specs.List.{AllByRecursion};
ghost use Rattle.row_model.specs.Values.{IsRow, IsTime};
ghost use Rattle.leaf_model.specs.declared.writes.Write.TheVariants as write;
ghost use Rattle.table_state.specs.Tables.{MayWrite};
ghost use Rattle.leaf_table.specs.declared.turns.TurnAnswer.TheVariants.{Noted};
ghost use Rattle.leaf_table.specs.Steps.{AddsTo, RemovesFrom, AsksOf, TakesFrom, Shuts};

use crate::asking::groups_of;
use crate::base::Origin;
use crate::shared_query::SharedQuery;
use crate::turns::{Turn, TurnAnswer};
use leaf_model::{Rows, Text};
use std::alloc::Global;
use std::marker::Brand;
use std::mem::replace;
use std::snapshot::Snapshot;
use std::sync::ledger::Blank;
use std::thread::Threads;
use table_state::{AddFault, TableState};
use turnstile::Object;

/// The object that a turnstile guards. It is empty while the table is shut: the steward then has its content.
#[derive(Drop)]
pub struct LeafTable {
    pub(crate) alloc: Global,
    pub(crate) name: Text,
    pub(crate) live: bool,
    pub(crate) table: TableState,
}

impl LeafTable {
    fn add(&mut self, rows: Rows) -> TurnAnswer
        requires may { self.old.live ≡ true → MayWrite self.old.name self.old.table }
        requires rows { AllByRecursion IsRow rows }
        ensures { AddsTo self.old rows result self.new }
    {
        if !self.live {
            return TurnAnswer::Shut;
        }
        match self.table.add(&self.name, rows) {
            Ok(added) => TurnAnswer::Added {
                kept: added.kept,
                late: added.late,
            },
            Err(AddFault::Full) => TurnAnswer::Full,
            Err(AddFault::NoMemory) => TurnAnswer::NoMemory,
        }
    }

    // Adds the copy of the rows. NoMemory if there is none.
    fn add_copy(&mut self, rows: Snapshot<Rows>, copy: Option<Rows>) -> TurnAnswer
        requires may { self.old.live ≡ true → MayWrite self.old.name self.old.table }
        requires rows { AllByRecursion IsRow rows.value }
        requires copy { (copy ≡ None) ⊎ (copy ≡ Some rows.value) }
        ensures { AddsTo self.old rows.value result self.new }
    {
        match copy {
            Some(copy) => self.add(copy),
            None if self.live => TurnAnswer::NoMemory,
            None => TurnAnswer::Shut,
        }
    }

    fn expire(&mut self, horizon: i64) -> TurnAnswer
        requires may { self.old.live ≡ true → MayWrite self.old.name self.old.table }
        requires horizon { IsTime horizon }
        ensures { RemovesFrom self.old (write.Expire horizon) result self.new }
    {
        if !self.live {
            return TurnAnswer::Shut;
        }
        match self.table.expire(&self.name, horizon) {
            Ok(rows) => TurnAnswer::Removed(rows),
            Err(_) => TurnAnswer::NoMemory,
        }
    }

    fn keep(&mut self, n: u64) -> TurnAnswer
        requires may { self.old.live ≡ true → MayWrite self.old.name self.old.table }
        ensures { RemovesFrom self.old (write.Keep n) result self.new }
    {
        if !self.live {
            return TurnAnswer::Shut;
        }
        match self.table.keep(&self.name, n) {
            Ok(rows) => TurnAnswer::Removed(rows),
            Err(_) => TurnAnswer::NoMemory,
        }
    }

    fn ask<R: Threads + Sync>(&self, rt: &R, copy: Option<SharedQuery>) -> TurnAnswer
        ensures { AsksOf self.now copy result }
    {
        if !self.live {
            return TurnAnswer::Shut;
        }
        let query = match copy {
            Some(query) => query,
            None => return TurnAnswer::NoMemory,
        };
        match groups_of::<Brand, R>(rt, self.alloc, &query, &self.table, Blank::new(1)) {
            Ok(groups) => TurnAnswer::Groups(groups),
            Err(_) => TurnAnswer::NoMemory,
        }
    }

    fn take(&mut self) -> TurnAnswer
        ensures { TakesFrom self.old result self.new }
    {
        let writes = self.table.writes();
        TurnAnswer::Took {
            writes,
            pending: self.table.take_pending(),
        }
    }

    fn shut(&mut self) -> TurnAnswer
        ensures { Shuts self.old result self.new }
    {
        self.live = false;
        let none = TableState::new(self.alloc);
        TurnAnswer::Closed(replace(&mut self.table, none))
    }

    fn open(&mut self, table: TableState) -> TurnAnswer
        ensures answer { result ≡ Noted }
        ensures value { self.new ≡ record self.old { live = true; table = table } }
    {
        self.live = true;
        self.table = table;
        TurnAnswer::Noted
    }
}

impl Object for LeafTable {
    type Call = Turn;

    type Reply = TurnAnswer;

    type Base = Origin;

    ghost use Rattle.leaf_table.specs.Turns.{LegalTurns, StandsFor, MayTurn};

    ghost legal = { λ b h. LegalTurns b.name.value b.base h };

    ghost stands = { λ b h v. StandsFor b.name.value b.base h v };

    ghost may = { λ b h by turn. MayTurn b.base h by turn };

    fn step<R: Threads + Sync>(&mut self, rt: &R, call: Turn, _number: u64) -> TurnAnswer {
        match call {
            Turn::Add(rows) => self.add(rows),
            Turn::AddCopy { rows, copy } => self.add_copy(rows, copy),
            Turn::Expire(horizon) => self.expire(horizon),
            Turn::Keep(n) => self.keep(n),
            Turn::Ask { query: _, copy } => self.ask(rt, copy),
            Turn::Take => self.take(),
            Turn::Flushed(_) => TurnAnswer::Noted,
            Turn::Shut => self.shut(),
            Turn::Done => TurnAnswer::Noted,
            Turn::Open { writes: _, table } => self.open(table),
        }
    }
}
