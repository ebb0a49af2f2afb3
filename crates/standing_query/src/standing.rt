// The state of a standing query.
ghost use Rattle.std.specs.Prelude.{◌≡◌, ◌≢◌, ◌+◌, ◌||◌, true, false, List, [], IfOk, IfErr, IsOk, is_err};
ghost use Rattle.std.specs.List.{AllByRecursion};
ghost use Rattle.row_model.specs.declared.rows.Row.{Row};
ghost use Rattle.leaf_model.specs.Groups.{groups};
ghost use Rattle.row_model.specs.Values.{IsTime};
ghost use Rattle.standing_query.specs.Spread.{spread};
ghost use Rattle.standing_query.specs.States.{FedTo, IsSpread, Means, TakesMemory, is_end, is_idle};

use crate::fed::Fed;
use crate::parts::Parts;
use crate::spread::spread_of;
use crate::told::tell;
use leaf_model::{Groups, Query};
use std::alloc::{AllocError, Global};
use std::marker::Model;

/// A query that was declared once. Its state is fed the entries of its table's history in the order of their numbers. A
/// fresh state has the groups of the query's spread. A stale one has none: the table has to be asked for the spread
/// first.
#[derive(Drop)]
pub struct Standing {
    query: Query,
    spread: Query,
    upto: u64,
    stale: bool,
    parts: Parts,
}

impl Model for Standing {
    ghost use Rattle.std.specs.Vec.{vec_capacity};
    ghost use Rattle.standing_query.specs.States.{StandingState};
    ghost use Rattle.standing_query.specs.Parts.{IsKept, all_joined};

    ghost Value = { StandingState };

    ghost view = { λ s. record {
      query = s.query;
      upto = s.upto;
      stale = s.stale;
      groups = all_joined s.parts.list.items;
    } };

    ghost invariant = { λ s. IsKept s.query s.spread s.stale s.parts.rows s.parts.list.items
        (vec_capacity s.parts.list) };
}

impl Standing {
    /// A stale state, after entry `upto`. Err if memory runs out.
    pub fn new(alloc: Global, query: Query, upto: u64) -> Result<Standing, AllocError>
        ensures { IfOk result (λ s. s ≡ record { query = query; upto = upto; stale = true; groups = [] }) }
    {
        let spread = spread_of(alloc, &query)?;
        let parts = Parts::new(alloc)?;
        Ok(Standing {
            query,
            spread,
            upto,
            stale: true,
            parts,
        })
    }

    /// The query to ask the table if the state is stale.
    pub fn spread(&self) -> &Query
        ensures { result.now ≡ spread self.now.query }
    {
        &self.spread
    }

    pub fn query(&self) -> &Query
        ensures { result.now ≡ self.now.query }
    {
        &self.query
    }

    pub fn stale(&self) -> bool
        ensures { result ≡ self.now.stale }
    {
        self.stale
    }

    /// The number of the last entry that was fed.
    pub fn upto(&self) -> u64
        ensures { result ≡ self.now.upto }
    {
        self.upto
    }

    /// Feeds the next entry. Err if memory runs out: the state is then stale.
    pub fn feed(&mut self, number: u64, fed: Fed) -> Result<(), AllocError>
        requires next { number ≡ self.old.upto + 1 }
        ensures upto { self.new.upto ≡ number }
        ensures query { self.new.query ≡ self.old.query }
        ensures stale { self.new.stale ≡ (self.old.stale || (is_err result || is_end fed)) }
        ensures none { self.new.stale ≡ true → self.new.groups ≡ [] }
        // If the state is still fresh, it has the rows after the entry.
        ensures fed { (rows now : List Row) → Means self.old rows → FedTo fed rows now → self.new.stale ≡ false
            → Means self.new now }
        ensures idle { is_idle fed ≡ true → self.new.groups ≡ self.old.groups }
        ensures memory { IfErr result (λ _. (self.old.stale ≡ false) × TakesMemory fed) }
    {
        self.upto = number;
        if self.stale {
            return Ok(());
        }
        match self.parts.go_on(&self.spread, fed) {
            Ok(known) => {
                if known {
                    return Ok(());
                }
                self.stale = true;
                self.parts.clear();
                Ok(())
            }
            Err(error) => {
                self.stale = true;
                self.parts.clear();
                Err(error)
            }
        }
    }

    /// Skips the entries up to `upto`. A stale state needs none of them.
    pub fn pass(&mut self, upto: u64)
        requires stale { self.old.stale ≡ true }
        ensures { self.new ≡ record self.old { upto = upto } }
    {
        self.upto = upto;
    }

    /// Makes the state fresh, by the table's answer, which is the next entry.
    pub fn settle(&mut self, number: u64, groups: Groups) -> Result<(), AllocError>
        requires next { number ≡ self.old.upto + 1 }
        requires spread { IsSpread self.old.query groups }
        ensures upto { self.new.upto ≡ number }
        ensures query { self.new.query ≡ self.old.query }
        ensures settled { (self.new.stale ≡ false) × (self.new.groups ≡ groups) }
        ensures memory { IsOk result }
    {
        self.upto = number;
        self.stale = false;
        self.parts.settle(groups);
        Ok(())
    }

    /// The groups of the query, by the rows of a fresh state. Err if memory runs out.
    pub fn groups(&self) -> Result<Groups, AllocError>
        requires fresh { self.now.stale ≡ false }
        ensures groups { (rows : List Row) → Means self.now rows → AllByRecursion (λ (row : Row). IsTime row.time) rows
            → IfOk result (λ gs. gs ≡ groups self.now.query rows) }
        ensures memory { IfErr result (λ _. self.now.groups ≢ []) }
    {
        let alloc = *self.parts.list.allocator();
        let names = &self.spread.keys.as_slice()[1..];
        tell(alloc, &self.query, names, self.parts.list.as_slice())
    }
}
