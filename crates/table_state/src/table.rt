// One table: sealed blocks, and after them a tail of rows.
ghost use Rattle.std.specs.Prelude.{◌≡◌, ◌+◌, ◌≤◌, ◌<◌, ◌-◌, ◌^◌, [], None, length};
ghost use Rattle.std.specs.List.{AllByRecursion};
ghost use Rattle.leaf_model.specs.Lent.{lent_rows};
ghost use Rattle.row_model.specs.Values.{IsRow, IsTime};
ghost use Rattle.leaf_model.specs.Writes.{IsWrite};
ghost use Rattle.leaf_model.specs.declared.writes.Write.TheVariants.{Add, Expire, Keep};
ghost use Rattle.row_blocks.specs.Held.{rows_and_cells};
ghost use Rattle.table_state.specs.Tables.{added_by, bare, columns_most, empty_table, most_rows, replayed, Adds, IsParts, IsPartsOf, IsStored, MayWrite, Removes, Replays, Seals, Takes};

use crate::fault::{AddFault, Added};
use crate::front::{Cut, Live, count_live, cut_front, leave_live, recount};
use crate::held::drop_front;
use crate::parts::Parts;
use crate::sealing::{drop_runs, prepare, seal_behind};
use crate::tail::Tail;
use expiry::{cut_for, masks_and_cuts};
use leaf_model::{LentRows, Rows, Text, Write};
use row_blocks::Blocks;
use row_records::Pending;
use std::alloc::{AllocError, Global};
use std::marker::Model;
use std::mem::replace;

/// One table. Contracts see its contents, the number of accepted writes, the pending record, and how its rows stand in
/// blocks and tail.
#[derive(Drop)]
pub struct TableState {
    blocks: Blocks,
    skip: u32,
    ahead: u32,
    live: u64,
    tail: Tail,
    horizon: i64,
    writes: u64,
    pending: Pending,
}

impl Model for TableState {
    ghost use Rattle.std.specs.Prelude.{◌++◌};
    ghost use Rattle.table_state.specs.Tables.{Table};
    ghost use Rattle.table_state.specs.Stored.{AreAhead, StoreStands, sealed_rows};

    ghost Value = { Table };

    ghost view = { λ t. record {
      contents = record {
        rows = sealed_rows t.blocks t.skip t.horizon ++ t.tail;
        horizon = t.horizon;
      };
      writes = t.writes;
      pending = t.pending;
      store = record { blocks = t.blocks; skip = t.skip; tail = t.tail };
    } };

    ghost invariant = { λ t. StoreStands t.blocks t.skip t.tail t.horizon t.live
        × AreAhead t.ahead t.blocks t.skip t.horizon };
}

impl TableState {
    /// A table without a write.
    pub fn new(alloc: Global) -> TableState
        ensures { result ≡ empty_table }
    {
        TableState {
            blocks: Blocks::new(alloc),
            skip: 0,
            ahead: 0,
            live: 0,
            tail: Tail::new(alloc),
            horizon: 0,
            writes: 0,
            pending: Pending::new(alloc),
        }
    }

    /// Adds the rows that are not late. `table` is the name of the table, the same at each call. A refusal changes
    /// nothing.
    pub fn add(&mut self, table: &Text, rows: Rows) -> Result<Added, AddFault>
        requires may { MayWrite table.now self.old }
        requires rows { AllByRecursion IsRow rows }
        ensures does { Adds table.now self.old rows result self.new }
        ensures columns { columns_most self.new.store ≤ columns_most self.old.store + rows_and_cells rows }
    {
        let sealed = self.blocks.as_slice().len();
        let before = self.tail.len();
        let kept = prepare(
            self.live,
            &mut self.blocks,
            &mut self.tail,
            self.horizon,
            &rows.lend(),
        )?;
        let late = rows.len() as u64 - kept;
        if self.pending.push(table, &Write::Add(rows)).is_err() {
            self.blocks.truncate(sealed);
            self.tail.truncate(before);
            return Err(AddFault::NoMemory);
        }
        self.live += drop_runs(&mut self.tail);
        self.writes += 1;
        Ok(Added { kept, late })
    }

    /// Raises the horizon, if the new one is greater, and removes the rows below it. Gives their number. Err changes
    /// nothing.
    pub fn expire(&mut self, table: &Text, horizon: i64) -> Result<u64, AllocError>
        requires may { MayWrite table.now self.old }
        requires horizon { IsTime horizon }
        ensures does { Removes table.now self.old (Expire horizon) result self.new }
        ensures columns { columns_most self.new.store ≤ columns_most self.old.store }
    {
        let held = self.rows();
        self.pending.push(table, &Write::Expire(horizon))?;
        self.raise_horizon(horizon);
        Ok(held - self.rows())
    }

    /// Keeps the last n rows in order of arrival. Gives the number of rows that it removed. Err changes nothing.
    pub fn keep(&mut self, table: &Text, n: u64) -> Result<u64, AllocError>
        requires may { MayWrite table.now self.old }
        ensures does { Removes table.now self.old (Keep n) result self.new }
        ensures columns { columns_most self.new.store ≤ columns_most self.old.store }
    {
        let held = self.rows();
        self.pending.push(table, &Write::Keep(n))?;
        self.leave_last(n);
        Ok(held - self.rows())
    }

    /// Applies a write that the disk has already: it does not go to the pending record. A refusal changes nothing.
    pub fn replay(&mut self, write: Write) -> Result<(), AddFault>
        requires write { IsWrite write }
        requires room { self.old.writes < 2 ^ 64 - 1 }
        ensures does { Replays self.old write result self.new }
        ensures columns { columns_most self.new.store ≤ columns_most self.old.store + added_by write }
    {
        match write {
            Write::Add(rows) => self.replay_add(rows),
            Write::Expire(horizon) => {
                self.raise_horizon(horizon);
                Ok(())
            }
            Write::Keep(n) => {
                self.leave_last(n);
                Ok(())
            }
        }
    }

    fn replay_add(&mut self, rows: Rows) -> Result<(), AddFault>
        requires rows { AllByRecursion IsRow rows }
        requires room { self.old.writes < 2 ^ 64 - 1 }
        ensures does { Replays self.old (Add rows) result self.new }
        ensures columns { columns_most self.new.store ≤ columns_most self.old.store + rows_and_cells rows }
    {
        prepare(
            self.live,
            &mut self.blocks,
            &mut self.tail,
            self.horizon,
            &rows.lend(),
        )?;
        self.live += drop_runs(&mut self.tail);
        self.writes += 1;
        Ok(())
    }

    // Applies an expiry, without its record.
    fn raise_horizon(&mut self, horizon: i64)
        requires horizon { IsTime horizon }
        requires room { self.old.writes < 2 ^ 64 - 1 }
        ensures written { bare self.new ≡ replayed self.old (Expire horizon) }
        ensures fewer { length self.new.contents.rows ≤ length self.old.contents.rows }
        ensures few { length self.new.contents.rows ≤ most_rows }
        ensures columns { columns_most self.new.store ≤ columns_most self.old.store }
    {
        masks_and_cuts();
        let old = self.horizon;
        self.horizon = old.max(horizon);
        self.skip = leave_live(&mut self.blocks, self.skip, self.horizon);
        let counted = Live {
            all: self.live,
            ahead: self.ahead,
        };
        let live = recount(
            self.blocks.as_slice(),
            self.skip,
            self.horizon,
            old,
            counted,
        );
        self.live = live.all;
        self.ahead = live.ahead;
        self.tail.retain_from(self.horizon);
        self.writes += 1;
    }

    // Applies a keep, without its record.
    fn leave_last(&mut self, n: u64)
        requires { self.old.writes < 2 ^ 64 - 1 }
        ensures written { bare self.new ≡ replayed self.old (Keep n) }
        ensures fewer { length self.new.contents.rows ≤ length self.old.contents.rows }
        ensures few { length self.new.contents.rows ≤ most_rows }
        ensures columns { columns_most self.new.store ≤ columns_most self.old.store }
    {
        let gone = cut_for(self.live + self.tail.len() as u64, n);
        let first = gone.min(self.live);
        let cut = Cut {
            skip: self.skip,
            ahead: self.ahead,
        };
        let cut = cut_front(&mut self.blocks, cut, self.horizon, first);
        self.skip = cut.skip;
        self.ahead = cut.ahead;
        self.live -= first;
        drop_front(&mut self.tail, (gone - first) as usize);
        self.writes += 1;
    }

    /// The number of rows.
    pub fn rows(&self) -> u64
        ensures { result ≡ length self.now.contents.rows }
    {
        self.live + self.tail.len() as u64
    }

    /// The number of accepted writes.
    pub fn writes(&self) -> u64
        ensures { result ≡ self.now.writes }
    {
        self.writes
    }

    /// The least time that an added row may have.
    pub fn horizon(&self) -> i64
        ensures { result ≡ self.now.contents.horizon }
    {
        self.horizon
    }

    /// No-op; states the invariant: the rows and horizon are valid, and blocks and tail hold exactly the rows.
    pub fn stands(&self)
        ensures { IsStored self.now }
    {
        let _ = &self.tail;
    }

    /// The sealed blocks, in order of arrival.
    pub fn blocks(&self) -> &Blocks
        ensures { result.now ≡ self.now.store.blocks }
    {
        &self.blocks
    }

    /// The rows of the tail, in order of arrival.
    pub fn tail_rows(&self) -> LentRows<'_>
        ensures { lent_rows result ≡ self.now.store.tail }
    {
        self.tail.lend()
    }

    /// The number of rows that are cut off the first block.
    pub fn skip(&self) -> u32
        ensures { result ≡ self.now.store.skip }
    {
        self.skip
    }

    /// The number of blocks.
    pub fn sealed(&self) -> u64
        ensures { result ≡ length self.now.store.blocks }
    {
        self.blocks.as_slice().len() as u64
    }

    /// The number of rows of the tail.
    pub fn tail(&self) -> u32
        ensures { result ≡ length self.now.store.tail }
    {
        self.tail.len() as u32
    }

    /// Takes the pending record: the writes since it was last taken. It takes no memory.
    pub fn take_pending(&mut self) -> Pending
        ensures { Takes self.old result self.new }
    {
        let none = Pending::new(self.tail.allocator());
        replace(&mut self.pending, none)
    }

    /// Seals the tail into a block, unless it is empty. Err changes nothing.
    pub fn seal_tail(&mut self) -> Result<(), AllocError>
        ensures does { Seals self.old result self.new }
        ensures columns { columns_most self.new.store ≤ columns_most self.old.store }
    {
        if self.tail.len() == 0 {
            return Ok(());
        }
        seal_behind(&mut self.blocks, &self.tail)?;
        self.live += self.tail.len() as u64;
        self.tail.clear();
        Ok(())
    }

    /// Takes the table apart. No write is pending then, and the tail is empty.
    pub fn into_parts(self) -> Parts
        requires none { self.pending ≡ None }
        requires tail { self.store.tail ≡ [] }
        ensures of { IsPartsOf result self }
        ensures parts { IsParts result }
    {
        Parts {
            horizon: self.horizon,
            writes: self.writes,
            skip: self.skip,
            blocks: self.blocks,
        }
    }

    /// Makes a table of its parts, with no pending record. It takes no memory.
    pub fn from_parts(parts: Parts) -> TableState
        requires { IsParts parts }
        ensures of { IsPartsOf parts result }
        ensures pending { result.pending ≡ None }
    {
        let blocks = parts.blocks.into_inner();
        let alloc = *blocks.allocator();
        let live = count_live(blocks.as_slice(), parts.skip, parts.horizon);
        TableState {
            blocks: Blocks::of(blocks),
            skip: parts.skip,
            ahead: 0,
            live,
            tail: Tail::new(alloc),
            horizon: parts.horizon,
            writes: parts.writes,
            pending: Pending::new(alloc),
        }
    }
}
