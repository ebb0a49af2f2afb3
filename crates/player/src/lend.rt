// What a crew lends to a lane.
ghost use Rattle.std.specs.Prelude.{◌≡◌, ◌<◌, ◌≤◌, ◌++◌, ◌∷◌, ◌+◌, ℕ, Option, Some, None, true, [], length, slice_get, vec_len, vec_capacity, IfOk, IsErr, MatchBool};
ghost use Rattle.turnstile.specs.Seats.{IsSeatOf, given, keeps_all_but};
ghost use Rattle.leaf_table.specs.Lists.{lists_in, row};
ghost use Rattle.script_text.specs.Commands.{leaf_count};
ghost use Rattle.leaf_moves.specs.Lanes.{CutsOff};
ghost use Rattle.player.specs.Crew.{Spares, is_set};
ghost use Rattle.player.specs.Members.{AreMembers, SameFleet, fleet_in, holds_in};
ghost use Rattle.player.specs.Lending.{AreRoomy, MaySplit, RowSplits, RowsSplit, SlotSplits, SlotsSplit, SplitsFirst};

use crate::members::Members;
use berth_face::Berth;
use leaf_deeds::OneLeaf;
use leaf_table::{FleetTables, Seat, SharedTable};
use std::alloc::{AllocError, Global};

impl<'t, B: Berth> Members<'t, B> {
    /// Cuts off one id of the seat at each leaf of each marked table, and each marked leaf. Err if memory runs out:
    /// nothing was cut off.
    pub fn cut_off(
        &mut self,
        alloc: Global,
        tables: &[bool],
        leaves: &[bool],
    ) -> Result<Members<'t, B>, AllocError>
        requires members { AreMembers self.old }
        requires counts { (length tables.now ≡ length self.old.names)
            × (length leaves.now ≡ leaf_count (fleet_in self.old)) }
        requires spares { (table : ℕ) → is_set tables.now table ≡ true → Spares (holds_in self.old) table 2 }
        ensures cut { IfOk result (λ off. CutsOff (is_set tables.now) (is_set leaves.now) (holds_in self.old)
            (holds_in off) (holds_in self.new)) }
        ensures off { IfOk result (λ off. AreMembers off × SameFleet self.old off) }
        ensures members { AreMembers self.new }
        ensures same { SameFleet self.old self.new }
        ensures refused { IsErr result → holds_in self.new ≡ holds_in self.old }
    {
        let names = self.names.copy()?;
        let mut rows = rooms(alloc, tables, leaves.len())?;
        let mut slots = Vec::with_capacity(alloc, leaves.len())?;
        split_rows(self.tables, tables, &mut self.rows, &mut rows);
        split_slots(leaves, &mut self.leaves, &mut slots);
        Ok(Members {
            names,
            machines: self.machines,
            per_machine: self.per_machine,
            tables: self.tables,
            leaves: slots,
            rows,
        })
    }
}

// An empty list for each table, with room for `count` seats if the table is marked.
fn rooms(alloc: Global, marks: &[bool], count: usize) -> Result<Vec<Vec<Seat>>, AllocError>
    ensures { IfOk result (λ rows. (length rows.items ≡ length marks.now)
        × AreRoomy (is_set marks.now) count rows.items) }
{
    let mut rows = Vec::with_capacity(alloc, marks.len())?;
    for table in 0..marks.len() {
        rows.push(Vec::with_capacity(alloc, room_if(marks[table], count))?)?;
    }
    Ok(rows)
}

// The count, if it is needed.
fn room_if(needed: bool, count: usize) -> usize
    ensures { needed ≡ true → count ≤ result }
{
    if needed { count } else { 0 }
}

// Cuts off one id of each seat at each marked table.
fn split_rows(
    tables: &FleetTables,
    marks: &[bool],
    rows: &mut Vec<Vec<Seat>>,
    off: &mut Vec<Vec<Seat>>,
)
    requires counts { (length marks.now ≡ length rows.old.items) × (length off.old.items ≡ length rows.old.items) }
    requires few { length marks.now ≤ 16 }
    requires may { (table : ℕ) → is_set marks.now table ≡ true
        → MaySplit tables.now table (row (lists_in rows.old.items) table) }
    requires room { AreRoomy (is_set marks.now) (length tables.now) off.old.items }
    ensures splits { RowsSplit (length marks.now) (is_set marks.now) (lists_in rows.old.items) (lists_in off.new.items)
        (lists_in rows.new.items) }
{
    for table in 0..marks.len() {
        split_row_if(
            marks[table],
            tables,
            table as u32,
            &mut rows[table],
            &mut off[table],
        );
    }
}

// Cuts off one id of each seat at a table, if it is needed.
fn split_row_if(
    needed: bool,
    tables: &FleetTables,
    table: u32,
    seats: &mut Vec<Seat>,
    off: &mut Vec<Seat>,
)
    requires may { needed ≡ true → MaySplit tables.now table seats.old.items }
    requires none { off.old.items ≡ [] }
    requires room { needed ≡ true → length tables.now ≤ vec_capacity off.old }
    ensures splits { RowSplits needed seats.old.items off.new.items seats.new.items }
{
    if needed {
        split_row(tables, table, seats, off);
    }
}

// Cuts off one id of each seat at a table.
fn split_row(tables: &FleetTables, table: u32, seats: &mut Vec<Seat>, off: &mut Vec<Seat>)
    requires may { MaySplit tables.now table seats.old.items }
    requires none { off.old.items ≡ [] }
    requires room { length seats.old.items ≤ vec_capacity off.old }
    ensures splits { SplitsFirst (length seats.old.items) seats.old.items off.new.items seats.new.items }
{
    for leaf in 0..seats.len() {
        let shared = &tables.leaf(leaf as u32)[table as usize];
        let cut = split_seat(shared, &mut seats[leaf]);
        put_behind(off, cut);
    }
}

// Cuts off one id of a seat.
fn split_seat(shared: &SharedTable, seat: &mut Seat) -> Seat
    requires seat { IsSeatOf seat.old shared.now.site }
    requires share { 1 < seat.old.share }
    ensures off { result ≡ given 1 seat.old }
    ensures rest { seat.new ≡ keeps_all_but 1 seat.old }
{
    match shared.split(seat, 1) {
        Ok(cut) => cut,
        Err(_) => unreachable!(),
    }
}

// Takes each marked leaf out of its slot.
fn split_slots<T>(marks: &[bool], slots: &mut Vec<Option<T>>, off: &mut Vec<Option<T>>)
    requires count { length marks.now ≡ length slots.old.items }
    requires none { off.old.items ≡ [] }
    requires room { length marks.now ≤ vec_capacity off.old }
    ensures splits { SlotsSplit (length marks.now) (is_set marks.now) slots.old.items off.new.items slots.new.items }
{
    for number in 0..marks.len() {
        let cut = split_slot(marks[number], &mut slots[number]);
        put_behind(off, cut);
    }
}

// Takes the value out of a slot, if it is needed.
fn split_slot<T>(needed: bool, slot: &mut Option<T>) -> Option<T>
    ensures { SlotSplits needed slot.old result slot.new }
{
    if needed { slot.take() } else { None }
}

// Appends an item. There is room for it.
fn put_behind<T>(items: &mut Vec<T>, item: T)
    requires room { vec_len items.old < vec_capacity items.old }
    ensures items { items.new.items ≡ items.old.items ++ item ∷ [] }
    ensures len { vec_len items.new ≡ vec_len items.old + 1 }
    ensures room { vec_capacity items.old ≤ vec_capacity items.new }
{
    match items.push(item) {
        Ok(()) => {}
        Err(_) => unreachable!(),
    }
}
