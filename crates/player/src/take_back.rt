// What a crew takes back from a lane.
ghost use Rattle.std.specs.Prelude.{◌≡◌, ◌⊎◌, ◌<◌, ◌≤◌, ℕ, Option, Some, None, length, slice_get};
ghost use Rattle.turnstile.specs.Seats.{IsSeatOf};
ghost use Rattle.leaf_table.specs.Lists.{lists_in, row};
ghost use Rattle.script_text.specs.Commands.{leaf_count};
ghost use Rattle.leaf_moves.specs.Holds.{Hold};
ghost use Rattle.leaf_moves.specs.Lanes.{JoinsTo, TakesBack};
ghost use Rattle.leaf_deeds.specs.declared.leaf.OneLeaf.{OneLeaf};
ghost use Rattle.player.specs.Crew.{HasSeats, SameSeats};
ghost use Rattle.leaf_deeds.specs.Held.{berth_of, leaf_state};
ghost use Rattle.player.specs.Stage.{held_of};
ghost use Rattle.player.specs.Members.{AreMembers, IsLeafOf, SameFleet, fleet_in, holds_in};
ghost use Rattle.player.specs.Returning.{JoinsFrom, LeafBack, LeavesBack, MayJoin, RowsJoined};

use crate::members::Members;
use crate::slots::put;
use berth_face::Berth;
use leaf_deeds::OneLeaf;
use leaf_table::{FleetTables, Seat, SharedTable};

impl<'t, B: Berth> Members<'t, B> {
    /// Takes back the seats and leaves of a lane. Callers' seats meet and are joined. The seats of each leaf that comes
    /// back meet.
    pub fn take_back(&mut self, other: Members<'t, B>)
        requires members { AreMembers self.old × AreMembers other }
        requires same { SameFleet self.old other }
        requires leaves { (leaf : ℕ) (x y : Hold B) → slice_get (holds_in self.old) leaf ≡ Some x
            → slice_get (holds_in other) leaf ≡ Some y → (x.held ≡ None) ⊎ (y.held ≡ None) }
        requires seats { (table : ℕ) → table < length self.old.names → HasSeats (holds_in self.old) table }
        ensures members { AreMembers self.new }
        ensures same { SameFleet self.old self.new }
        ensures back { TakesBack B.meaning (holds_in self.old) (holds_in other.entry) (holds_in self.new) }
        ensures seats { SameSeats (holds_in self.old) (holds_in self.new) }
    {
        let mut rows = other.rows;
        join_rows(self.tables, &mut self.rows, &mut rows);
        self.take_leaves(other.leaves);
    }

    /// Takes these leaves back, from the last to the first, each into its slot. The seats of each meet.
    pub fn take_leaves(&mut self, leaves: Vec<Option<OneLeaf<'t, B>>>)
        requires members { AreMembers self.old }
        requires count { length leaves.items ≡ leaf_count (fleet_in self.old) }
        requires free { (leaf : ℕ) (x : Hold B) (o : Option (OneLeaf B)) → slice_get (holds_in self.old) leaf ≡ Some x
            → slice_get leaves.items leaf ≡ Some o → (x.held ≡ None) ⊎ (held_of o ≡ None) }
        requires own { (leaf : ℕ) (one : OneLeaf B) → slice_get leaves.items leaf ≡ Some (Some one)
            → IsLeafOf self.old leaf one }
        ensures members { AreMembers self.new }
        ensures same { SameFleet self.old self.new }
        ensures back { LeavesBack B.meaning 0 leaves.entry.items (holds_in self.old) (holds_in self.new) }
        ensures seats { SameSeats (holds_in self.old) (holds_in self.new) }
    {
        let mut leaves = leaves;
        while let Some(slot) = leaves.pop() {
            self.take_slot(leaves.len() as u32, slot);
        }
        leaves.destroy_empty();
    }

    /// Takes leaf `number` back, if there is one.
    pub fn take_slot(&mut self, number: u32, slot: Option<OneLeaf<'t, B>>)
        requires members { AreMembers self.old }
        requires within { number < leaf_count (fleet_in self.old) }
        requires free { (x : Hold B) → slice_get (holds_in self.old) number ≡ Some x → (x.held ≡ None)
            ⊎ (held_of slot ≡ None) }
        requires own { (one : OneLeaf B) → slot ≡ Some one → IsLeafOf self.old number one }
        ensures members { AreMembers self.new }
        ensures same { SameFleet self.old self.new }
        ensures back { LeafBack B.meaning number (held_of slot.entry) (holds_in self.old) (holds_in self.new) }
        ensures seats { SameSeats (holds_in self.old) (holds_in self.new) }
    {
        match slot {
            None => {}
            Some(leaf) => self.take_leaf(number, leaf),
        }
    }

    /// Takes leaf `number` back: puts it into its slot, and lets its seats meet.
    pub fn take_leaf(&mut self, number: u32, leaf: OneLeaf<'t, B>)
        requires members { AreMembers self.old }
        requires within { number < leaf_count (fleet_in self.old) }
        requires free { (x : Hold B) → slice_get (holds_in self.old) number ≡ Some x → x.held ≡ None }
        requires own { IsLeafOf self.old number leaf }
        ensures members { AreMembers self.new }
        ensures same { SameFleet self.old self.new }
        ensures back { LeafBack B.meaning number (Some (leaf_state leaf.entry, berth_of leaf.entry)) (holds_in self.old)
            (holds_in self.new) }
        ensures seats { SameSeats (holds_in self.old) (holds_in self.new) }
    {
        put(&mut self.leaves[number as usize], leaf);
        self.meet_leaf(number);
    }
}

// Joins the seats of a lane with those of the crew, table by table.
fn join_rows(tables: &FleetTables, rows: &mut Vec<Vec<Seat>>, others: &mut Vec<Vec<Seat>>)
    requires counts { (length others.old.items ≡ length rows.old.items) × (length rows.old.items ≤ 16) }
    requires may { (table : ℕ) → table < length rows.old.items
        → MayJoin tables.now table (row (lists_in rows.old.items) table) (row (lists_in others.old.items) table) }
    ensures joins { RowsJoined (length rows.old.items) (lists_in rows.old.items) (lists_in others.old.items)
        (lists_in rows.new.items) (lists_in others.new.items) }
{
    for table in 0..rows.len() {
        join_row(tables, table as u32, &mut rows[table], &mut others[table]);
    }
}

// Joins the seats at one table, from the last to the first.
fn join_row(tables: &FleetTables, table: u32, seats: &mut Vec<Seat>, others: &mut Vec<Seat>)
    requires may { MayJoin tables.now table seats.old.items others.old.items }
    ensures joins { JoinsFrom 0 seats.old.items others.old.items seats.new.items }
{
    while let Some(other) = others.pop() {
        let leaf = others.len();
        let shared = &tables.leaf(leaf as u32)[table as usize];
        join_seat(shared, &mut seats[leaf], other);
    }
}

// Lets two seats meet, and joins the second to the first.
fn join_seat(shared: &SharedTable, seat: &mut Seat, other: Seat)
    requires seat { IsSeatOf seat.old shared.now.site }
    requires other { IsSeatOf other shared.now.site }
    ensures joins { JoinsTo seat.old other seat.new }
{
    let mut other = other;
    match shared.meet(seat, &mut other) {
        Ok(()) => {}
        Err(_) => unreachable!(),
    }
    let _number = other.seen();
    shared.join(seat, other);
}
