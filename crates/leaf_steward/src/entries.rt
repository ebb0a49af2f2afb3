// The entries of the steward, each with a note. None takes memory. Each carries the berth's clock at the call.
ghost use Rattle.std.specs.Prelude.{◌≡◌, ◌<◌, ◌≤◌, ◌+◌, ◌++◌, ◌∷◌, ℕ, List, [], length, drop, slice_get, Some, IfSome, IfNone, true};
ghost use Rattle.std.specs.List.{AllByRecursion};
ghost use Rattle.table_state.specs.Tables.{Table, added_count};
ghost use Rattle.leaf_history.specs.History as history;
ghost use Rattle.leaf_history.specs.History.{first_writes};
ghost use Rattle.leaf_table.specs.Turns.{Shared, is_founded, MayHandIn};
ghost use Rattle.leaf_table.specs.Calls.{SeatView, base_seen, state_seen, IsFresh, SeesOpen, SeesShut};
ghost use Rattle.leaf_words.specs.declared.note.Note.{Note};
ghost use Rattle.leaf_words.specs.declared.note.What.TheVariants as what;
ghost use Rattle.leaf_steward.specs.Seated.{AtEach, AtPlace, Spares};
ghost use Rattle.leaf_steward.specs.Making.{EachNoted, IsClosedNote, IsHandedNote, Makes, OneEntry, OpenedNotes, ShutsAt, TakesAt, WornAt};

use crate::notes::Notes;
use crate::seats::Seats;
use berth_face::{Berth, Gate};
use leaf_table::{ClosedTable, Taken};
use leaf_words::What;
use row_records::Pending;
use std::collections::VecDeque;
use std::sync::Wait;
use std::thread::Threads;
use table_state::{TableState, Tables};

impl<'t> Seats<'t> {
    /// Takes the writes of table `table` that were not taken, and notes it. Gives the number of accepted writes, and
    /// the record of the new ones. None if the seat has seen 2^62 entries: then no entry is made.
    pub fn take<R: Wait + Threads + Sync, B: Berth, G: Gate>(
        &mut self,
        rt: &R,
        table: u32,
        berth: &B,
        gate: &G,
        notes: &mut Notes,
    ) -> Option<(u64, Pending)>
        requires table { table < length self.old.tables }
        requires open_ { AtPlace SeesOpen self.old table }
        requires spares { AtPlace (Spares 1) self.old table }
        requires room { length notes.old < 32 }
        ensures took { IfSome result (λ r. (number : ℕ)
            × TakesAt (B.meaning berth.now).clock self.old table number r.0 r.1 self.new
            × (notes.new ≡ notes.old ++ record { table = table; number = number; what = what.Took r.0 } ∷ [])) }
        ensures worn { IfNone result (WornAt self.old table × (self.new ≡ self.old) × (notes.new ≡ notes.old)) }
    {
        let place = table as usize;
        let Taken::Took {
            number,
            writes,
            pending,
        } = self.tables[place].take(rt, &mut self.seats[place], berth, gate)
        else {
            return None;
        };
        notes.note(table, number, What::Took(writes));
        Some((writes, pending))
    }

    /// Notes that the disk has the first `writes` writes of the table, which the steward has taken.
    pub fn flushed<R: Wait + Threads + Sync, B: Berth, G: Gate>(
        &mut self,
        rt: &R,
        table: u32,
        writes: u64,
        berth: &B,
        gate: &G,
        notes: &mut Notes,
    )
        requires table { table < length self.old.tables }
        requires taken { AtPlace (λ t v. writes ≤ (state_seen (base_seen t) v).taken) self.old table }
        requires spares { AtPlace (Spares 1) self.old table }
        requires room { length notes.old < 32 }
        ensures { (number : ℕ) × OneEntry (B.meaning berth.now).clock self.old
            (record { table = table; number = number; what = what.Flushed writes }) self.new
            × (notes.new ≡ notes.old ++ record { table = table; number = number; what = what.Flushed writes } ∷ []) }
    {
        let place = table as usize;
        let number = self.tables[place].flushed(rt, &mut self.seats[place], writes, berth, gate);
        notes.note(table, number, What::Flushed(writes));
    }

    /// Shuts the table, and notes it. Gives its content with the record of the writes that were not taken, and the
    /// number of accepted writes.
    pub fn shut<R: Wait + Threads + Sync, B: Berth, G: Gate>(
        &mut self,
        rt: &R,
        table: u32,
        berth: &B,
        gate: &G,
        notes: &mut Notes,
    ) -> TableState
        requires table { table < length self.old.tables }
        requires open_ { AtPlace SeesOpen self.old table }
        requires spares { AtPlace (Spares 1) self.old table }
        requires room { length notes.old < 32 }
        ensures { (number : ℕ) × ShutsAt (B.meaning berth.now).clock self.old table number result.writes result self.new
            × (notes.new ≡ notes.old ++ record { table = table; number = number; what = what.Closed result.writes }
            ∷ []) }
    {
        let place = table as usize;
        let ClosedTable {
            number,
            writes,
            table: content,
        } = self.tables[place].shut(rt, &mut self.seats[place], berth, gate);
        notes.note(table, number, What::Closed(writes));
        content
    }

    /// Shuts each table from `first` on, notes each, and drops the content.
    pub fn shut_rest<R: Wait + Threads + Sync, B: Berth, G: Gate>(
        &mut self,
        rt: &R,
        first: u32,
        berth: &B,
        gate: &G,
        notes: &mut Notes,
    )
        requires first { first ≤ length self.old.tables }
        requires none { notes.old ≡ [] }
        requires open_ { AtEach (λ place t v. first ≤ place → SeesOpen t v) self.old }
        requires spares { AtEach (λ place t v. first ≤ place → Spares 1 t v) self.old }
        ensures made { Makes (B.meaning berth.now).clock (B.meaning berth.now).clock self.old notes.new self.new }
        ensures each { (count : ℕ) × (first + count ≡ length self.old.tables)
            × EachNoted IsClosedNote first count notes.new }
        ensures shut { AtEach (λ place t v. first ≤ place → SeesShut t v) self.new }
        ensures before { (place : ℕ) → place < first → slice_get self.new.seats place ≡ slice_get self.old.seats place }
    {
        for table in first..self.len() {
            self.shut(rt, table, berth, gate, notes);
        }
    }

    /// Notes each table as handed over.
    pub fn hand_over<R: Wait + Threads + Sync, B: Berth, G: Gate>(
        &mut self,
        rt: &R,
        berth: &B,
        gate: &G,
        notes: &mut Notes,
    )
        requires none { notes.old ≡ [] }
        requires shut { AtEach (λ place t v. SeesShut t v) self.old }
        requires spares { AtEach (λ place t v. Spares 1 t v) self.old }
        ensures made { Makes (B.meaning berth.now).clock (B.meaning berth.now).clock self.old notes.new self.new }
        ensures each { EachNoted IsHandedNote 0 (length self.old.tables) notes.new }
        ensures shut { AtEach (λ place t v. SeesShut t v) self.new }
    {
        for table in 0..self.len() {
            self.hand(rt, table, berth, gate, notes);
        }
    }

    /// Opens each table with its content, and notes it. No seat may be worn.
    pub fn open_all<R: Wait + Threads + Sync, B: Berth, G: Gate>(
        &mut self,
        rt: &R,
        tables: Tables,
        berth: &B,
        gate: &G,
        notes: &mut Notes,
    )
        requires none { notes.old ≡ [] }
        requires one { length tables.each ≡ length self.old.tables }
        requires shut { AtEach (λ place t v. SeesShut t v) self.old }
        requires fresh { AtEach (λ place t v. IsFresh v) self.old }
        requires content { (place : ℕ) (t : Shared) (v : SeatView) (table : Table)
            → slice_get self.old.tables place ≡ Some t → slice_get self.old.seats place ≡ Some v
            → slice_get tables.each place ≡ Some table
            → MayHandIn (is_founded (base_seen t)) (state_seen (base_seen t) v) table.writes table }
        requires columns { (place : ℕ) (t : Shared) (v : SeatView) (table : Table) (n : ℕ)
            → slice_get self.old.tables place ≡ Some t → slice_get self.old.seats place ≡ Some v
            → slice_get tables.each place ≡ Some table → slice_get tables.columns place ≡ Some n
            → is_founded (base_seen t) ≡ true
            → n ≤ (state_seen (base_seen t) v).spare
            + added_count (first_writes (state_seen (base_seen t) v) table.writes) }
        ensures made { Makes (B.meaning berth.now).clock (B.meaning berth.now).clock self.old notes.new self.new }
        ensures each { OpenedNotes 0 tables.each notes.new }
        ensures open_ { AtEach (λ place t v. SeesOpen t v) self.new }
        ensures spares { AtEach (λ place t v. Spares 1000 t v) self.new }
    {
        self.sits();
        let mut rest = VecDeque::from_vec(tables.into_inner());
        let mut table = 0;
        while let Some(content) = rest.pop_front() {
            self.open(rt, table, content, berth, gate, notes);
            table += 1;
        }
    }

    // Notes one table as handed over.
    fn hand<R: Wait + Threads + Sync, B: Berth, G: Gate>(
        &mut self,
        rt: &R,
        table: u32,
        berth: &B,
        gate: &G,
        notes: &mut Notes,
    )
        requires table { table < length self.old.tables }
        requires shut { AtPlace SeesShut self.old table }
        requires spares { AtPlace (Spares 1) self.old table }
        requires room { length notes.old < 32 }
        ensures entry { (number : ℕ) × OneEntry (B.meaning berth.now).clock self.old
            (record { table = table; number = number; what = what.Handed }) self.new
            × (notes.new ≡ notes.old ++ record { table = table; number = number; what = what.Handed } ∷ []) }
        ensures shut { AtPlace SeesShut self.new table }
    {
        let place = table as usize;
        let number = self.tables[place].done(rt, &mut self.seats[place], berth, gate);
        notes.note(table, number, What::Handed);
    }

    // Opens one table with its content, and notes it.
    fn open<R: Wait + Threads + Sync, B: Berth, G: Gate>(
        &mut self,
        rt: &R,
        table: u32,
        content: TableState,
        berth: &B,
        gate: &G,
        notes: &mut Notes,
    )
        requires table { table < length self.old.tables }
        requires shut { AtPlace SeesShut self.old table }
        requires fresh { AtPlace (λ t v. IsFresh v) self.old table }
        requires content { AtPlace (λ t v. MayHandIn (is_founded (base_seen t)) (state_seen (base_seen t) v)
            content.writes content) self.old table }
        requires room { length notes.old < 32 }
        ensures entry { (number : ℕ) × OneEntry (B.meaning berth.now).clock self.old
            (record { table = table; number = number; what = what.Opened content.writes }) self.new
            × (notes.new ≡ notes.old ++ record { table = table; number = number; what = what.Opened content.writes }
            ∷ []) }
        ensures open_ { AtPlace SeesOpen self.new table }
        ensures spares { AtPlace (Spares 1000) self.new table }
    {
        let place = table as usize;
        let writes = content.writes();
        match self.tables[place].reopen(rt, &mut self.seats[place], content, writes, berth, gate) {
            Ok(number) => notes.note(table, number, What::Opened(writes)),
            Err(_) => unreachable!(),
        }
    }
}
