// A crew: leaves of a fleet, and how commands are played over them.
ghost use Rattle.std.specs.Prelude.{◌≡◌, ◌⊎◌, ◌*◌, ◌+◌, ◌<◌, ◌≤◌, ◌++◌, ℕ, List, Option, Some, true, length, map, take, drop, slice_get, vec_len, vec_capacity, IfOk, IsErr};
ghost use Rattle.std.specs.List.{AllByRecursion};
ghost use Rattle.region_layout.specs.Names.{AreNames};
ghost use Rattle.crash_moments.specs.Left.{NamedStates};
ghost use Rattle.leaf_table.specs.declared.base.TableBase.{TableBase};
ghost use Rattle.leaf_table.specs.Turns.{start_of};
ghost use Rattle.leaf_table.specs.Calls.{base_seen, name_of};
ghost use Rattle.leaf_table.specs.Fleet.{IsNewFleet};
ghost use Rattle.leaf_steward.specs.Seated.{AreAlike, AreFounded, AtEach};
ghost use Rattle.crash_states.specs.Beginning.{MayBegin};
ghost use Rattle.script_text.specs.Fits.{AreLeaves};
ghost use Rattle.printed_lines.specs.Lines.{IsOf};
ghost use Rattle.script_text.specs.Commands.{leaf_count};
ghost use Rattle.script_text.specs.Orders.{IsOrder};
ghost use Rattle.transcript.specs.Pieces.{place_among};
ghost use Rattle.leaf_moves.specs.Stage.{Leaf, LeafStands, seated_of};
ghost use Rattle.leaf_moves.specs.Holds.{Hold, AllMeet, HasMet, berth_in};
ghost use Rattle.leaf_moves.specs.Lanes.{CutsOff, TakesBack};
ghost use Rattle.player.specs.Asked.{AsksLeaf};
ghost use Rattle.player.specs.Crew.{AllPass, HasAll, HasLeaf, HasOrder, HasSeats, MayTakeBack, PlaysOrder, SameSeats, Spares, StillHas, is_set, new_holds, seated_at};

use crate::ask::place_of;
use crate::begin::{begin_all, copies};
use crate::members::Members;
use berth_face::{Berth, Gate};
use leaf_model::{Names, Query};
use leaf_table::{CallerSeats, FleetTables, Reply, StewardSeats};
use printed_lines::Line;
use rollover_watch::Watch;
use script_text::Order;
use std::alloc::{AllocError, Global};
use std::marker::Model;
use std::sync::Wait;
use std::thread::Threads;

/// The leaves of a fleet, each with its berth, and a callers' seat at each of their tables. It borrows the tables.
#[derive(Drop)]
pub struct Crew<'t, B: Berth> {
    members: Members<'t, B>,
}

impl<'t, B: Berth> Model for Crew<'t, B> {
    ghost use Rattle.player.specs.Crew.{CrewState};
    ghost use Rattle.player.specs.Members.{AreMembers, fleet_in, holds_in};

    ghost Value = { CrewState B };

    ghost view = { λ crew. record {
      fleet = fleet_in crew.members;
      tables = crew.members.tables.now;
      holds = holds_in crew.members;
    } };

    ghost invariant = { λ crew. AreMembers crew.members };
}

impl<'t, B: Berth> Crew<'t, B> {
    /// Makes the leaves of a new fleet, all down, each over one of the first berths, which it takes; the other berths
    /// stay. A leaf with founded tables must be able to begin over its berth, with their base. Err if memory runs out:
    /// all berths are as they were.
    pub fn new(
        alloc: Global,
        names: Names,
        machines: u32,
        per_machine: u32,
        tables: &'t FleetTables,
        stewards: StewardSeats,
        callers: CallerSeats,
        berths: &mut Vec<B>,
    ) -> Result<Crew<'t, B>, AllocError>
        requires named { AreNames names }
        requires leaves { AreLeaves machines per_machine }
        requires enough { machines * per_machine ≤ length berths.old.items }
        requires new { (base : ℕ → ℕ → Option TableBase)
            × IsNewFleet base (machines * per_machine) names 65536 tables.now stewards callers }
        requires alike { (leaf : ℕ) → leaf < machines * per_machine
            → AreAlike (seated_at names tables.now stewards leaf) }
        requires ready { (leaf : ℕ) (b : B) → leaf < machines * per_machine → slice_get berths.old.items leaf ≡ Some b
            → AreFounded (seated_at names tables.now stewards leaf)
            → (states : NamedStates) × MayBegin states (B.meaning b)
            × AtEach (λ place t v. start_of (base_seen t) ≡ states (name_of t))
            (seated_at names tables.now stewards leaf) }
        ensures fleet { IfOk result (λ crew. crew.fleet ≡ record {
          machines = machines;
          per_machine = per_machine;
          names = names;
        }) }
        ensures holds { IfOk result (λ crew. crew.holds ≡ new_holds 0 names tables.now stewards callers
            (take (machines * per_machine) berths.old.items)) }
        ensures berths { IfOk result (λ crew. berths.new.items ≡ drop (machines * per_machine) berths.old.items) }
        ensures room { vec_capacity berths.new ≡ vec_capacity berths.old }
        ensures stands { IfOk result (λ crew. (leaf : ℕ) (x : Hold B) (l : Leaf) (b : B) (states : NamedStates)
            → slice_get crew.holds leaf ≡ Some x → x.held ≡ Some (l, b) → AreFounded (seated_of l)
            → MayBegin states (B.meaning b)
            → AtEach (λ place t v. start_of (base_seen t) ≡ states (name_of t)) (seated_of l)
            → LeafStands states l (B.meaning b)) }
        ensures all { IfOk result (λ crew. HasAll crew.fleet crew.holds) }
        ensures no_memory { IsErr result → berths.new.items ≡ berths.old.items }
    {
        let count = machines * per_machine;
        let copies = copies(alloc, &names, count)?;
        let mut leaves = Vec::with_capacity(alloc, count as usize)?;
        begin_all(
            &mut leaves,
            &names,
            copies,
            tables,
            stewards.into_inner(),
            berths,
        );
        let members = Members {
            names,
            machines,
            per_machine,
            tables,
            leaves,
            rows: callers.into_inner(),
        };
        Ok(Crew { members })
    }

    /// The number of tables of each leaf.
    pub fn table_count(&self) -> u32
        ensures { result ≡ length self.now.fleet.names }
    {
        self.members.names.as_slice().len() as u32
    }

    /// The number of leaves.
    pub fn leaf_count(&self) -> u32
        ensures { result ≡ leaf_count self.now.fleet }
    {
        self.members.machines * self.members.per_machine
    }

    /// The index of the first table with that name; the number of tables if there is none.
    pub fn place_of(&self, table: &str) -> u32
        ensures { result ≡ place_among table.now self.now.fleet.names }
    {
        place_of(&self.members.names, table)
    }

    /// Plays an order. Gives the lines that it prints. Err is want of memory: the order was played, and only its
    /// lines are lost; but a query or a tail may then also have asked no leaf.
    pub fn play<R: Wait + Threads + Sync, G: Gate>(
        &mut self,
        rt: &R,
        alloc: Global,
        gate: &G,
        watches: &mut Vec<Box<dyn Watch>>,
        order: Order,
    ) -> Result<Vec<Line>, AllocError>
        requires may { IsOrder (leaf_count self.old.fleet) self.old.fleet.names order }
        requires has { HasOrder self.old.fleet self.old.holds order }
        ensures plays { PlaysOrder B.meaning self.old.fleet order self.old.holds
            (map (λ watch. held watch) watches.old.items) result self.new.holds
            (map (λ watch. held watch) watches.new.items)
            ⊎ (IsErr result × (self.new.holds ≡ self.old.holds)
            × (map (λ watch. held watch) watches.new.items ≡ map (λ watch. held watch) watches.old.items)) }
        ensures fleet { (self.new.fleet ≡ self.old.fleet) × (self.new.tables ≡ self.old.tables) }
        ensures still { StillHas self.old.holds self.new.holds }
        ensures time { AllPass B.meaning self.old.holds self.new.holds }
        ensures lines_fit { IfOk result (λ lines. AllByRecursion (IsOf self.old.fleet.names) lines.items) }
    {
        self.members.play(rt, alloc, gate, watches, order)
    }

    /// Asks that table of one leaf. Gives its line, and the reply.
    pub fn ask_leaf<R: Wait + Threads + Sync, G: Gate>(
        &mut self,
        rt: &R,
        gate: &G,
        leaf: u32,
        table: u32,
        query: &Query,
    ) -> (Line, Reply)
        requires leaf { leaf < leaf_count self.old.fleet }
        requires table { table < length self.old.fleet.names }
        requires has { HasSeats self.old.holds table }
        ensures asks { AsksLeaf B.meaning self.old.fleet.names leaf table query.now self.old.holds result.0 result.1
            self.new.holds }
        ensures fleet { (self.new.fleet ≡ self.old.fleet) × (self.new.tables ≡ self.old.tables) }
        ensures still { StillHas self.old.holds self.new.holds }
        ensures time { AllPass B.meaning self.old.holds self.new.holds }
    {
        self.members.ask_leaf(rt, gate, leaf, table, query)
    }

    /// Lets the seats of each leaf meet.
    pub fn meet_all(&mut self)
        requires all { HasAll self.old.fleet self.old.holds }
        ensures met { AllMeet B.meaning self.old.holds self.new.holds }
        ensures fleet { (self.new.fleet ≡ self.old.fleet) × (self.new.tables ≡ self.old.tables) }
        ensures still { StillHas self.old.holds self.new.holds }
        ensures time { AllPass B.meaning self.old.holds self.new.holds }
        ensures spares { (table n : ℕ) → Spares self.old.holds table n → Spares self.new.holds table n }
    {
        self.members.meet_all();
    }

    /// The least number of own ids of the callers' seats at that table.
    pub fn spare(&self, table: u32) -> u64
        ensures { Spares self.now.holds table result }
    {
        self.members.spare(table)
    }

    /// Cuts off, for a lane, one id of the seat at each leaf of each marked table, and each marked leaf. Err if memory
    /// runs out: nothing was cut off.
    pub fn cut_off(
        &mut self,
        alloc: Global,
        tables: &[bool],
        leaves: &[bool],
    ) -> Result<Crew<'t, B>, AllocError>
        requires counts { (length tables.now ≡ length self.old.fleet.names)
            × (length leaves.now ≡ leaf_count self.old.fleet) }
        requires seats { (table : ℕ) → is_set tables.now table ≡ true → HasSeats self.old.holds table
            × Spares self.old.holds table 2 }
        requires held { (leaf : ℕ) → is_set leaves.now leaf ≡ true → HasLeaf self.old.holds leaf }
        ensures cut { IfOk result (λ off. CutsOff (is_set tables.now) (is_set leaves.now) self.old.holds off.holds
            self.new.holds) }
        ensures off { IfOk result (λ off. (off.fleet ≡ self.old.fleet) × (off.tables ≡ self.old.tables)) }
        ensures fleet { (self.new.fleet ≡ self.old.fleet) × (self.new.tables ≡ self.old.tables) }
        ensures refused { IsErr result → self.new.holds ≡ self.old.holds }
    {
        let members = self.members.cut_off(alloc, tables, leaves)?;
        Ok(Crew { members })
    }

    /// Takes back the seats and leaves of a lane. Callers' seats meet and are joined. The seats of each leaf that comes
    /// back meet.
    pub fn take_back(&mut self, other: Crew<'t, B>)
        requires may { MayTakeBack self.old other }
        ensures back { TakesBack B.meaning self.old.holds other.entry.holds self.new.holds }
        ensures seats { SameSeats self.old.holds self.new.holds }
        ensures fleet { (self.new.fleet ≡ self.old.fleet) × (self.new.tables ≡ self.old.tables) }
    {
        self.members.take_back(other.members);
    }

    /// Lets all seats meet a last time, and puts the berths before the others, in the order of the leaves.
    pub fn abandon(self, berths: &mut Vec<B>)
        requires all { HasAll self.fleet self.holds }
        requires room { length self.holds + vec_len berths.old ≤ vec_capacity berths.old }
        ensures met { (leaf : ℕ) (x : Hold B) → slice_get self.entry.holds leaf ≡ Some x → HasMet B.meaning x }
        ensures berths { (own : List B) × (map Some own ≡ map (λ (x : Hold B). berth_in x) self.entry.holds)
            × (berths.new.items ≡ own ++ berths.old.items) }
    {
        self.members.abandon(berths)
    }
}
