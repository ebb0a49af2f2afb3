// The steward's seats at the tables of a leaf.
ghost use Rattle.std.specs.Prelude.{◌≡◌, ◌<◌, ◌≤◌, ◌+◌, ◌^◌, ℕ, List, length, map, slice_get, Some, None, IfSome, IfNone, IfOk, OnOk, IsOk};
ghost use Rattle.leaf_history.specs.History.{LegalFrom};
ghost use Rattle.region_layout.specs.Names.{AreNames};
ghost use Rattle.turnstile.specs.Seats.{IsSeatOf, LearnsOthers, SeesAlso};
ghost use Rattle.leaf_table.specs.Turns.{Shared, is_founded, start_of};
ghost use Rattle.leaf_table.specs.Calls.{SeatView, base_seen, name_of, seen_of, IsFresh, IsWorn};
ghost use Rattle.leaf_steward.specs.Seated.{AreAlike, AreSeated, AtEach, AtPlace, IsUnused, with_seat};
ghost use Rattle.leaf_steward.specs.Making.{WornAt};

use leaf_model::Names;
use leaf_table::{Seat, SharedTable, WORN};
use std::alloc::AllocError;
use std::marker::Model;

/// The names of a leaf's tables, the tables in that order, and the steward's seat at each. Contracts see them as lists.
#[derive(Drop)]
pub struct Seats<'t> {
    pub(crate) names: Names,
    pub(crate) tables: &'t [SharedTable],
    pub(crate) seats: Vec<Seat>,
}

impl<'t> Model for Seats<'t> {
    ghost use Rattle.leaf_steward.specs.Seated.{Seated, AreSeated};

    ghost Value = { Seated };

    ghost view = { λ s. record { names = s.names; tables = s.tables.now; seats = s.seats.items } };

    ghost invariant = { λ s. AreSeated (record { names = s.names; tables = s.tables.now; seats = s.seats.items }) };
}

impl<'t> Seats<'t> {
    /// The unused seats of a steward, at shut tables of these names.
    pub fn new(names: Names, tables: &'t [SharedTable], seats: Vec<Seat>) -> Seats<'t>
        requires named { AreNames names }
        requires names { map name_of tables.now ≡ names }
        requires count { length seats.items ≡ length tables.now }
        requires unused { AtEach (λ place t v. IsUnused t v)
            (record { names = names; tables = tables.now; seats = seats.items }) }
        requires alike { AreAlike (record { names = names; tables = tables.now; seats = seats.items }) }
        ensures { result ≡ record { names = names; tables = tables.now; seats = seats.items } }
    {
        Seats {
            names,
            tables,
            seats,
        }
    }

    /// No-op; states the invariant of a leaf's seats.
    pub fn sits(&self)
        ensures { AreSeated self.now }
    {
        let _names = &self.names;
    }

    /// The names of the tables.
    pub fn names(&self) -> &Names
        ensures { result.now ≡ self.now.names }
    {
        &self.names
    }

    /// The number of tables: 1 to 16.
    pub fn len(&self) -> u32
        ensures count { result ≡ length self.now.tables }
        ensures few { (0 < result) × (result ≤ 16) }
    {
        self.tables.len() as u32
    }

    /// The first table whose seat is worn, which means that it has seen 2^62 entries. None if no seat is worn.
    pub fn worn(&self) -> Option<u32>
        ensures some { IfSome result (λ place. (place < length self.now.tables) × WornAt self.now place
            × ((before : ℕ) (v : SeatView) → before < place → slice_get self.now.seats before ≡ Some v → IsFresh v)) }
        ensures none { IfNone result (AtEach (λ place t v. IsFresh v) self.now) }
    {
        for place in 0..self.len() {
            if self.seats[place as usize].seen() >= WORN {
                return Some(place);
            }
        }
        None
    }

    /// Lets the steward's seat at table `table` and a caller's seat learn what the other has seen. It makes no entry
    /// and takes no memory.
    pub fn meet(&mut self, table: u32, seat: &mut Seat) -> Result<(), AllocError>
        requires table { table < length self.old.tables }
        requires seat { AtPlace (λ t v. IsSeatOf seat.old t.site
            × LegalFrom (is_founded (base_seen t)) (start_of (base_seen t)) (seen_of seat.old)) self.old table }
        ensures learns { AtPlace (λ t v. (w : SeatView) × (self.new ≡ with_seat self.old table w)
            × SeesAlso v seat.old w × LearnsOthers v w
            × LegalFrom (is_founded (base_seen t)) (start_of (base_seen t)) (seen_of w)) self.old table }
        ensures seat { AtPlace (λ t v. IsSeatOf seat.new t.site × SeesAlso seat.old v seat.new
            × LearnsOthers seat.old seat.new
            × LegalFrom (is_founded (base_seen t)) (start_of (base_seen t)) (seen_of seat.new)) self.old table }
        ensures done { IsOk result }
    {
        let place = table as usize;
        self.tables[place].meet(&mut self.seats[place], seat)
    }
}
