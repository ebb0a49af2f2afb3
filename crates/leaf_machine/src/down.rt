// A leaf at rest.
ghost use Rattle.std.specs.Prelude.{◌≡◌, ◌<◌, ℕ, List, length, map, Option, IsOk, IsTrue};
ghost use Rattle.leaf_model.specs.declared.writes.Write.{Write};
ghost use Rattle.row_records.specs.Records.{LogRecord};
ghost use Rattle.leaf_history.specs.History.{LegalFrom};
ghost use Rattle.region_layout.specs.Names.{AreNames};
ghost use Rattle.turnstile.specs.Seats.{IsSeatOf, LearnsOthers, SeesAlso};
ghost use Rattle.leaf_table.specs.Turns.{is_founded, start_of};
ghost use Rattle.leaf_table.specs.Calls.{base_seen, name_of, seen_of};
ghost use Rattle.crash_moments.specs.Left.{NamedStates};
ghost use Rattle.crash_states.specs.Standing.{Rests};
ghost use Rattle.leaf_steward.specs.Seated.{AreAlike, AreFounded, AtEach, AtPlace, IsUnused, watched_by, with_seat};
ghost use Rattle.crash_states.specs.Beginning.{MayBegin};

use berth_face::Berth;
use leaf_model::Names;
use leaf_steward::Seats;
use leaf_table::{Seat, SharedTable};
use std::alloc::AllocError;
use std::marker::Model;

/// A leaf at rest. It borrows its tables, which are all shut, and owns the steward's seats and the berth. Contracts see
/// the seats and the berth.
#[derive(Drop)]
pub struct Down<'t, B: Berth> {
    pub(crate) seats: Seats<'t>,
    pub(crate) berth: B,
}

impl<'t, B: Berth> Model for Down<'t, B> {
    ghost use Rattle.leaf_steward.specs.Seated.{Seated};
    ghost use Rattle.leaf_machine.specs.States.{IsDown};

    ghost Value = { Seated × B };

    ghost view = { λ leaf. (leaf.seats, leaf.berth) };

    ghost invariant = { λ leaf. IsDown leaf.seats (B.meaning leaf.berth) };
}

impl<'t, B: Berth> Down<'t, B> {
    /// A leaf at rest over shut tables, with unused seats of their steward. If the tables are founded, a leaf with
    /// their base has to be able to begin over the berth.
    pub fn new(
        names: Names,
        tables: &'t [SharedTable],
        stewards: Vec<Seat>,
        berth: B,
    ) -> Down<'t, B>
        requires named { AreNames names }
        requires names { map name_of tables.now ≡ names }
        requires count { length stewards.items ≡ length tables.now }
        requires unused { AtEach (λ place t v. IsUnused t v)
            (record { names = names; tables = tables.now; seats = stewards.items }) }
        requires alike { AreAlike (record { names = names; tables = tables.now; seats = stewards.items }) }
        requires ready { AreFounded (record { names = names; tables = tables.now; seats = stewards.items })
            → (base : NamedStates) × MayBegin base (B.meaning berth)
            × AtEach (λ place t v. start_of (base_seen t) ≡ base (name_of t))
            (record { names = names; tables = tables.now; seats = stewards.items }) }
        ensures leaf { result ≡ (record { names = names; tables = tables.now; seats = stewards.items }, berth) }
        ensures rests { (base : NamedStates) → AreFounded result.0 → MayBegin base (B.meaning berth)
            → AtEach (λ place t v. start_of (base_seen t) ≡ base (name_of t)) result.0
            → (least : List ℕ → List Write) × (next : Option LogRecord)
            × Rests (watched_by result.0) base least next (B.meaning result.1) }
    {
        let seats = Seats::new(names, tables, stewards);
        seats.sits();
        Down { seats, berth }
    }

    /// Lets the steward's seat at table `table` and a caller's seat learn what the other has seen. It makes no entry
    /// and takes no memory.
    pub fn meet(&mut self, table: u32, seat: &mut Seat) -> Result<(), AllocError>
        requires table { table < length self.old.0.tables }
        requires seat { AtPlace (λ t v. IsSeatOf seat.old t.site
            × LegalFrom (is_founded (base_seen t)) (start_of (base_seen t)) (seen_of seat.old)) self.old.0 table }
        ensures learns { AtPlace (λ t v. (w : _) × (self.new ≡ (with_seat self.old.0 table w, self.old.1))
            × SeesAlso v seat.old w × LearnsOthers v w
            × LegalFrom (is_founded (base_seen t)) (start_of (base_seen t)) (seen_of w)) self.old.0 table }
        ensures seat { AtPlace (λ t v. IsSeatOf seat.new t.site × SeesAlso seat.old v seat.new
            × LearnsOthers seat.old seat.new
            × LegalFrom (is_founded (base_seen t)) (start_of (base_seen t)) (seen_of seat.new)) self.old.0 table }
        ensures rests { (others : NamedStates) (least : List ℕ → List Write) (next : Option LogRecord)
            → AreFounded self.old.0
            → Rests (watched_by self.old.0) others least next (B.meaning self.old.1)
            → Rests (watched_by self.new.0) others least next (B.meaning self.new.1) }
        ensures done { IsOk result }
    {
        self.seats.sits();
        self.seats.meet(table, seat)
    }

    /// Gives the berth back as it is, without an entry.
    pub fn abandon(self) -> B
        ensures { result ≡ self.entry.1 }
    {
        self.berth
    }
}
