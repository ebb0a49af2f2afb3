// A leaf that shuts its tables.
ghost use Rattle.std.specs.Prelude.{◌≡◌, ◌<◌, ◌≤◌, ◌+◌, ℕ, List, [], length, None, true, false, IsOk, IsTrue, IfErr, OnOk, OnErr};
ghost use Rattle.leaf_model.specs.declared.writes.Write.{Write};
ghost use Rattle.berth_face.specs.Berth.{Passes};
ghost use Rattle.berth_face.specs.Causes.{HasCause};
ghost use Rattle.leaf_history.specs.History.{LegalFrom};
ghost use Rattle.turnstile.specs.Seats.{IsSeatOf, LearnsOthers, SeesAlso};
ghost use Rattle.leaf_table.specs.Turns.{is_founded, start_of};
ghost use Rattle.leaf_table.specs.Calls.{base_seen, seen_of, state_seen};
ghost use Rattle.crash_states.specs.Standing.{Runs};
ghost use Rattle.leaf_steward.specs.Seated.{AreFounded, AreSeated, AtEach, AtPlace, watched_by, with_seat};
ghost use Rattle.leaf_steward.specs.Making.{EachNoted, IsClosedNote, Makes};
ghost use Rattle.leaf_machine.specs.States.{IsShutAndTaken, RestsOn, treated};
ghost use Rattle.leaf_machine.specs.declared.preparing.PrepareFault.TheVariants as prepare_fault;
ghost use Rattle.leaf_machine.specs.Prepares.{CrowdsStep, PreparingHalts, IsTreatingStep, RoseStep, StepGoesOn, berth_of_step, seats_of_step, told_of_plan};
ghost use Rattle.leaf_machine.specs.PrepParts.{IsAllTreated, IsNextTreated, IsPartOfStep, RoseNext, PreparingSettles, PreparingGoes};

use crate::copying::Copying;
use crate::down::Down;
use crate::shut_tables::ShutTables;
use berth_face::{Berth, Gate};
use disk_backup::DiskFault;
use drain_copy::{Drain, PlanFault};
use leaf_steward::{Notes, Seats, StewardLog};
use leaf_table::Seat;
use std::alloc::{AllocError, Global};
use std::marker::Model;
use std::sync::Wait;
use std::thread::Threads;

/// Why a step failed. It may be made again.
#[derive(Clone, Copy, Debug, PartialEq, Eq)]
pub enum PrepareFault {
    /// A call on the disk failed. The log is owed what was taken.
    DiskFault,
    /// The tables make no image: it would have 2^63 bytes or more, or a table has too many writes or blocks, or a block
    /// too many columns.
    NoRoom,
    /// Memory ran out, to seal a table or to plan the copy.
    NoMemory,
}

impl From<PlanFault> for PrepareFault {
    ghost from_gives = { λ f e. e ≡ told_of_plan f };

    fn from(fault: PlanFault) -> PrepareFault {
        match fault {
            PlanFault::NoRoom => PrepareFault::NoRoom,
            PlanFault::NoMemory => PrepareFault::NoMemory,
        }
    }
}

/// After a step: a leaf that shuts on, or one that is ready to copy.
#[derive(Drop)]
pub enum Prepared<'t, B: Berth> {
    More(Preparing<'t, B>),
    Ready(Copying<'t, B>),
}

/// A leaf that shuts its tables one by one. It borrows the tables, and owns the steward's seats, the contents of the
/// shut tables, the log and the berth. Contracts see these.
#[derive(Drop)]
pub struct Preparing<'t, B: Berth> {
    pub(crate) seats: Seats<'t>,
    pub(crate) log: StewardLog,
    /// The contents of the shut tables, which are the first ones.
    pub(crate) tables: ShutTables,
    pub(crate) berth: B,
}

impl<'t, B: Berth> Model for Preparing<'t, B> {
    ghost use Rattle.std.specs.Prelude.{◌≡◌, length, take};
    ghost use Rattle.leaf_machine.specs.Shut.{AreFewShut};
    ghost use Rattle.leaf_machine.specs.States.{Shutting, IsShutting, treated};

    ghost Value = { Shutting × B };

    ghost view = { λ leaf. (
      record {
        serving = record { seated = leaf.seats; owing = leaf.log };
        closed = leaf.tables.closed;
        waits = leaf.tables.waits;
      },
      leaf.berth,
    ) };

    ghost invariant = { λ leaf.
        IsShutting (record {
          serving = record { seated = leaf.seats; owing = leaf.log };
          closed = leaf.tables.closed;
          waits = leaf.tables.waits;
        }) (B.meaning leaf.berth)
        × (leaf.tables.names ≡ take
        (treated (record {
          serving = record { seated = leaf.seats; owing = leaf.log };
          closed = leaf.tables.closed;
          waits = leaf.tables.waits;
        })) leaf.seats.names)
        × (length leaf.tables.columns ≡ length leaf.tables.closed) × AreFewShut leaf.seats leaf.tables.columns };
}

impl<'t, B: Berth> Preparing<'t, B> {
    /// No-op; states the invariant: the seats are valid, at most all tables are shut, the first ones are, and `waits`
    /// implies that one is.
    pub fn shuts(&self)
        ensures some { IsTrue self.now.0.waits → 0 < length self.now.0.closed }
        ensures within { length self.now.0.closed ≤ length self.now.0.serving.seated.tables }
        ensures seated { AreSeated self.now.0.serving.seated }
        ensures closed { AtEach (λ place t v. place < length self.now.0.closed
            → IsShutAndTaken (state_seen (base_seen t) v)) self.now.0.serving.seated }
    {
        self.seats.sits();
        let _tables = &self.tables;
    }

    /// Lets the steward's seat at table `table` and a caller's seat learn what the other has seen. It makes no entry
    /// and takes no memory.
    pub fn meet(&mut self, table: u32, seat: &mut Seat) -> Result<(), AllocError>
        requires table { table < length self.old.0.serving.seated.tables }
        requires seat { AtPlace (λ t v. IsSeatOf seat.old t.site
            × LegalFrom (is_founded (base_seen t)) (start_of (base_seen t)) (seen_of seat.old))
            self.old.0.serving.seated table }
        ensures learns { AtPlace (λ t v. (w : _) × (self.new ≡ (
          record {
            serving = record { seated = with_seat self.old.0.serving.seated table w; owing = self.old.0.serving.owing };
            closed = self.old.0.closed;
            waits = self.old.0.waits;
          },
          self.old.1,
        )) × SeesAlso v seat.old w × LearnsOthers v w
            × LegalFrom (is_founded (base_seen t)) (start_of (base_seen t)) (seen_of w)) self.old.0.serving.seated
            table }
        ensures seat { AtPlace (λ t v. IsSeatOf seat.new t.site × SeesAlso seat.old v seat.new
            × LearnsOthers seat.old seat.new
            × LegalFrom (is_founded (base_seen t)) (start_of (base_seen t)) (seen_of seat.new))
            self.old.0.serving.seated table }
        ensures runs { (writes : List ℕ → List Write) → AreFounded self.old.0.serving.seated
            → Runs (watched_by self.old.0.serving.seated) self.old.0.serving.owing.owner self.old.0.serving.owing.log
            writes (B.meaning self.old.1)
            → Runs (watched_by self.new.0.serving.seated) self.new.0.serving.owing.owner self.new.0.serving.owing.log
            writes (B.meaning self.new.1) }
        ensures done { IsOk result }
    {
        self.seats.sits();
        self.seats.meet(table, seat)
    }

    /// Settles the record that the log is owed, and notes its table as flushed. Then it treats the next table: it shuts
    /// it, brings the record of its untaken writes to the disk, notes it as closed and as flushed, and seals its tail.
    /// Once all tables are treated, it plans the copy of their columns into the region.
    pub fn step<R: Wait + Threads + Sync, G: Gate>(
        self,
        rt: &R,
        alloc: Global,
        gate: &G,
        notes: &mut Notes,
    ) -> Result<Prepared<'t, B>, (Preparing<'t, B>, PrepareFault)>
        ensures step { IsTreatingStep self.entry.0 notes.new result }
        ensures made { Makes (B.meaning self.entry.1).clock (B.meaning (berth_of_step result)).clock
            self.entry.0.serving.seated notes.new (seats_of_step result) }
        // At each moment since the call began, all that a crash may leave belongs to the tables as they stood then.
        ensures crash { IsTrue (B.meaning self.entry.1).tells → AreFounded self.entry.0.serving.seated
            → StepGoesOn B.meaning self.entry.0 (B.meaning self.entry.1) result }
        ensures region { IsTrue (B.meaning self.entry.1).tells → (B.meaning (berth_of_step result)).held.region
            ≡ (B.meaning self.entry.1).held.region }
        ensures time { Passes (B.meaning self.entry.1) (B.meaning (berth_of_step result)) }
        ensures cause { RoseStep (B.meaning self.entry.1).disk_faults (B.meaning (berth_of_step result)).disk_faults
            result }
        ensures crowds { CrowdsStep self.entry.0 result }
        ensures reads { (B.meaning (berth_of_step result)).disk_reads ≡ (B.meaning self.entry.1).disk_reads }
    {
        notes.clear();
        if self.is_treated() {
            return self.copied(alloc);
        }
        let mut leaf = self;
        match leaf.treat_next(rt, gate, notes) {
            Ok(()) => Ok(Prepared::More(leaf)),
            Err(fault) => Err((leaf, fault)),
        }
    }

    /// Shuts each open table, notes it as closed, and drops all contents. It makes no call on the berth and takes no
    /// memory.
    pub fn kill<R: Wait + Threads + Sync, G: Gate>(
        self,
        rt: &R,
        gate: &G,
        notes: &mut Notes,
    ) -> Down<'t, B>
        ensures berth { result.1 ≡ self.entry.1 }
        ensures made { Makes (B.meaning self.entry.1).clock (B.meaning self.entry.1).clock self.entry.0.serving.seated
            notes.new result.0 }
        ensures each { (count : ℕ) × (length self.entry.0.closed + count ≡ length self.entry.0.serving.seated.tables)
            × EachNoted IsClosedNote (length self.entry.0.closed) count notes.new }
        ensures crash { (writes : List ℕ → List Write) → AreFounded self.entry.0.serving.seated
            → Runs (watched_by self.entry.0.serving.seated) self.entry.0.serving.owing.owner
            self.entry.0.serving.owing.log writes (B.meaning self.entry.1)
            → RestsOn self.entry.0.serving.seated result.0 (B.meaning self.entry.1) (B.meaning result.1) }
    {
        notes.clear();
        let first = self.first_open();
        let Preparing {
            mut seats,
            berth,
            ..
        } = self;
        seats.shut_rest(rt, first, &berth, gate, notes);
        Down { seats, berth }
    }

    /// Gives the berth back as it is, without an entry.
    pub fn abandon(self) -> B
        ensures { result ≡ self.entry.1 }
    {
        self.berth
    }

    // The index of the first open table.
    fn first_open(&self) -> u32
        ensures place { result ≡ length self.now.0.closed }
        ensures few { result ≤ length self.now.0.serving.seated.tables }
        ensures seated { AreSeated self.now.0.serving.seated }
    {
        self.seats.sits();
        self.tables.len() as u32
    }

    // Whether all tables are treated.
    fn is_treated(&self) -> bool
        ensures all { result ≡ true → IsAllTreated self.now.0 }
        ensures more { result ≡ false → treated self.now.0 < length self.now.0.serving.seated.tables }
    {
        let count = self.seats.len();
        self.seats.sits();
        !self.tables.waits() && self.tables.len() == count as usize
    }

    // Plans the copy, once all tables are treated.
    fn copied(self, alloc: Global) -> Result<Prepared<'t, B>, (Preparing<'t, B>, PrepareFault)>
        requires all { IsAllTreated self.0 }
        ensures step { IsTreatingStep self.entry.0 [] result }
        ensures crash { AreFounded self.entry.0.serving.seated
            → StepGoesOn B.meaning self.entry.0 (B.meaning self.entry.1) result }
        ensures berth { berth_of_step result ≡ self.entry.1 }
        ensures seats { seats_of_step result ≡ self.entry.0.serving.seated }
        ensures cause { RoseStep (B.meaning self.entry.1).disk_faults (B.meaning self.entry.1).disk_faults result }
        ensures crowds { CrowdsStep self.entry.0 result }
    {
        self.seats.sits();
        let Preparing {
            seats,
            log,
            tables,
            berth,
        } = self;
        match Drain::plan(alloc, tables.into_tables(), log.end()) {
            Ok(drain) => Ok(Prepared::Ready(Copying {
                seats,
                drain,
                berth,
            })),
            Err((tables, fault)) => {
                let tables = ShutTables::of(tables);
                let leaf = Preparing {
                    seats,
                    log,
                    tables,
                    berth,
                };
                Err((leaf, PrepareFault::from(fault)))
            }
        }
    }

    // Treats one more table.
    fn treat_next<R: Wait + Threads + Sync, G: Gate>(
        &mut self,
        rt: &R,
        gate: &G,
        notes: &mut Notes,
    ) -> Result<(), PrepareFault>
        requires more { treated self.old.0 < length self.old.0.serving.seated.tables }
        requires none { notes.old ≡ [] }
        ensures next { IsNextTreated self.old.0 self.new.0 notes.new result }
        ensures part { IsPartOfStep self.old.0.serving self.new.0.serving notes.old notes.new (B.meaning self.old.1)
            (B.meaning self.new.1) }
        ensures cause { RoseNext (B.meaning self.old.1).disk_faults (B.meaning self.new.1).disk_faults result }
    {
        if self.settle(rt, gate, notes).is_err() {
            return Err(PrepareFault::DiskFault);
        }
        if self.tables.waits() {
            return self.seal_last();
        }
        if self.shut_next(rt, gate, notes).is_err() {
            return Err(PrepareFault::DiskFault);
        }
        self.seal_last()
    }

    // Seals the table that was shut last.
    fn seal_last(&mut self) -> Result<(), PrepareFault>
        requires shut { self.old.0.waits ≡ true }
        requires none { self.old.0.serving.owing.log.owed ≡ None }
        ensures done { OnOk result (self.new
            ≡ (record { serving = self.old.0.serving; closed = self.old.0.closed; waits = false }, self.old.1)) }
        ensures failed { OnErr result (self.new ≡ self.old) }
        ensures fault { IfErr result (λ e. e ≡ prepare_fault.NoMemory) }
    {
        self.seats.sits();
        let names = self.seats.names().as_slice();
        let place = self.tables.len() - 1;
        match self.tables.seal(&names[place]) {
            Ok(()) => Ok(()),
            Err(_) => Err(PrepareFault::NoMemory),
        }
    }

    // Settles the record that the log is owed, and notes its table as flushed.
    fn settle<R: Wait + Threads + Sync, G: Gate>(
        &mut self,
        rt: &R,
        gate: &G,
        notes: &mut Notes,
    ) -> Result<(), DiskFault>
        requires none { notes.old ≡ [] }
        ensures settled { OnOk result (PreparingSettles self.old.0 self.new.0 notes.new) }
        ensures halts { OnErr result (PreparingHalts self.old.0 self.new.0 notes.new) }
        ensures part { IsPartOfStep self.old.0.serving self.new.0.serving notes.old notes.new (B.meaning self.old.1)
            (B.meaning self.new.1) }
        ensures cause { HasCause (B.meaning self.old.1).disk_faults (B.meaning self.new.1).disk_faults result }
    {
        self.seats.sits();
        self.log
            .settle_owed(rt, &mut self.seats, &mut self.berth, gate, notes)
    }

    // Shuts the next table, and brings its record to the disk. Nothing is owed before.
    fn shut_next<R: Wait + Threads + Sync, G: Gate>(
        &mut self,
        rt: &R,
        gate: &G,
        notes: &mut Notes,
    ) -> Result<(), DiskFault>
        requires more { length self.old.0.closed < length self.old.0.serving.seated.tables }
        requires rests { self.old.0.waits ≡ false }
        requires none { self.old.0.serving.owing.log.owed ≡ None }
        requires room { length notes.old ≤ 1 }
        ensures { PreparingGoes self.old.0 self.new.0 notes.old notes.new (B.meaning self.old.1)
            (B.meaning self.new.1) result }
    {
        let place = self.first_open();
        let mut table = self.seats.shut(rt, place, &self.berth, gate, notes);
        let writes = table.writes();
        let pending = table.take_pending();
        self.tables.put(table);
        self.log.bring(
            rt,
            &mut self.seats,
            place,
            writes,
            pending,
            &mut self.berth,
            gate,
            notes,
        )
    }
}
