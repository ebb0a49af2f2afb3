// A leaf that serves its tables.
ghost use Rattle.std.specs.Prelude.{◌≡◌, ◌<◌, ◌+◌, ℕ, List, length, IsOk, IsTrue};
ghost use Rattle.leaf_model.specs.declared.writes.Write.{Write};
ghost use Rattle.berth_face.specs.Causes.{Rose};
ghost use Rattle.berth_face.specs.Berth.{Passes};
ghost use Rattle.leaf_history.specs.History.{LegalFrom};
ghost use Rattle.turnstile.specs.Seats.{IsSeatOf, LearnsOthers, SeesAlso};
ghost use Rattle.leaf_table.specs.Turns.{is_founded, start_of};
ghost use Rattle.leaf_table.specs.Calls.{base_seen, seen_of};
ghost use Rattle.crash_states.specs.Standing.{Runs};
ghost use Rattle.leaf_steward.specs.Seated.{AreFounded, AtPlace, watched_by, with_seat};
ghost use Rattle.leaf_steward.specs.Making.{EachNoted, IsClosedNote, Makes};
ghost use Rattle.leaf_machine.specs.declared.up.FlushReply.TheVariants as reply;
ghost use Rattle.leaf_machine.specs.States.{ServingGoesOn, IsUp, RestsOn};
ghost use Rattle.leaf_machine.specs.Flushes.{Flushes};
ghost use Rattle.leaf_machine.specs.UpFlush.{FlushGoes};
ghost use Rattle.leaf_machine.specs.Prepares.{begins};

use crate::down::Down;
use crate::preparing::Preparing;
use crate::shut_tables::ShutTables;
use berth_face::{Berth, Gate};
use leaf_steward::{Notes, Seats, StewardLog};
use leaf_table::Seat;
use std::alloc::{AllocError, Global};
use std::marker::Model;
use std::sync::Wait;
use std::thread::Threads;

/// The answer of a flush.
#[derive(Clone, Copy, PartialEq, Eq)]
pub enum FlushReply {
    /// All that the table had accepted is on the disk.
    Flushed,
    /// A call on the disk failed. The log is owed the record, if one was taken.
    DiskFault,
    /// The steward's seat at the table has seen 2^62 entries. The table was not taken.
    Worn,
}

/// A leaf that serves its tables, which are all open. It borrows them, and owns the steward's seats, the log and the
/// berth. Contracts see these.
#[derive(Drop)]
pub struct Up<'t, B: Berth> {
    pub(crate) seats: Seats<'t>,
    pub(crate) log: StewardLog,
    pub(crate) berth: B,
}

impl<'t, B: Berth> Model for Up<'t, B> {
    ghost use Rattle.leaf_machine.specs.States.{Serving, IsUp};

    ghost Value = { Serving × B };

    ghost view = { λ leaf. (record { seated = leaf.seats; owing = leaf.log }, leaf.berth) };

    ghost invariant = { λ leaf. IsUp (record { seated = leaf.seats; owing = leaf.log }) (B.meaning leaf.berth) };
}

impl<'t, B: Berth> Up<'t, B> {
    /// Lets the steward's seat at table `table` and a caller's seat learn what the other has seen. It makes no entry
    /// and takes no memory.
    pub fn meet(&mut self, table: u32, seat: &mut Seat) -> Result<(), AllocError>
        requires table { table < length self.old.0.seated.tables }
        requires seat { AtPlace (λ t v. IsSeatOf seat.old t.site
            × LegalFrom (is_founded (base_seen t)) (start_of (base_seen t)) (seen_of seat.old)) self.old.0.seated
            table }
        ensures learns { AtPlace (λ t v. (w : _)
            × (self.new ≡ (
              record { seated = with_seat self.old.0.seated table w; owing = self.old.0.owing },
              self.old.1,
            )) × SeesAlso v seat.old w × LearnsOthers v w
            × LegalFrom (is_founded (base_seen t)) (start_of (base_seen t)) (seen_of w)) self.old.0.seated table }
        ensures seat { AtPlace (λ t v. IsSeatOf seat.new t.site × SeesAlso seat.old v seat.new
            × LearnsOthers seat.old seat.new
            × LegalFrom (is_founded (base_seen t)) (start_of (base_seen t)) (seen_of seat.new)) self.old.0.seated
            table }
        ensures runs { (writes : List ℕ → List Write) → AreFounded self.old.0.seated
            → Runs (watched_by self.old.0.seated) self.old.0.owing.owner self.old.0.owing.log writes
            (B.meaning self.old.1)
            → Runs (watched_by self.new.0.seated) self.new.0.owing.owner self.new.0.owing.log writes
            (B.meaning self.new.1) }
        ensures done { IsOk result }
    {
        self.seats.sits();
        self.seats.meet(table, seat)
    }

    /// Settles the record that the log is owed, and notes its table as flushed. Then it takes the writes of table
    /// `table` that were not taken, brings their record to the disk, and notes the table as flushed. After DiskFault
    /// the record is owed, and the next flush or drain goes on with it. It takes no memory.
    pub fn flush<R: Wait + Threads + Sync, G: Gate>(
        &mut self,
        rt: &R,
        table: u32,
        gate: &G,
        notes: &mut Notes,
    ) -> FlushReply
        requires table { table < length self.old.0.seated.tables }
        ensures flushes { Flushes table self.old.0 self.new.0 notes.new result }
        ensures made { Makes (B.meaning self.old.1).clock (B.meaning self.new.1).clock self.old.0.seated notes.new
            self.new.0.seated }
        // At each moment since the call began, all that a crash may leave belongs to the tables as they stood then.
        ensures crash { IsTrue (B.meaning self.old.1).tells → AreFounded self.old.0.seated
            → ServingGoesOn self.old.0 self.new.0 (B.meaning self.old.1) (B.meaning self.new.1) }
        ensures region { IsTrue (B.meaning self.old.1).tells
            → (B.meaning self.new.1).held.region ≡ (B.meaning self.old.1).held.region }
        ensures time { Passes (B.meaning self.old.1) (B.meaning self.new.1) }
        ensures cause { result ≡ reply.DiskFault
            → Rose (B.meaning self.old.1).disk_faults (B.meaning self.new.1).disk_faults }
        ensures reads { (B.meaning self.new.1).disk_reads ≡ (B.meaning self.old.1).disk_reads }
    {
        flush_table(
            rt,
            &mut self.seats,
            &mut self.log,
            table,
            &mut self.berth,
            gate,
            notes,
        )
    }

    /// Begins to shut the tables. None is shut yet, and no entry is made. It takes no memory.
    pub fn prepare(self, alloc: Global) -> Preparing<'t, B>
        ensures { result ≡ (begins self.entry.0, self.entry.1) }
    {
        Preparing {
            seats: self.seats,
            log: self.log,
            tables: ShutTables::new(alloc),
            berth: self.berth,
        }
    }

    /// Shuts each table, notes it as closed, and drops its content. It makes no call on the berth and takes no memory.
    pub fn kill<R: Wait + Threads + Sync, G: Gate>(
        self,
        rt: &R,
        gate: &G,
        notes: &mut Notes,
    ) -> Down<'t, B>
        ensures berth { result.1 ≡ self.entry.1 }
        ensures made { Makes (B.meaning self.entry.1).clock (B.meaning self.entry.1).clock self.entry.0.seated notes.new
            result.0 }
        ensures each { EachNoted IsClosedNote 0 (length self.entry.0.seated.tables) notes.new }
        ensures crash { (writes : List ℕ → List Write) → AreFounded self.entry.0.seated
            → Runs (watched_by self.entry.0.seated) self.entry.0.owing.owner self.entry.0.owing.log writes
            (B.meaning self.entry.1)
            → RestsOn self.entry.0.seated result.0 (B.meaning self.entry.1) (B.meaning result.1) }
    {
        notes.clear();
        let Up {
            mut seats,
            log: _,
            berth,
        } = self;
        seats.sits();
        seats.shut_rest(rt, 0, &berth, gate, notes);
        Down { seats, berth }
    }

    /// Gives the berth back as it is, without an entry.
    pub fn abandon(self) -> B
        ensures { result ≡ self.entry.1 }
    {
        self.berth
    }
}

/// A flush, over the parts of a leaf.
fn flush_table<R: Wait + Threads + Sync, B: Berth, G: Gate>(
    rt: &R,
    seats: &mut Seats,
    log: &mut StewardLog,
    table: u32,
    berth: &mut B,
    gate: &G,
    notes: &mut Notes,
) -> FlushReply
    requires table { table < length seats.old.tables }
    requires up { IsUp (record { seated = seats.old; owing = log.old }) (B.meaning berth.old) }
    ensures { FlushGoes table (record { seated = seats.old; owing = log.old })
        (record { seated = seats.new; owing = log.new }) notes.new result (B.meaning berth.old) (B.meaning berth.new) }
{
    notes.clear();
    seats.sits();
    if log.settle_owed(rt, seats, berth, gate, notes).is_err() {
        return FlushReply::DiskFault;
    }
    let Some((writes, pending)) = seats.take(rt, table, berth, gate, notes) else {
        return FlushReply::Worn;
    };
    if log
        .bring(rt, seats, table, writes, pending, berth, gate, notes)
        .is_err()
    {
        return FlushReply::DiskFault;
    }
    FlushReply::Flushed
}
