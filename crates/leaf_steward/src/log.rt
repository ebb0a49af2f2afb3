// The steward's log: settles the record that the log is owed, and notes its table as flushed.
ghost use Rattle.std.specs.Prelude.{◌≡◌, ◌<◌, ◌≤◌, ◌^◌, ◌+◌, ◌++◌, ◌∷◌, ℕ, List, [], None, length, IfSome, IsSome, IsTrue, is_some};
ghost use Rattle.leaf_model.specs.declared.writes.Write.{Write};
ghost use Rattle.row_records.specs.Records.{IsRecord};
ghost use Rattle.berth_face.specs.Causes.{HasCause};
ghost use Rattle.berth_face.specs.Berth.{Passes};
ghost use Rattle.crash_states.specs.Standing.{Runs};
ghost use Rattle.leaf_table.specs.Calls.{base_seen, name_of, state_seen};
ghost use Rattle.leaf_steward.specs.Seated.{AreFounded, AtPlace, Spares, watched_by};
ghost use Rattle.leaf_steward.specs.Making.{OneEntry};
ghost use Rattle.leaf_steward.specs.Owing.{Brings, HasJustTaken, IsOwed, RunsTo, SettlesOwed, flushed_note};

use crate::notes::Notes;
use crate::seats::Seats;
use berth_face::{Berth, Gate};
use disk_backup::{BackupLog, DiskFault};
use row_records::Pending;
use std::marker::Model;
use std::sync::Wait;
use std::thread::Threads;

/// The log of a leaf, and the table whose record it is owed. Contracts see all three fields.
#[derive(Drop)]
pub struct StewardLog {
    log: BackupLog,
    /// The index of the table whose record is owed, and the number of its accepted writes when that was taken.
    owner: u32,
    count: u64,
}

impl Model for StewardLog {
    ghost use Rattle.leaf_steward.specs.Owing.{Owing};

    ghost Value = { Owing };

    ghost view = { λ s. record { log = s.log; owner = s.owner; count = s.count } };
}

impl StewardLog {
    /// A log that is owed nothing.
    pub fn of(log: BackupLog) -> StewardLog
        requires { log.owed ≡ None }
        ensures { result ≡ record { log = log; owner = 0; count = 0 } }
    {
        StewardLog {
            log,
            owner: 0,
            count: 0,
        }
    }

    /// The offset of the gate at which the log ends.
    pub fn end(&self) -> u64
        ensures place { result ≡ self.now.log.end }
        ensures bound { result < 2 ^ 63 }
    {
        self.log.end()
    }

    /// Settles the record that the log is owed, and notes its table as flushed. After a fault it stays owed, and the
    /// next call goes on with it. It takes no memory.
    pub fn settle_owed<R: Wait + Threads + Sync, B: Berth, G: Gate>(
        &mut self,
        rt: &R,
        seats: &mut Seats,
        berth: &mut B,
        gate: &G,
        notes: &mut Notes,
    ) -> Result<(), DiskFault>
        requires owed { IsOwed seats.old self.old }
        requires spares { IfSome self.old.log.owed (λ r. AtPlace (Spares 1) seats.old self.old.owner) }
        requires room { length notes.old < 32 }
        ensures settles { SettlesOwed (B.meaning berth.new).clock seats.old self.old notes.old result seats.new self.new
            notes.new }
        ensures runs { (writes : List ℕ → List Write) → IsTrue (B.meaning berth.old).tells → AreFounded seats.old
            → Runs (watched_by seats.old) self.old.owner self.old.log writes (B.meaning berth.old)
            → RunsTo seats.old seats.new self.new (B.meaning berth.old) (B.meaning berth.new) }
        ensures region { IsTrue (B.meaning berth.old).tells
            → (B.meaning berth.new).held.region ≡ (B.meaning berth.old).held.region }
        ensures time { Passes (B.meaning berth.old) (B.meaning berth.new) }
        ensures cause { HasCause (B.meaning berth.old).disk_faults (B.meaning berth.new).disk_faults result }
        ensures reads { (B.meaning berth.new).disk_reads ≡ (B.meaning berth.old).disk_reads }
    {
        if self.log.owes() {
            self.settle(rt, seats, berth, gate, notes)
        } else {
            Ok(())
        }
    }

    /// Brings the record that was just taken from a table to the disk, if there is one, and notes the table as flushed
    /// up to `writes`. After a fault the record is owed. Takes no memory.
    pub fn bring<R: Wait + Threads + Sync, B: Berth, G: Gate>(
        &mut self,
        rt: &R,
        seats: &mut Seats,
        table: u32,
        writes: u64,
        pending: Pending,
        berth: &mut B,
        gate: &G,
        notes: &mut Notes,
    ) -> Result<(), DiskFault>
        requires nothing { self.old.log.owed ≡ None }
        requires table { table < length seats.old.tables }
        requires taken { AtPlace (λ t v. writes ≤ (state_seen (base_seen t) v).taken) seats.old table }
        requires named { IfSome pending (λ r. AtPlace (λ t v. name_of t ≡ r.name) seats.old table) }
        requires spares { AtPlace (Spares 1) seats.old table }
        requires room { length notes.old < 32 }
        ensures brings { Brings (B.meaning berth.new).clock seats.old self.old table writes pending notes.old result
            seats.new self.new notes.new }
        ensures runs { (taken : List ℕ → List Write) → IsTrue (B.meaning berth.old).tells → AreFounded seats.old
            → HasJustTaken seats.old self.old table pending taken (B.meaning berth.old)
            → RunsTo seats.old seats.new self.new (B.meaning berth.old) (B.meaning berth.new) }
        ensures region { IsTrue (B.meaning berth.old).tells
            → (B.meaning berth.new).held.region ≡ (B.meaning berth.old).held.region }
        ensures time { Passes (B.meaning berth.old) (B.meaning berth.new) }
        ensures cause { HasCause (B.meaning berth.old).disk_faults (B.meaning berth.new).disk_faults result }
        ensures reads { (B.meaning berth.new).disk_reads ≡ (B.meaning berth.old).disk_reads }
    {
        self.owner = table;
        self.count = writes;
        if is_pending(&pending) {
            self.log.offer(pending);
            return self.settle(rt, seats, berth, gate, notes);
        }
        self.note(rt, seats, berth, gate, notes);
        Ok(())
    }

    // Settles the record that is owed, and notes its table as flushed.
    fn settle<R: Wait + Threads + Sync, B: Berth, G: Gate>(
        &mut self,
        rt: &R,
        seats: &mut Seats,
        berth: &mut B,
        gate: &G,
        notes: &mut Notes,
    ) -> Result<(), DiskFault>
        requires some { IsSome self.old.log.owed }
        requires owed { IsOwed seats.old self.old }
        requires spares { IfSome self.old.log.owed (λ r. AtPlace (Spares 1) seats.old self.old.owner) }
        requires room { length notes.old < 32 }
        ensures settles { SettlesOwed (B.meaning berth.new).clock seats.old self.old notes.old result seats.new self.new
            notes.new }
        ensures runs { (writes : List ℕ → List Write) → IsTrue (B.meaning berth.old).tells → AreFounded seats.old
            → Runs (watched_by seats.old) self.old.owner self.old.log writes (B.meaning berth.old)
            → RunsTo seats.old seats.new self.new (B.meaning berth.old) (B.meaning berth.new) }
        ensures region { IsTrue (B.meaning berth.old).tells
            → (B.meaning berth.new).held.region ≡ (B.meaning berth.old).held.region }
        ensures time { Passes (B.meaning berth.old) (B.meaning berth.new) }
        ensures cause { HasCause (B.meaning berth.old).disk_faults (B.meaning berth.new).disk_faults result }
        ensures reads { (B.meaning berth.new).disk_reads ≡ (B.meaning berth.old).disk_reads }
    {
        self.log.settle(berth)?;
        self.note(rt, seats, berth, gate, notes);
        Ok(())
    }

    // Notes the owner as flushed. The log is owed nothing.
    fn note<R: Wait + Threads + Sync, B: Berth, G: Gate>(
        &self,
        rt: &R,
        seats: &mut Seats,
        berth: &B,
        gate: &G,
        notes: &mut Notes,
    )
        requires table { self.now.owner < length seats.old.tables }
        requires taken { AtPlace (λ t v. self.now.count ≤ (state_seen (base_seen t) v).taken) seats.old self.now.owner }
        requires spares { AtPlace (Spares 1) seats.old self.now.owner }
        requires room { length notes.old < 32 }
        ensures noted { (number : ℕ) × OneEntry (B.meaning berth.now).clock seats.old (flushed_note self.now number)
            seats.new
            × (notes.new ≡ notes.old ++ flushed_note self.now number ∷ []) }
        ensures runs { (writes : List ℕ → List Write) → AreFounded seats.old → self.now.log.owed ≡ None
            → Runs (watched_by seats.old) self.now.owner self.now.log writes (B.meaning berth.now)
            → RunsTo seats.old seats.new self.now (B.meaning berth.now) (B.meaning berth.now) }
    {
        seats.sits();
        seats.flushed(rt, self.owner, self.count, berth, gate, notes);
    }
}

// Whether there is a pending record; states that it is a valid one.
fn is_pending(pending: &Pending) -> bool
    ensures some { result ≡ is_some pending.now }
    ensures whole { IfSome pending.now IsRecord }
{
    !pending.bytes().is_empty()
}
