// The log that records are written to, and the record that is owed to it.
ghost use Rattle.std.specs.Prelude.{◌≡◌, ◌+◌, ◌^◌, ◌<◌, ℕ, List, length, IsTrue, true, false, None, OnOk, OnErr, IsOk, IsSome, is_some};
ghost use Rattle.leaf_model.specs.declared.writes.Write.{Write};
ghost use Rattle.row_records.specs.Pending.{pending_bytes};
ghost use Rattle.berth_face.specs.Causes.{HasCause};
ghost use Rattle.berth_face.specs.Berth.{Passes};
ghost use Rattle.disk_backup.specs.State.{LogState};
ghost use Rattle.disk_backup.specs.Settling.{Settled, HaveLog, KeepsLog, end_with};

use crate::fault::DiskFault;
use crate::halves::bring;
use berth_face::{Berth, Failed};
use row_records::Pending;
use std::alloc::Global;
use std::marker::Model;

/// A log on a berth's disk, which ends at a gate that is not open, and the record that is owed to it. Contracts see the
/// place of that gate, the record, and whether the record is known to be on the disk.
#[derive(Drop)]
pub struct BackupLog {
    end: u64,
    owed: Pending,
    laid: bool,
    ghost in_range: { end < 2 ^ 63 },
    ghost laid_in_range: { IsTrue laid → end + 1 + length (pending_bytes owed) < 2 ^ 63 },
}

impl Model for BackupLog {
    ghost use Rattle.disk_backup.specs.State.{LogState};

    ghost Value = { LogState };

    ghost view = { λ log. record { end = log.end; owed = log.owed; laid = log.laid } };
}

impl BackupLog {
    /// A log that ends at the byte `end` and is owed nothing. It may be settled if the byte there is not 1.
    pub fn at(alloc: Global, end: u64) -> BackupLog
        requires { end < 2 ^ 63 }
        ensures { result ≡ record { end = end; owed = None; laid = false } }
    {
        BackupLog {
            end,
            owed: Pending::new(alloc),
            laid: false,
        }
    }

    /// The place of the gate at which the log ends.
    pub fn end(&self) -> u64
        ensures place { result ≡ self.now.end }
        ensures bound { result < 2 ^ 63 }
    {
        self.end
    }

    /// Whether a record is owed.
    pub fn owes(&self) -> bool
        ensures { result ≡ is_some self.now.owed }
    {
        !self.owed.bytes().is_empty()
    }

    /// Gives the log a record to settle. The log was owed none.
    pub fn offer(&mut self, pending: Pending)
        requires nothing { self.old.owed ≡ None }
        requires some { IsSome pending }
        ensures { self.new ≡ record { end = self.old.end; owed = pending; laid = false } }
    {
        self.laid = false;
        self.owed = pending;
    }

    /// Brings the owed record onto the disk: writes it with a closed gate after it, syncs, opens the gate before it,
    /// and syncs. No-op if nothing is owed. After an Err the next call resumes at the write that failed, or whose sync
    /// failed. It does not write the record again once its first sync has succeeded.
    pub fn settle<B: Berth>(&mut self, berth: &mut B) -> Result<(), DiskFault>
        ensures nothing { self.old.owed ≡ None → IsOk result × (self.new ≡ self.old) × (berth.new ≡ berth.old) }
        ensures done { OnOk result ((self.new.owed ≡ None) × (self.new.end ≡ end_with self.old)) }
        ensures kept { OnErr result ((self.new.owed ≡ self.old.owed) × (self.new.end ≡ self.old.end)) }
        ensures cause { HasCause (B.meaning berth.old).disk_faults (B.meaning berth.new).disk_faults result }
        ensures time { Passes (B.meaning berth.old) (B.meaning berth.new) }
        ensures reads { (B.meaning berth.new).disk_reads ≡ (B.meaning berth.old).disk_reads }
        ensures region { IsTrue (B.meaning berth.old).tells
            → (B.meaning berth.new).held.region ≡ (B.meaning berth.old).held.region }
        // Whatever log each disk has that a crash may leave.
        ensures crash { IsTrue (B.meaning berth.old).tells
            → Settled self.old self.new result (B.meaning berth.old) (B.meaning berth.new) }
        // Where they all have the same.
        ensures log { (writes : List ℕ → List Write)
            → IsTrue (B.meaning berth.old).tells → HaveLog self.old writes (B.meaning berth.old)
            → KeepsLog self.old self.new writes result (B.meaning berth.old) (B.meaning berth.new) }
    {
        if self.owes() {
            self.bring_owed(berth)?;
        }
        Ok(())
    }

    fn bring_owed<B: Berth>(&mut self, berth: &mut B) -> Result<(), Failed>
        requires { IsSome self.old.owed }
        ensures done { OnOk result ((self.new.owed ≡ None) × (self.new.end ≡ end_with self.old)) }
        ensures kept { OnErr result ((self.new.owed ≡ self.old.owed) × (self.new.end ≡ self.old.end)) }
        ensures cause { HasCause (B.meaning berth.old).disk_faults (B.meaning berth.new).disk_faults result }
        ensures time { Passes (B.meaning berth.old) (B.meaning berth.new) }
        ensures reads { (B.meaning berth.new).disk_reads ≡ (B.meaning berth.old).disk_reads }
        ensures region { IsTrue (B.meaning berth.old).tells
            → (B.meaning berth.new).held.region ≡ (B.meaning berth.old).held.region }
        ensures crash { IsTrue (B.meaning berth.old).tells
            → Settled self.old self.new result (B.meaning berth.old) (B.meaning berth.new) }
    {
        bring(self.end, self.owed.bytes(), &mut self.laid, berth)?;
        self.end += self.owed.bytes().len() as u64;
        self.laid = false;
        self.owed.clear();
        Ok(())
    }
}
