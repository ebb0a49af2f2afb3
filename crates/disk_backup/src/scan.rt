// Reading a log record by record.
ghost use Rattle.std.specs.Prelude.{◌≡◌, ◌≢◌, ◌<◌, ℕ, List, length, IsTrue, OnOk, IfOk, Err};
ghost use Rattle.berth_face.specs.Causes.{Rose};
ghost use Rattle.berth_face.specs.Berth.{Passes, Stays};
ghost use Rattle.berth_face.specs.Moments.{EachNow, Throughout};
ghost use Rattle.row_records.specs.Records.{LogRecord};
ghost use Rattle.disk_backup.specs.Logs.{IsLog};
ghost use Rattle.disk_backup.specs.declared.fault.LogFault.TheVariants as fault;
ghost use Rattle.disk_backup.specs.Scanning.{StepsFrom, BeginsScan, scanned_disk, Scanned, Damaged, StepIs, GivesRecord, ScansOn};

use crate::fault::LogFault;
use crate::gate::first_gate;
use crate::reader::step;
use crate::step::{LogScan, LogStep};
use berth_face::Berth;
use std::alloc::Global;

impl LogScan {
    /// Begins a scan. A disk of at most one byte becomes one gate that is not open. It syncs before anything is read,
    /// so that every later crash leaves what is read.
    pub fn begin<B: Berth>(berth: &mut B) -> Result<LogScan, LogFault>
        ensures start { IfOk result (λ scan. scan.at ≡ 0) }
        ensures len { IsTrue (B.meaning berth.old).tells
            → IfOk result (λ scan. scan.len ≡ length (B.meaning berth.new).held.disk) }
        ensures disk { IsTrue (B.meaning berth.old).tells
            → OnOk result ((B.meaning berth.new).held.disk ≡ scanned_disk (B.meaning berth.old).held.disk) }
        ensures held { IsTrue (B.meaning berth.old).tells → BeginsScan
            (length (B.meaning berth.old).held.disk) (B.meaning berth.old).held.disk (B.meaning berth.new).held.disk }
        ensures region { IsTrue (B.meaning berth.old).tells
            → (B.meaning berth.new).held.region ≡ (B.meaning berth.old).held.region }
        ensures durable { IsTrue (B.meaning berth.old).tells
            → OnOk result (EachNow (λ p. p.disk ≡ (B.meaning berth.new).held.disk) (B.meaning berth.new)) }
        ensures moments { IsTrue (B.meaning berth.old).tells
            → Throughout (StepsFrom (BeginsScan (length (B.meaning berth.old).held.disk)) (B.meaning berth.old))
            (B.meaning berth.old) (B.meaning berth.new) }
        ensures time { Passes (B.meaning berth.old) (B.meaning berth.new) }
        ensures cause { result ≡ Err fault.DiskFault
            → Rose (B.meaning berth.old).disk_faults (B.meaning berth.new).disk_faults }
        ensures sound { (result ≢ Err fault.DiskDamaged) × (result ≢ Err fault.NoMemory) }
        ensures reads { (B.meaning berth.new).disk_reads ≡ (B.meaning berth.old).disk_reads }
    {
        let len = berth.disk_len()?;
        if len > 1 {
            berth.disk_sync()?;
            return Ok(LogScan { at: 0, len });
        }
        first_gate(len, berth)?;
        Ok(LogScan { at: 0, len: 1 })
    }

    /// Gives the next record, or the log if the scan is at its end: the first gate that is not open. An Err uses the
    /// scan up.
    pub fn next<B: Berth>(self, alloc: Global, berth: &mut B) -> Result<LogStep, LogFault>
        ensures step { (records : List LogRecord)
            → IsTrue (B.meaning berth.old).tells → self.len ≡ length (B.meaning berth.old).held.disk
            → Scanned (B.meaning berth.old).held.disk records self.at
            → IfOk result (StepIs (B.meaning berth.old).held.disk records self.len) }
        ensures damaged { (records : List LogRecord)
            → IsTrue (B.meaning berth.old).tells → self.len ≡ length (B.meaning berth.old).held.disk
            → Scanned (B.meaning berth.old).held.disk records self.at
            → result ≡ Err fault.DiskDamaged → Damaged (B.meaning berth.old).held.disk self.at }
        // A log is never damaged.
        ensures sound { (records all : List LogRecord) (end : ℕ)
            → IsTrue (B.meaning berth.old).tells → self.len ≡ length (B.meaning berth.old).held.disk
            → Scanned (B.meaning berth.old).held.disk records self.at
            → IsLog (B.meaning berth.old).held.disk all end → 1 < self.len → result ≢ Err fault.DiskDamaged }
        // On every berth, whether it tells its contents or not.
        ensures record { IfOk result GivesRecord }
        ensures goes_on { IfOk result (ScansOn self) }
        ensures stays { IsTrue (B.meaning berth.old).tells → Stays (B.meaning berth.old) (B.meaning berth.new) }
        ensures time { Passes (B.meaning berth.old) (B.meaning berth.new) }
        ensures cause { result ≡ Err fault.DiskFault
            → Rose (B.meaning berth.old).disk_faults (B.meaning berth.new).disk_faults }
    {
        step(alloc, self.at, self.len, berth)
    }
}
