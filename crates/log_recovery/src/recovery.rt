// Reading a log to its end.
ghost use Rattle.std.specs.Prelude.{◌≡◌, ◌≢◌, ◌+◌, ◌-◌, ◌<◌, ◌≤◌, ◌^◌, [], None, Err, length, map, IsTrue, OnOk, IfOk, IfErr};
ghost use Rattle.std.specs.List.{AllByRecursion};
ghost use Rattle.berth_face.specs.Causes.{Rose};
ghost use Rattle.berth_face.specs.Berth.{Passes, Stays};
ghost use Rattle.berth_face.specs.Moments.{EachNow, Throughout};
ghost use Rattle.disk_backup.specs.Logs.{IsSound};
ghost use Rattle.disk_backup.specs.Scanning.{StepsFrom, BeginsScan, scanned_disk};
ghost use Rattle.log_recovery.specs.declared.fault.RecoveryFault.TheVariants as fault;
ghost use Rattle.row_model.specs.Names.{AreDistinct};
ghost use Rattle.table_state.specs.Tables.{Table, bare, columns_most};
ghost use Rattle.log_recovery.specs.Recovery.{AreFew, IfRead, IsRecovered, IsRecoveryRefusal, TellsLogName, recovered_tables};

use crate::apply::{apply, empty_tables};
use crate::fault::RecoveryFault;
use crate::recovered::Recovered;
use berth_face::Berth;
use disk_backup::{BackupLog, LogScan, LogStep};
use leaf_model::Names;
use std::alloc::Global;
use table_state::{TableState, Tables};

/// Reads the berth's log to its end, and applies each record to the table of its name. A table that the log does not
/// name is empty. Before the first read it syncs the disk; a disk of at most one byte becomes one gate that is not open
/// before that.
pub fn recover<B: Berth>(
    alloc: Global,
    names: &Names,
    berth: &mut B,
) -> Result<Recovered, RecoveryFault>
    requires distinct { AreDistinct names.now }
    // What was read, and why it is refused, if the berth tells its contents.
    ensures told { IsTrue (B.meaning berth.old).tells
        → IfOk result (λ r. (x : IsRecovered names.now (B.meaning berth.new).held.disk r.tables.each r.log)
        × AreFew names.now x.records r.tables.columns) }
    ensures refused { IsTrue (B.meaning berth.old).tells
        → IfErr result (IsRecoveryRefusal names.now (B.meaning berth.new).held.disk) }
    // A log that is sound is never damaged.
    ensures sound { IsTrue (B.meaning berth.old).tells
        → IsSound (B.meaning berth.old).held.disk → result ≢ Err fault.DiskDamaged }
    // What is left of the berth, and what a crash leaves of it at each moment. After Ok a crash leaves the disk that
    // was read.
    ensures disk { IsTrue (B.meaning berth.old).tells
        → OnOk result ((B.meaning berth.new).held.disk ≡ scanned_disk (B.meaning berth.old).held.disk) }
    ensures begun { IsTrue (B.meaning berth.old).tells
        → IfErr result (λ e. IfRead e ((B.meaning berth.new).held.disk
        ≡ scanned_disk (B.meaning berth.old).held.disk)) }
    ensures held { IsTrue (B.meaning berth.old).tells → BeginsScan
        (length (B.meaning berth.old).held.disk) (B.meaning berth.old).held.disk (B.meaning berth.new).held.disk }
    ensures region { IsTrue (B.meaning berth.old).tells
        → (B.meaning berth.new).held.region ≡ (B.meaning berth.old).held.region }
    ensures durable { IsTrue (B.meaning berth.old).tells
        → OnOk result (EachNow (λ p. p.disk ≡ (B.meaning berth.new).held.disk) (B.meaning berth.new)) }
    ensures moments { IsTrue (B.meaning berth.old).tells
        → Throughout (StepsFrom (BeginsScan (length (B.meaning berth.old).held.disk)) (B.meaning berth.old))
        (B.meaning berth.old) (B.meaning berth.new) }
    // On every berth, whether it tells its contents or not.
    ensures one { IfOk result (λ r. length r.tables.each ≡ length names.now) }
    ensures none_owed { IfOk result (λ r. (r.log.owed ≡ None) × (r.log.end < 2 ^ 63)) }
    ensures settled { IfOk result (λ r. AllByRecursion (λ t. (t.pending ≡ None) × (t.writes < 2 ^ 63)) r.tables.each) }
    ensures named { IfErr result TellsLogName }
    ensures time { Passes (B.meaning berth.old) (B.meaning berth.new) }
    ensures cause { result ≡ Err fault.DiskFault
        → Rose (B.meaning berth.old).disk_faults (B.meaning berth.new).disk_faults }
{
    let mut tables = empty_tables(alloc, names)?;
    let scan = LogScan::begin(berth)?;
    let log = read_on(alloc, names, scan, &mut tables, berth)?;
    Ok(Recovered {
        tables: Tables::of(tables),
        log,
    })
}

/// Applies each record that a scan gives, up to its end.
fn read_on<B: Berth>(
    alloc: Global,
    names: &Names,
    scan: LogScan,
    tables: &mut Vec<TableState>,
    berth: &mut B,
) -> Result<BackupLog, RecoveryFault>
    requires distinct { AreDistinct names.now }
    requires start { scan.at ≡ 0 }
    requires whole { IsTrue (B.meaning berth.old).tells
        → (scan.len ≡ length (B.meaning berth.old).held.disk) × (0 < length (B.meaning berth.old).held.disk) }
    requires empty { map bare tables.old.items ≡ recovered_tables names.now [] }
    requires columns { AreFew names.now [] (map (λ (t : Table). columns_most t.store) tables.old.items) }
    ensures stays { IsTrue (B.meaning berth.old).tells → Stays (B.meaning berth.old) (B.meaning berth.new) }
    ensures named { IfErr result TellsLogName }
    ensures time { Passes (B.meaning berth.old) (B.meaning berth.new) }
    ensures cause { result ≡ Err fault.DiskFault
        → Rose (B.meaning berth.old).disk_faults (B.meaning berth.new).disk_faults }
    ensures told { IsTrue (B.meaning berth.old).tells → IfOk result (λ log.
        (x : IsRecovered names.now (B.meaning berth.old).held.disk (map bare tables.new.items) log)
        × AreFew names.now x.records (map (λ (t : Table). columns_most t.store) tables.new.items)) }
    ensures refused { IsTrue (B.meaning berth.old).tells
        → IfErr result (IsRecoveryRefusal names.now (B.meaning berth.old).held.disk) }
    ensures one { OnOk result (length (map bare tables.new.items) ≡ length names.now) }
    ensures none_owed { IfOk result (λ log. (log.owed ≡ None) × (log.end < 2 ^ 63)) }
    ensures settled { OnOk result
        (AllByRecursion (λ t. (t.pending ≡ None) × (t.writes < 2 ^ 63)) (map bare tables.new.items)) }
{
    let mut scan = scan;
    loop {
        match scan.next(alloc, berth)? {
            LogStep::Ended(log) => return Ok(log),
            LogStep::Record(later, flush) => {
                apply(tables, names, flush)?;
                scan = later;
            }
        }
    }
}
