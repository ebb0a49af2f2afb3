// Reading one gate and one record from the disk.
ghost use Rattle.std.specs.Prelude.{◌≡◌, ◌≢◌, ◌+◌, ◌^◌, ◌<◌, ◌≤◌, List, length, take, drop, get_or, nat_eq, IsTrue, IfOk, Err};
ghost use Rattle.berth_face.specs.Causes.{Rose};
ghost use Rattle.berth_face.specs.Berth.{Passes, Stays};
ghost use Rattle.row_records.specs.Records.{LogRecord, IsRecord, record_bytes};
ghost use Rattle.disk_backup.specs.State.{ScanState};
ghost use Rattle.disk_backup.specs.declared.fault.LogFault.TheVariants as fault;
ghost use Rattle.disk_backup.specs.Scanning.{size_at, record_is, Scanned, Damaged, NoRecord, FoundRecord, StepIs, GivesRecord, ScansOn};

use crate::fault::LogFault;
use crate::log::BackupLog;
use crate::step::{FlushRecord, LogScan, LogStep};
use berth_face::Berth;
use row_records::read_record;
use std::alloc::Global;

/// Reads the gate at the byte `at` of a disk of `len` bytes: the record after it, or the end of the log if it is not
/// open.
pub fn step<B: Berth>(alloc: Global, at: u64, len: u64, berth: &mut B) -> Result<LogStep, LogFault>
    requires inside { at < len }
    requires short { len < 2 ^ 63 }
    ensures stays { IsTrue (B.meaning berth.old).tells → Stays (B.meaning berth.old) (B.meaning berth.new) }
    ensures time { Passes (B.meaning berth.old) (B.meaning berth.new) }
    ensures cause { result ≡ Err fault.DiskFault
        → Rose (B.meaning berth.old).disk_faults (B.meaning berth.new).disk_faults }
    ensures record { IfOk result GivesRecord }
    ensures goes_on { IfOk result (ScansOn (record { at = at; len = len })) }
    ensures step { (records : List LogRecord) → IsTrue (B.meaning berth.old).tells
        → len ≡ length (B.meaning berth.old).held.disk → Scanned (B.meaning berth.old).held.disk records at
        → IfOk result (StepIs (B.meaning berth.old).held.disk records len) }
    ensures damaged { (records : List LogRecord) → IsTrue (B.meaning berth.old).tells
        → len ≡ length (B.meaning berth.old).held.disk → Scanned (B.meaning berth.old).held.disk records at
        → result ≡ Err fault.DiskDamaged → Damaged (B.meaning berth.old).held.disk at }
{
    if !is_open(at, berth)? {
        return Ok(LogStep::Ended(BackupLog::at(alloc, at)));
    }
    let (flush, at) = record_at(alloc, at + 1, len, berth)?;
    Ok(LogStep::Record(LogScan { at, len }, flush))
}

// Whether the gate at a place is open.
fn is_open<B: Berth>(at: u64, berth: &mut B) -> Result<bool, LogFault>
    ensures stays { IsTrue (B.meaning berth.old).tells → Stays (B.meaning berth.old) (B.meaning berth.new) }
    ensures time { Passes (B.meaning berth.old) (B.meaning berth.new) }
    ensures cause { result ≡ Err fault.DiskFault
        → Rose (B.meaning berth.old).disk_faults (B.meaning berth.new).disk_faults }
    ensures told { IsTrue (B.meaning berth.old).tells
        → at < length (B.meaning berth.old).held.disk → (result ≢ Err fault.DiskDamaged)
        × IfOk result (λ is. is ≡ nat_eq (get_or (B.meaning berth.old).held.disk at 0) 1) }
{
    let mut gate = [0];
    if berth.disk_read(at, &mut gate)? < 1 {
        return Err(LogFault::DiskDamaged);
    }
    Ok(gate[0] == 1)
}

// The record at a place, and the place after it.
fn record_at<B: Berth>(
    alloc: Global,
    at: u64,
    len: u64,
    berth: &mut B,
) -> Result<(FlushRecord, u64), LogFault>
    ensures stays { IsTrue (B.meaning berth.old).tells → Stays (B.meaning berth.old) (B.meaning berth.new) }
    ensures time { Passes (B.meaning berth.old) (B.meaning berth.new) }
    ensures cause { result ≡ Err fault.DiskFault
        → Rose (B.meaning berth.old).disk_faults (B.meaning berth.new).disk_faults }
    ensures record { IfOk result (λ x. IsRecord (record_is x.0)) }
    ensures room { IfOk result (λ x. x.1 < len) }
    ensures writes { IfOk result (λ x. at + length x.0.writes ≤ x.1) }
    ensures told { IsTrue (B.meaning berth.old).tells → len ≡ length (B.meaning berth.old).held.disk
        → IfOk result (λ x. FoundRecord (drop at (B.meaning berth.old).held.disk) (record_is x.0)
        × (x.1 ≡ at + length (record_bytes (record_is x.0)))) }
    ensures damaged { IsTrue (B.meaning berth.old).tells → len ≡ length (B.meaning berth.old).held.disk
        → result ≡ Err fault.DiskDamaged → NoRecord (drop at (B.meaning berth.old).held.disk) }
{
    let size = record_size(at, len, berth)?;
    let bytes = bytes_at(alloc, at, size, berth)?;
    match read_record(alloc, &bytes)? {
        None => Err(LogFault::DiskDamaged),
        Some(flush) => {
            let record = FlushRecord {
                sets: flush.sets,
                table: flush.name,
                writes: flush.writes,
            };
            Ok((record, at + size))
        }
    }
}

// The number of bytes of the record at a place, its length field included. There has to be room for it and a gate.
#[tactic(auto, using(berth_face::proofs::Moments::stays_none))]
fn record_size<B: Berth>(at: u64, len: u64, berth: &mut B) -> Result<u64, LogFault>
    ensures stays { IsTrue (B.meaning berth.old).tells → Stays (B.meaning berth.old) (B.meaning berth.new) }
    ensures time { Passes (B.meaning berth.old) (B.meaning berth.new) }
    ensures cause { result ≡ Err fault.DiskFault
        → Rose (B.meaning berth.old).disk_faults (B.meaning berth.new).disk_faults }
    ensures room { IfOk result (λ size. at + size < len) }
    ensures told { IsTrue (B.meaning berth.old).tells → len ≡ length (B.meaning berth.old).held.disk
        → IfOk result (λ size. size ≡ size_at (drop at (B.meaning berth.old).held.disk)) }
    ensures damaged { IsTrue (B.meaning berth.old).tells → len ≡ length (B.meaning berth.old).held.disk
        → result ≡ Err fault.DiskDamaged → len ≤ at + size_at (drop at (B.meaning berth.old).held.disk) }
{
    if at >= len || len - at <= 8 {
        return Err(LogFault::DiskDamaged);
    }
    let mut bytes = [0; 8];
    if berth.disk_read(at, &mut bytes)? < 8 {
        return Err(LogFault::DiskDamaged);
    }
    let size = u64::from_le_bytes(bytes);
    if size >= len - at - 8 {
        return Err(LogFault::DiskDamaged);
    }
    Ok(size + 8)
}

// `size` bytes of the disk from `at` on.
#[tactic(auto, using(berth_face::proofs::Moments::stays_none))]
fn bytes_at<B: Berth>(alloc: Global, at: u64, size: u64, berth: &mut B) -> Result<Vec<u8>, LogFault>
    ensures stays { IsTrue (B.meaning berth.old).tells → Stays (B.meaning berth.old) (B.meaning berth.new) }
    ensures time { Passes (B.meaning berth.old) (B.meaning berth.new) }
    ensures cause { result ≡ Err fault.DiskFault
        → Rose (B.meaning berth.old).disk_faults (B.meaning berth.new).disk_faults }
    ensures size { IfOk result (λ bytes. length bytes.items ≡ size) }
    ensures told { IsTrue (B.meaning berth.old).tells
        → at + size ≤ length (B.meaning berth.old).held.disk → (result ≢ Err fault.DiskDamaged)
        × IfOk result (λ bytes. bytes.items ≡ take size (drop at (B.meaning berth.old).held.disk)) }
{
    let size = size as usize;
    let mut bytes = Vec::new(alloc);
    bytes.resize(size, 0)?;
    if berth.disk_read(at, bytes.as_mut_slice())? < size {
        return Err(LogFault::DiskDamaged);
    }
    Ok(bytes)
}
