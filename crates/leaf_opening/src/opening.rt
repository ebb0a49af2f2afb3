// The tables of a leaf that starts.
ghost use Rattle.std.specs.Prelude.{◌≡◌, ◌≢◌, ◌<◌, ◌^◌, None, Err, false, length, IfOk, IfErr, IsTrue};
ghost use Rattle.std.specs.List.{AllByRecursion};
ghost use Rattle.berth_face.specs.Causes.{Rose};
ghost use Rattle.berth_face.specs.Berth.{Passes};
ghost use Rattle.berth_face.specs.Moments.{Throughout};
ghost use Rattle.disk_backup.specs.Logs.{IsSound};
ghost use Rattle.disk_backup.specs.Scanning.{BeginsScan};
ghost use Rattle.region_layout.specs.Names.{AreNames};
ghost use Rattle.leaf_words.specs.declared.ways.Way.TheVariants as way;
ghost use Rattle.leaf_opening.specs.declared.ways.OpenFault.TheVariants as fault;
ghost use Rattle.leaf_opening.specs.Answers.{IsExact, way_of};
ghost use Rattle.leaf_opening.specs.Starts.{StartEnded, IsOpeningRefusal, IsWayOf, AreFresh, OpensFrom, KeepsDisks, IsDurable, TellsName, opened_leaf};

use crate::ways::OpenFault;
use adopt::{Adopted, Adoption, adopt};
use berth_face::Berth;
use disk_backup::BackupLog;
use leaf_model::Names;
use leaf_words::{Way, WhyDisk};
use log_recovery::{Recovered, recover};
use std::alloc::Global;
use table_state::Tables;

/// What a start opened: one table for each name, in their order; the log, which is owed nothing; and the way that the
/// tables came.
#[derive(Drop)]
pub struct Opened {
    pub tables: Tables,
    pub log: BackupLog,
    pub way: Way,
}

/// Adopts the tables of the region's image, and cuts each column off the region once it was read. If the region is no
/// image, it replays the log. An open flag is closed before anything else. A table without a write is empty.
pub fn open_tables<B: Berth>(
    alloc: Global,
    names: &Names,
    berth: &mut B,
) -> Result<Opened, OpenFault>
    requires names { AreNames names.now }
    ensures one { IfOk result (λ o. length o.tables.each ≡ length names.now) }
    ensures fresh { IfOk result (λ o. AreFresh o.tables.each × (o.log.owed ≡ None)) }
    ensures room { IfOk result (λ o. AllByRecursion (λ t. t.writes < 2 ^ 63) o.tables.each) }
    // If the berth tells its contents.
    ensures told { IsTrue (B.meaning berth.old).tells → IfOk result (λ o.
        StartEnded names.now (B.meaning berth.old) (B.meaning berth.new) (opened_leaf names.now o) o.way) }
    ensures way { IsTrue (B.meaning berth.old).tells
        → IfOk result (λ o. IsWayOf (B.meaning berth.old).held.region o.way) }
    ensures refused { IsTrue (B.meaning berth.old).tells
        → IfErr result (IsOpeningRefusal names.now (B.meaning berth.old) (B.meaning berth.new)) }
    // The answer is what the bytes of region and disk decide, unless the berth fails or memory runs out. A fault of the
    // disk comes only if the region gave no tables.
    ensures exact { IsTrue (B.meaning berth.old).tells
        → IsExact names.now (B.meaning berth.old).held.region (B.meaning berth.old).held.disk (way_of result) }
    // A log that is sound is never damaged.
    ensures sound { IsTrue (B.meaning berth.old).tells
        → IsSound (B.meaning berth.old).held.disk → result ≢ Err fault.DiskDamaged }
    // What a crash leaves at each moment, and after the call.
    ensures moments { IsTrue (B.meaning berth.old).tells
        → Throughout (OpensFrom (B.meaning berth.old)) (B.meaning berth.old) (B.meaning berth.new) }
    ensures disks { IsTrue (B.meaning berth.old).tells → KeepsDisks (B.meaning berth.old) (B.meaning berth.new) result }
    ensures durable { IsTrue (B.meaning berth.old).tells → IfOk result (IsDurable (B.meaning berth.new)) }
    ensures held { IsTrue (B.meaning berth.old).tells → BeginsScan
        (length (B.meaning berth.old).held.disk) (B.meaning berth.old).held.disk (B.meaning berth.new).held.disk }
    ensures log_room { IfOk result (λ o. o.log.end < 2 ^ 63) }
    // On every berth.
    ensures named { IfErr result TellsName }
    ensures time { Passes (B.meaning berth.old) (B.meaning berth.new) }
    ensures region_cause { result ≡ Err fault.RegionFault
        → Rose (B.meaning berth.old).region_faults (B.meaning berth.new).region_faults }
    ensures disk_cause { result ≡ Err fault.DiskFault
        → Rose (B.meaning berth.old).disk_faults (B.meaning berth.new).disk_faults }
    ensures reads { IfOk result (λ o.
        o.way ≡ way.Memory → (B.meaning berth.new).disk_reads ≡ (B.meaning berth.old).disk_reads) }
{
    let found = adopt(alloc, names, berth)?;
    match found {
        Adoption::Tables(adopted) => Ok(from_image(alloc, adopted)),
        Adoption::Stranger(name) => Err(OpenFault::Stranger(name)),
        Adoption::NoTables(why) => {
            let recovered = recover(alloc, names, berth)?;
            Ok(from_log(why, recovered))
        }
    }
}

/// The tables of an image. The log goes on at the place where the image says that it ended.
fn from_image(alloc: Global, adopted: Adopted) -> Opened
    requires { adopted.log_end < 2 ^ 63 }
    ensures tables { result.tables ≡ adopted.tables }
    ensures log { result.log ≡ record { end = adopted.log_end; owed = None; laid = false } }
    ensures way { result.way ≡ way.Memory }
{
    Opened {
        tables: adopted.tables,
        log: BackupLog::at(alloc, adopted.log_end),
        way: Way::Memory,
    }
}

/// The tables of a log that was read to its end, because the region was no image.
fn from_log(why: WhyDisk, recovered: Recovered) -> Opened
    ensures tables { result.tables ≡ recovered.tables }
    ensures log { result.log ≡ recovered.log }
    ensures way { result.way ≡ way.Disk why }
{
    Opened {
        tables: recovered.tables,
        log: recovered.log,
        way: Way::Disk(why),
    }
}
