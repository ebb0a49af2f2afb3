// What a region shows.
ghost use Rattle.std.specs.Prelude.{Err, IfOk, IsTrue, Some, ◌≡◌, ◌≤◌, length, take, true};
ghost use Rattle.berth_face.specs.Causes.{Rose};
ghost use Rattle.region_head.specs.declared.head.Head.TheVariants.{Version};
ghost use Rattle.region_head.specs.Head.{head_of};
ghost use Rattle.region_layout.specs.Region.{HasDirectory, reads};
ghost use Rattle.region_layout.specs.Directory.{IsDirectory};
ghost use Rattle.region_reading.specs.declared.fault.AdoptFault.TheVariants as fault;
ghost use Rattle.region_reading.specs.Reading.{LooksAt, Untouched};
ghost use Rattle.region_inspect.specs.Shows.{Shows};

use crate::seen::{Seen, TableLines};
use crate::tables::inspect_tables;
use berth_face::Berth;
use region_head::Head;
use region_layout::{Directory, reads};
use region_reading::{AdoptFault, Front, Looked, look, read_front};
use std::alloc::Global;

/// Looks at the tables of a region with this directory.
fn inspect_image<B: Berth>(
    alloc: Global,
    version: u32,
    looked: Looked,
    berth: &mut B,
) -> Result<Seen, AdoptFault>
    requires rules { IsDirectory looked.place looked.directory }
    ensures shows { IsTrue (B.meaning berth.old).tells → reads version ≡ true
        → HasDirectory version (B.meaning berth.old).held.region looked.directory
        → IfOk result (Shows (B.meaning berth.old).held.region) }
    ensures untouched { Untouched (B.meaning berth.old) (B.meaning berth.new) }
    ensures cause { result ≡ Err fault.RegionFault
        → Rose (B.meaning berth.old).region_faults (B.meaning berth.new).region_faults }
{
    let Directory { log_end, tables } = looked.directory;
    match inspect_tables(alloc, version, tables.into_inner(), berth)? {
        Some(lines) => Ok(Seen::Image {
            version,
            log_end,
            tables: TableLines::of(lines),
        }),
        None => Ok(Seen::NoImage),
    }
}

/// Looks at a region of this version whose first bytes are these.
fn inspect_version<B: Berth>(
    alloc: Global,
    version: u32,
    front: &[u8; 16],
    berth: &mut B,
) -> Result<Seen, AdoptFault>
    ensures shows { IsTrue (B.meaning berth.old).tells → head_of (B.meaning berth.old).held.region ≡ Version version
        → front.now ≡ take 16 (B.meaning berth.old).held.region
        → IfOk result (Shows (B.meaning berth.old).held.region) }
    ensures untouched { Untouched (B.meaning berth.old) (B.meaning berth.new) }
    ensures cause { result ≡ Err fault.RegionFault
        → Rose (B.meaning berth.old).region_faults (B.meaning berth.new).region_faults }
{
    if !reads(version) {
        return Ok(Seen::OtherVersion(version));
    }
    match look(alloc, front, berth)? {
        Some(looked) => inspect_image(alloc, version, looked, berth),
        None => Ok(Seen::NoImage),
    }
}

/// Tells what the region of a berth holds. The berth stays as it is.
pub fn inspect<B: Berth>(alloc: Global, berth: &mut B) -> Result<Seen, AdoptFault>
    ensures shows { IsTrue (B.meaning berth.old).tells → IfOk result (Shows (B.meaning berth.old).held.region) }
    ensures untouched { Untouched (B.meaning berth.old) (B.meaning berth.new) }
    ensures cause { result ≡ Err fault.RegionFault
        → Rose (B.meaning berth.old).region_faults (B.meaning berth.new).region_faults }
{
    let front = read_front(berth)?;
    match front.head {
        Head::NoHead => Ok(Seen::NoHead),
        Head::Closed(flag) => Ok(Seen::Closed(flag)),
        Head::Version(version) => inspect_version(alloc, version, &front.bytes, berth),
    }
}
