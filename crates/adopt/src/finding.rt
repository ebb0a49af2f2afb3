// What stands in a region whose flag was closed.
ghost use Rattle.std.specs.Prelude.{◌≡◌, ℕ, List, length, map, take, [], true, None, Some, IsTrue, IfOk, Err};
ghost use Rattle.berth_face.specs.Causes.{Rose};
ghost use Rattle.berth_face.specs.Berth.{IsClosed, Passes, Ended, SameDisk};
ghost use Rattle.berth_face.specs.Moments.{Throughout};
ghost use Rattle.region_head.specs.declared.head.Head.TheVariants.{Version};
ghost use Rattle.region_head.specs.Head.{head_of};
ghost use Rattle.region_layout.specs.declared.directory.TablePlaces.{TablePlaces};
ghost use Rattle.region_layout.specs.Region.{reads};
ghost use Rattle.region_reading.specs.Reading.{IsRead, LooksAt};
ghost use Rattle.region_reading.specs.declared.fault.AdoptFault.TheVariants as fault;
ghost use Rattle.region_head.specs.Closing.{ClosedFrom, closed_flag};
ghost use Rattle.adopt.specs.Adopting.{Finds, KeepsNames};
ghost use Rattle.region_strangers.specs.Strangers.{stranger_of};
ghost use Rattle.adopt.specs.Taken.{spans_of};

use crate::found::Found;
use crate::spans::{Span, spans_of};
use crate::taken::Adopt;
use berth_face::Berth;
use leaf_model::Names;
use region_head::cut;
use region_layout::{Directory, reads};
use region_reading::{AdoptFault, Looked, look};
use region_strangers::all_known;
use std::alloc::Global;
use std::snapshot::Snapshot;

/// Goes on after the flag was closed; these are the first bytes as they were before.
#[tactic(auto, using(crate::proofs::Ending::untouched_disks))]
pub fn find_closed<B: Berth>(
    alloc: Global,
    names: &Names,
    version: u32,
    front: &[u8; 16],
    berth: &mut B,
) -> Result<Found, AdoptFault>
    ensures told { (region : List ℕ) → IsTrue (B.meaning berth.old).tells
        → (B.meaning berth.old).held.region ≡ closed_flag region → head_of region ≡ Version version
        → front.now ≡ take 16 region → Finds names.now region (B.meaning berth.new).held.region result }
    ensures ready { IfOk result (KeepsNames names.now) }
    ensures disk { IsTrue (B.meaning berth.old).tells
        → (B.meaning berth.new).held.disk ≡ (B.meaning berth.old).held.disk }
    ensures disks { IsTrue (B.meaning berth.old).tells → Ended SameDisk (B.meaning berth.old) (B.meaning berth.new) }
    ensures moments { IsTrue (B.meaning berth.old).tells → IsClosed (B.meaning berth.old).held.region
        → Throughout (ClosedFrom (B.meaning berth.old)) (B.meaning berth.old) (B.meaning berth.new) }
    ensures time { Passes (B.meaning berth.old) (B.meaning berth.new) }
    ensures cause { result ≡ Err fault.RegionFault
        → Rose (B.meaning berth.old).region_faults (B.meaning berth.new).region_faults }
    ensures reads { (B.meaning berth.new).disk_reads ≡ (B.meaning berth.old).disk_reads }
{
    if !reads(version) {
        return Ok(Found::OtherVersion(version));
    }
    match look(alloc, front, berth)? {
        Some(looked) => find_known(alloc, names, version, looked, berth),
        None => Ok(Found::NoImage),
    }
}

/// Goes on with this directory, of a version that is read.
fn find_known<B: Berth>(
    alloc: Global,
    names: &Names,
    version: u32,
    looked: Looked,
    berth: &mut B,
) -> Result<Found, AdoptFault>
    requires read { IsRead looked.place looked.directory }
    ensures told { (region : List ℕ) → IsTrue (B.meaning berth.old).tells
        → (B.meaning berth.old).held.region ≡ closed_flag region → reads version ≡ true
        → LooksAt version region (Some looked) → Finds names.now region (B.meaning berth.new).held.region result }
    ensures ready { IfOk result (KeepsNames names.now) }
    ensures disk { IsTrue (B.meaning berth.old).tells
        → (B.meaning berth.new).held.disk ≡ (B.meaning berth.old).held.disk }
    ensures disks { IsTrue (B.meaning berth.old).tells → Ended SameDisk (B.meaning berth.old) (B.meaning berth.new) }
    ensures moments { IsTrue (B.meaning berth.old).tells → IsClosed (B.meaning berth.old).held.region
        → Throughout (ClosedFrom (B.meaning berth.old)) (B.meaning berth.old) (B.meaning berth.new) }
    ensures time { Passes (B.meaning berth.old) (B.meaning berth.new) }
    ensures cause { result ≡ Err fault.RegionFault
        → Rose (B.meaning berth.old).region_faults (B.meaning berth.new).region_faults }
    ensures reads { (B.meaning berth.new).disk_reads ≡ (B.meaning berth.old).disk_reads }
{
    let Looked {
        directory: Directory { log_end, tables },
        place,
        image_len,
    } = looked;
    match all_known(names.as_slice(), tables) {
        Ok(tables) => {
            let directory = Directory { log_end, tables };
            let looked = Looked {
                directory,
                place,
                image_len,
            };
            take_up(alloc, names, version, looked, berth)
        }
        Err(name) => Ok(Found::Stranger(name)),
    }
}

/// Begins the adoption: each table of the directory has one of the names.
fn take_up<B: Berth>(
    alloc: Global,
    names: &Names,
    version: u32,
    looked: Looked,
    berth: &mut B,
) -> Result<Found, AdoptFault>
    requires read { IsRead looked.place looked.directory }
    requires known { stranger_of names.now (map (λ (t : TablePlaces). t.name) looked.directory.tables) ≡ None }
    ensures told { (region : List ℕ) → IsTrue (B.meaning berth.old).tells
        → (B.meaning berth.old).held.region ≡ closed_flag region → reads version ≡ true
        → LooksAt version region (Some looked) → Finds names.now region (B.meaning berth.new).held.region result }
    ensures ready { IfOk result (KeepsNames names.now) }
    ensures disk { IsTrue (B.meaning berth.old).tells
        → (B.meaning berth.new).held.disk ≡ (B.meaning berth.old).held.disk }
    ensures disks { IsTrue (B.meaning berth.old).tells → Ended SameDisk (B.meaning berth.old) (B.meaning berth.new) }
    ensures moments { IsTrue (B.meaning berth.old).tells → IsClosed (B.meaning berth.old).held.region
        → Throughout (ClosedFrom (B.meaning berth.old)) (B.meaning berth.old) (B.meaning berth.new) }
    ensures time { Passes (B.meaning berth.old) (B.meaning berth.new) }
    ensures cause { result ≡ Err fault.RegionFault
        → Rose (B.meaning berth.old).region_faults (B.meaning berth.new).region_faults }
    ensures reads { (B.meaning berth.new).disk_reads ≡ (B.meaning berth.old).disk_reads }
{
    let left = spans_of(alloc, &looked.directory)?;
    cut(looked.place, berth)?;
    Ok(Found::Ready(begun(alloc, names, version, looked, left)))
}

/// An adoption that has taken nothing.
fn begun(alloc: Global, names: &Names, version: u32, looked: Looked, left: Vec<Span>) -> Adopt
    requires read { IsRead looked.place looked.directory }
    requires known { stranger_of names.now (map (λ (t : TablePlaces). t.name) looked.directory.tables) ≡ None }
    requires left { left.items ≡ spans_of looked.directory }
    ensures { result
        ≡ record {
          names = names.now;
          version = version;
          image_len = looked.image_len;
          directory = looked.directory;
          left = length left.items;
          heap = [];
        } }
{
    Adopt {
        names: Snapshot::of(names),
        version,
        image_len: looked.image_len,
        directory: looked.directory,
        place: looked.place,
        left,
        taken: Vec::new(alloc),
        held: 0,
    }
}
