// An adoption, one column a step.
ghost use Rattle.std.specs.Prelude.{◌≡◌, ◌≢◌, ◌<◌, ◌≤◌, ℕ, List, length, take, IsTrue, IfOk, IfSome, Ok, Err};
ghost use Rattle.berth_face.specs.Berth.{Meaning, IsClosed, Passes, Ended, SameDisk};
ghost use Rattle.berth_face.specs.Moments.{Meanwhile, Throughout};
ghost use Rattle.berth_face.specs.Causes.{Rose};
ghost use Rattle.region_layout.specs.Names.{AreNames};
ghost use Rattle.region_reading.specs.declared.fault.AdoptFault.TheVariants as fault;
ghost use Rattle.region_head.specs.declared.head.Head.TheVariants.{Version};
ghost use Rattle.region_head.specs.Head.{head_of};
ghost use Rattle.adopt.specs.Adopting.{Adopting, AdoptsOn, AreAdopted, Finds, IsInImage, KeepsNames, KeepsOn};
ghost use Rattle.region_head.specs.Closing.{AdoptsFrom, ClosedFrom, IsNoLonger, IsOpenRegion};
ghost use Rattle.adopt.specs.Finding.{TakesSpan};

use crate::cells::mean_cells;
use crate::finding::find_closed;
use crate::finishing::finished;
use crate::found::{AdoptStep, Found};
use crate::lists::put;
use crate::spans::Span;
use crate::taken::Adopt;
use berth_face::Berth;
use leaf_model::Names;
use region_head::{Head, close_flag, cut};
use region_reading::{AdoptFault, read_front, read_piece};
use row_blocks::ColumnBytes;
use std::alloc::Global;

/// Reads the head of the region. If the flag is open, it closes it before anything else is read or changed. It then
/// reads the directory of an image that a start adopts, and cuts the region off there.
#[tactic(auto, using(crate::proofs::Ending::untouched_disks))]
pub fn find<B: Berth>(alloc: Global, berth: &mut B, names: &Names) -> Result<Found, AdoptFault>
    requires names { AreNames names.now }
    ensures told { IsTrue (B.meaning berth.old).tells
        → Finds names.now (B.meaning berth.old).held.region (B.meaning berth.new).held.region result }
    ensures ready { IfOk result (KeepsNames names.now) }
    ensures disk { IsTrue (B.meaning berth.old).tells
        → (B.meaning berth.new).held.disk ≡ (B.meaning berth.old).held.disk }
    ensures disks { IsTrue (B.meaning berth.old).tells → Ended SameDisk (B.meaning berth.old) (B.meaning berth.new) }
    ensures moments { IsTrue (B.meaning berth.old).tells
        → Throughout (AdoptsFrom (B.meaning berth.old)) (B.meaning berth.old) (B.meaning berth.new) }
    ensures time { Passes (B.meaning berth.old) (B.meaning berth.new) }
    ensures cause { result ≡ Err fault.RegionFault
        → Rose (B.meaning berth.old).region_faults (B.meaning berth.new).region_faults }
    ensures reads { (B.meaning berth.new).disk_reads ≡ (B.meaning berth.old).disk_reads }
{
    let front = read_front(berth)?;
    match front.head {
        Head::NoHead => Ok(Found::NoHead),
        Head::Closed(flag) => Ok(Found::Closed(flag)),
        Head::Version(version) => find_open(alloc, names, version, &front.bytes, berth),
    }
}

/// Goes on if the flag of the region is open; these are its first bytes.
fn find_open<B: Berth>(
    alloc: Global,
    names: &Names,
    version: u32,
    front: &[u8; 16],
    berth: &mut B,
) -> Result<Found, AdoptFault>
    ensures told { IsTrue (B.meaning berth.old).tells → head_of (B.meaning berth.old).held.region ≡ Version version
        → front.now ≡ take 16 (B.meaning berth.old).held.region
        → Finds names.now (B.meaning berth.old).held.region (B.meaning berth.new).held.region result }
    ensures ready { IfOk result (KeepsNames names.now) }
    ensures disk { IsTrue (B.meaning berth.old).tells
        → (B.meaning berth.new).held.disk ≡ (B.meaning berth.old).held.disk }
    ensures disks { IsTrue (B.meaning berth.old).tells → Ended SameDisk (B.meaning berth.old) (B.meaning berth.new) }
    ensures moments { IsTrue (B.meaning berth.old).tells → IsOpenRegion (B.meaning berth.old).held.region
        → Throughout (AdoptsFrom (B.meaning berth.old)) (B.meaning berth.old) (B.meaning berth.new) }
    ensures time { Passes (B.meaning berth.old) (B.meaning berth.new) }
    ensures cause { result ≡ Err fault.RegionFault
        → Rose (B.meaning berth.old).region_faults (B.meaning berth.new).region_faults }
    ensures reads { (B.meaning berth.new).disk_reads ≡ (B.meaning berth.old).disk_reads }
{
    close_flag(berth)?;
    find_closed(alloc, names, version, front, berth)
}

impl Adopt {
    /// Makes one step: reads the last column that is left in the region and cuts it off. If none is left, it makes
    /// tables of all columns.
    pub fn step<B: Berth>(self, alloc: Global, berth: &mut B) -> Result<AdoptStep, AdoptFault>
        ensures told { (region : List ℕ) → IsTrue (B.meaning berth.old).tells
            → Adopting region self (B.meaning berth.old).held.region
            → AdoptsOn region self (B.meaning berth.new).held.region result }
        ensures adopted { AreAdopted self.names result }
        ensures kept { IfOk result (KeepsOn self) }
        ensures disk { IsTrue (B.meaning berth.old).tells
            → (B.meaning berth.new).held.disk ≡ (B.meaning berth.old).held.disk }
        ensures disks { IsTrue (B.meaning berth.old).tells
            → Ended SameDisk (B.meaning berth.old) (B.meaning berth.new) }
        ensures moments { IsTrue (B.meaning berth.old).tells → IsClosed (B.meaning berth.old).held.region
            → Throughout (ClosedFrom (B.meaning berth.old)) (B.meaning berth.old) (B.meaning berth.new) }
        ensures inside { (region : List ℕ) → IsTrue (B.meaning berth.old).tells
            → Adopting region self (B.meaning berth.old).held.region
            → Meanwhile (IsInImage self) (B.meaning berth.old) (B.meaning berth.new) }
        ensures time { Passes (B.meaning berth.old) (B.meaning berth.new) }
        ensures cause { result ≡ Err fault.RegionFault
            → Rose (B.meaning berth.old).region_faults (B.meaning berth.new).region_faults }
        ensures reads { (B.meaning berth.new).disk_reads ≡ (B.meaning berth.old).disk_reads }
    {
        if self.left.is_empty() {
            return self.finish(alloc);
        }
        self.take_column(alloc, berth)
    }

    /// Makes tables of all columns.
    fn finish(self, alloc: Global) -> Result<AdoptStep, AdoptFault>
        requires none { self.left ≡ 0 }
        ensures told { (region now : List ℕ) → Adopting region self now → AdoptsOn region self now result }
        ensures adopted { AreAdopted self.names result }
        ensures kept { IfOk result (KeepsOn self) }
        ensures no_fault { result ≢ Err fault.RegionFault }
    {
        let mut columns = self.taken;
        columns.reverse();
        finished(alloc, self.directory, columns)
    }

    /// Takes the last column that is left.
    fn take_column<B: Berth>(self, alloc: Global, berth: &mut B) -> Result<AdoptStep, AdoptFault>
        requires some { 0 < self.left }
        ensures told { (region : List ℕ) → IsTrue (B.meaning berth.old).tells
            → Adopting region self (B.meaning berth.old).held.region
            → AdoptsOn region self (B.meaning berth.new).held.region result }
        ensures adopted { AreAdopted self.names result }
        ensures kept { IfOk result (KeepsOn self) }
        ensures disk { IsTrue (B.meaning berth.old).tells
            → (B.meaning berth.new).held.disk ≡ (B.meaning berth.old).held.disk }
        ensures disks { IsTrue (B.meaning berth.old).tells
            → Ended SameDisk (B.meaning berth.old) (B.meaning berth.new) }
        ensures moments { IsTrue (B.meaning berth.old).tells → IsClosed (B.meaning berth.old).held.region
            → Throughout (ClosedFrom (B.meaning berth.old)) (B.meaning berth.old) (B.meaning berth.new) }
        ensures inside { (region : List ℕ) → IsTrue (B.meaning berth.old).tells
            → Adopting region self (B.meaning berth.old).held.region
            → Meanwhile (IsInImage self) (B.meaning berth.old) (B.meaning berth.new) }
        ensures time { Passes (B.meaning berth.old) (B.meaning berth.new) }
        ensures cause { result ≡ Err fault.RegionFault
            → Rose (B.meaning berth.old).region_faults (B.meaning berth.new).region_faults }
        ensures reads { (B.meaning berth.new).disk_reads ≡ (B.meaning berth.old).disk_reads }
    {
        let Adopt {
            names,
            version,
            image_len,
            directory,
            place,
            mut left,
            mut taken,
            held,
        } = self;
        let Some(span) = left.pop() else {
            unreachable!();
        };
        let Some(column) = take_span(alloc, version, span, berth)? else {
            return Ok(AdoptStep::NoImage);
        };
        let held = held + column.as_slice().len() as u64;
        put(column, &mut taken)?;
        Ok(AdoptStep::More(Adopt {
            names,
            version,
            image_len,
            directory,
            place,
            left,
            taken,
            held,
        }))
    }
}

/// Reads a column, and cuts it off the region. None if it means no cells, or is of a kind that the version does not
/// allow.
#[tactic(auto, using(crate::proofs::Ending::untouched_disks))]
fn take_span<B: Berth>(
    alloc: Global,
    version: u32,
    span: Span,
    berth: &mut B,
) -> Result<Option<ColumnBytes>, AdoptFault>
    ensures size { IfOk result (λ found. IfSome found (λ bytes. length bytes ≤ span.length)) }
    ensures told { IsTrue (B.meaning berth.old).tells → IsClosed (B.meaning berth.old).held.region
        → TakesSpan version span (B.meaning berth.old).held.region (B.meaning berth.new).held.region result }
    ensures disk { IsTrue (B.meaning berth.old).tells
        → (B.meaning berth.new).held.disk ≡ (B.meaning berth.old).held.disk }
    ensures disks { IsTrue (B.meaning berth.old).tells → Ended SameDisk (B.meaning berth.old) (B.meaning berth.new) }
    ensures moments { IsTrue (B.meaning berth.old).tells → IsClosed (B.meaning berth.old).held.region
        → Throughout (ClosedFrom (B.meaning berth.old)) (B.meaning berth.old) (B.meaning berth.new) }
    ensures inside { IsTrue (B.meaning berth.old).tells
        → Meanwhile (IsNoLonger (B.meaning berth.old).held.region) (B.meaning berth.old) (B.meaning berth.new) }
    ensures time { Passes (B.meaning berth.old) (B.meaning berth.new) }
    ensures cause { result ≡ Err fault.RegionFault
        → Rose (B.meaning berth.old).region_faults (B.meaning berth.new).region_faults }
    ensures reads { (B.meaning berth.new).disk_reads ≡ (B.meaning berth.old).disk_reads }
{
    let column = read_piece(alloc, span.place, span.length, berth)?;
    if !mean_cells(version, &column, span.rows) {
        return Ok(None);
    }
    cut(span.place, berth)?;
    Ok(Some(ColumnBytes::of(column)))
}
