// The tables of a leaf out of its region, all columns in one call.
ghost use Rattle.std.specs.Prelude.{◌≡◌, List, ℕ, length, IsTrue, IfOk, IfSome, Err};
ghost use Rattle.berth_face.specs.Berth.{Passes, Ended, SameDisk};
ghost use Rattle.berth_face.specs.Moments.{Throughout};
ghost use Rattle.berth_face.specs.Causes.{Rose};
ghost use Rattle.row_model.specs.Names.{AreDistinct};
ghost use Rattle.region_layout.specs.Names.{AreNames};
ghost use Rattle.region_reading.specs.declared.fault.AdoptFault.TheVariants as fault;
ghost use Rattle.adopt.specs.Adopting.{Adopting};
ghost use Rattle.region_head.specs.Closing.{AdoptsFrom, ClosedFrom};
ghost use Rattle.adopt.specs.Starting.{Adopts, AreArranged, HasTables, IsDrained, TakesAll};

use crate::adopting::find;
use crate::found::{AdoptStep, Adopted, Adoption, Found, ImageTables};
use crate::tables::arranged;
use crate::taken::Adopt;
use berth_face::Berth;
use leaf_model::Names;
use leaf_words::WhyDisk;
use region_reading::AdoptFault;
use std::alloc::{AllocError, Global};

/// Takes the tables of a leaf out of the region's image. It closes an open flag before anything else is read or
/// changed, and cuts each column off the region once it was read.
pub fn adopt<B: Berth>(alloc: Global, names: &Names, berth: &mut B) -> Result<Adoption, AdoptFault>
    requires names { AreNames names.now }
    ensures told { IsTrue (B.meaning berth.old).tells
        → Adopts names.now (B.meaning berth.old).held.region (B.meaning berth.new).held.region result }
    // Each disk that a crash may leave stays as it was.
    ensures disk { IsTrue (B.meaning berth.old).tells
        → (B.meaning berth.new).held.disk ≡ (B.meaning berth.old).held.disk }
    ensures disks { IsTrue (B.meaning berth.old).tells → Ended SameDisk (B.meaning berth.old) (B.meaning berth.new) }
    // What a crash leaves at each moment.
    ensures moments { IsTrue (B.meaning berth.old).tells
        → Throughout (AdoptsFrom (B.meaning berth.old)) (B.meaning berth.old) (B.meaning berth.new) }
    ensures adopted { IfOk result (HasTables (length names.now)) }
    ensures time { Passes (B.meaning berth.old) (B.meaning berth.new) }
    ensures cause { result ≡ Err fault.RegionFault
        → Rose (B.meaning berth.old).region_faults (B.meaning berth.new).region_faults }
    ensures reads { (B.meaning berth.new).disk_reads ≡ (B.meaning berth.old).disk_reads }
{
    match find(alloc, berth, names)? {
        Found::NoHead => Ok(Adoption::NoTables(WhyDisk::NoHead)),
        Found::Closed(flag) => Ok(Adoption::NoTables(WhyDisk::Closed(flag))),
        Found::OtherVersion(version) => Ok(Adoption::NoTables(WhyDisk::OtherVersion(version))),
        Found::NoImage => Ok(Adoption::NoTables(WhyDisk::NoImage)),
        Found::Stranger(name) => Ok(Adoption::Stranger(name)),
        Found::Ready(image) => adopt_image(alloc, names, image, berth),
    }
}

/// Goes on with an image, whose columns are to be taken.
fn adopt_image<B: Berth>(
    alloc: Global,
    names: &Names,
    image: Adopt,
    berth: &mut B,
) -> Result<Adoption, AdoptFault>
    requires distinct { AreDistinct names.now }
    requires same { image.names ≡ names.now }
    ensures told { (region : List ℕ) → IsTrue (B.meaning berth.old).tells
        → Adopting region image (B.meaning berth.old).held.region
        → Adopts names.now region (B.meaning berth.new).held.region result }
    ensures adopted { IfOk result (HasTables (length names.now)) }
    ensures disk { IsTrue (B.meaning berth.old).tells
        → (B.meaning berth.new).held.disk ≡ (B.meaning berth.old).held.disk }
    ensures disks { IsTrue (B.meaning berth.old).tells → Ended SameDisk (B.meaning berth.old) (B.meaning berth.new) }
    ensures moments { (region : List ℕ) → IsTrue (B.meaning berth.old).tells
        → Adopting region image (B.meaning berth.old).held.region
        → Throughout (ClosedFrom (B.meaning berth.old)) (B.meaning berth.old) (B.meaning berth.new) }
    ensures time { Passes (B.meaning berth.old) (B.meaning berth.new) }
    ensures cause { result ≡ Err fault.RegionFault
        → Rose (B.meaning berth.old).region_faults (B.meaning berth.new).region_faults }
    ensures reads { (B.meaning berth.new).disk_reads ≡ (B.meaning berth.old).disk_reads }
{
    match take_all(alloc, image, berth)? {
        Some(drained) => Ok(Adoption::Tables(adopted(alloc, names, drained)?)),
        None => Ok(Adoption::NoTables(WhyDisk::NoImage)),
    }
}

/// The table for each name.
fn adopted(alloc: Global, names: &Names, drained: ImageTables) -> Result<Adopted, AllocError>
    requires distinct { AreDistinct names.now }
    requires drained { IsDrained names.now drained }
    ensures { IfOk result (AreArranged names.now drained) }
{
    let ImageTables { tables, log_end } = drained;
    Ok(Adopted {
        tables: arranged(alloc, names.as_slice(), tables.into_inner())?,
        log_end,
    })
}

/// Takes all columns that are left. None if they make no tables.
fn take_all<B: Berth>(
    alloc: Global,
    image: Adopt,
    berth: &mut B,
) -> Result<Option<ImageTables>, AdoptFault>
    ensures told { (region : List ℕ) → IsTrue (B.meaning berth.old).tells
        → Adopting region image (B.meaning berth.old).held.region
        → TakesAll region (B.meaning berth.new).held.region result }
    ensures drained { IfOk result (λ found. IfSome found (IsDrained image.names)) }
    ensures disk { IsTrue (B.meaning berth.old).tells
        → (B.meaning berth.new).held.disk ≡ (B.meaning berth.old).held.disk }
    ensures disks { IsTrue (B.meaning berth.old).tells → Ended SameDisk (B.meaning berth.old) (B.meaning berth.new) }
    ensures moments { (region : List ℕ) → IsTrue (B.meaning berth.old).tells
        → Adopting region image (B.meaning berth.old).held.region
        → Throughout (ClosedFrom (B.meaning berth.old)) (B.meaning berth.old) (B.meaning berth.new) }
    ensures time { Passes (B.meaning berth.old) (B.meaning berth.new) }
    ensures cause { result ≡ Err fault.RegionFault
        → Rose (B.meaning berth.old).region_faults (B.meaning berth.new).region_faults }
    ensures reads { (B.meaning berth.new).disk_reads ≡ (B.meaning berth.old).disk_reads }
{
    let mut left = image;
    loop {
        match left.step(alloc, berth)? {
            AdoptStep::More(more) => left = more,
            AdoptStep::NoImage => return Ok(None),
            AdoptStep::Finished { tables, log_end } => {
                return Ok(Some(ImageTables { tables, log_end }));
            }
        }
    }
}
