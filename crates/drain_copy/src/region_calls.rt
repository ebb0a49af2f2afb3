// What each step of a drain does to the region.
ghost use Rattle.std.specs.Prelude.{◌≡◌, ◌⊎◌, ◌+◌, ◌<◌, ◌^◌, ◌≤◌, ◌∷◌, ◌++◌, length, drop, replicate, OnOk, OnErr, IsTrue};
ghost use Rattle.berth_face.specs.Causes.{HasCause};
ghost use Rattle.berth_face.specs.Berth.{IsClosed, Passes, Ended, SameDisk};
ghost use Rattle.berth_face.specs.Moments.{Meanwhile, Throughout};
ghost use Rattle.drain_copy.specs.Draining.{AllClosed};
ghost use Rattle.drain_copy.specs.Regions.{LeftFrom, ClosedOrOpened, EndsAt, IsCutOrBegun, IsWithin};

use berth_face::{Berth, Failed};

/// Empties the region and writes a closed head, 16 bytes of 0. The flag goes first, so a write that is cut short leaves
/// the region closed.
pub fn begin<B: Berth>(berth: &mut B) -> Result<(), Failed>
    ensures done { IsTrue (B.meaning berth.old).tells
        → OnOk result ((B.meaning berth.new).held.region ≡ replicate 16 0) }
    ensures failed { IsTrue (B.meaning berth.old).tells
        → IsClosed (B.meaning berth.old).held.region → OnErr result (IsClosed (B.meaning berth.new).held.region) }
    ensures disk { IsTrue (B.meaning berth.old).tells
        → (B.meaning berth.new).held.disk ≡ (B.meaning berth.old).held.disk }
    ensures disks { IsTrue (B.meaning berth.old).tells → Ended SameDisk (B.meaning berth.old) (B.meaning berth.new) }
    ensures moments { IsTrue (B.meaning berth.old).tells → AllClosed (B.meaning berth.old)
        → Throughout (LeftFrom IsClosed (B.meaning berth.old)) (B.meaning berth.old) (B.meaning berth.new) }
    ensures begun { IsTrue (B.meaning berth.old).tells
        → Meanwhile (IsCutOrBegun (B.meaning berth.old).held.region) (B.meaning berth.old) (B.meaning berth.new) }
    ensures time { Passes (B.meaning berth.old) (B.meaning berth.new) }
    ensures cause { HasCause (B.meaning berth.old).region_faults (B.meaning berth.new).region_faults result }
    ensures reads { (B.meaning berth.new).disk_reads ≡ (B.meaning berth.old).disk_reads }
{
    berth.region_cut(0)?;
    berth.region_write(0, &[0])?;
    berth.region_write(1, &[0; 15])
}

/// Appends bytes to a region that ends at `at` and whose flag is closed.
pub fn append<B: Berth>(bytes: &[u8], at: u64, berth: &mut B) -> Result<(), Failed>
    requires { 1 ≤ at }
    ensures done { IsTrue (B.meaning berth.old).tells → EndsAt at (B.meaning berth.old).held.region
        → OnOk result ((B.meaning berth.new).held.region ≡ (B.meaning berth.old).held.region ++ bytes.now) }
    ensures failed { IsTrue (B.meaning berth.old).tells
        → EndsAt at (B.meaning berth.old).held.region → OnErr result (IsClosed (B.meaning berth.new).held.region) }
    ensures disk { IsTrue (B.meaning berth.old).tells
        → (B.meaning berth.new).held.disk ≡ (B.meaning berth.old).held.disk }
    ensures disks { IsTrue (B.meaning berth.old).tells → Ended SameDisk (B.meaning berth.old) (B.meaning berth.new) }
    ensures moments { IsTrue (B.meaning berth.old).tells
        → EndsAt at (B.meaning berth.old).held.region → AllClosed (B.meaning berth.old)
        → Throughout (LeftFrom IsClosed (B.meaning berth.old)) (B.meaning berth.old) (B.meaning berth.new) }
    ensures inside { IsTrue (B.meaning berth.old).tells → EndsAt at (B.meaning berth.old).held.region
        → Meanwhile (IsWithin (at + length bytes.now)) (B.meaning berth.old) (B.meaning berth.new) }
    ensures time { Passes (B.meaning berth.old) (B.meaning berth.new) }
    ensures cause { HasCause (B.meaning berth.old).region_faults (B.meaning berth.new).region_faults result }
    ensures reads { (B.meaning berth.new).disk_reads ≡ (B.meaning berth.old).disk_reads }
{
    berth.region_write(at, bytes)
}

/// Appends the directory to a region that ends at `at`, and then writes the head but for its flag.
pub fn finish<B: Berth>(directory: &[u8], head: &[u8], at: u64, berth: &mut B) -> Result<(), Failed>
    requires at { 16 ≤ at }
    requires fits { at + length directory.now < 2 ^ 63 }
    requires head { length head.now ≡ 15 }
    ensures done { IsTrue (B.meaning berth.old).tells → EndsAt at (B.meaning berth.old).held.region
        → OnOk result ((B.meaning berth.new).held.region
        ≡ 0 ∷ (head.now ++ drop 16 ((B.meaning berth.old).held.region ++ directory.now))) }
    ensures failed { IsTrue (B.meaning berth.old).tells
        → EndsAt at (B.meaning berth.old).held.region → OnErr result (IsClosed (B.meaning berth.new).held.region) }
    ensures disk { IsTrue (B.meaning berth.old).tells
        → (B.meaning berth.new).held.disk ≡ (B.meaning berth.old).held.disk }
    ensures disks { IsTrue (B.meaning berth.old).tells → Ended SameDisk (B.meaning berth.old) (B.meaning berth.new) }
    ensures moments { IsTrue (B.meaning berth.old).tells
        → EndsAt at (B.meaning berth.old).held.region → AllClosed (B.meaning berth.old)
        → Throughout (LeftFrom IsClosed (B.meaning berth.old)) (B.meaning berth.old) (B.meaning berth.new) }
    ensures inside { IsTrue (B.meaning berth.old).tells → EndsAt at (B.meaning berth.old).held.region
        → Meanwhile (IsWithin (at + length directory.now)) (B.meaning berth.old) (B.meaning berth.new) }
    ensures time { Passes (B.meaning berth.old) (B.meaning berth.new) }
    ensures cause { HasCause (B.meaning berth.old).region_faults (B.meaning berth.new).region_faults result }
    ensures reads { (B.meaning berth.new).disk_reads ≡ (B.meaning berth.old).disk_reads }
{
    berth.region_write(at, directory)?;
    berth.region_write(1, head)
}

/// Opens the flag.
pub fn open<B: Berth>(berth: &mut B) -> Result<(), Failed>
    ensures done { IsTrue (B.meaning berth.old).tells
        → OnOk result ((B.meaning berth.new).held.region ≡ 1 ∷ drop 1 (B.meaning berth.old).held.region) }
    ensures failed { IsTrue (B.meaning berth.old).tells
        → OnErr result (IsClosed (B.meaning berth.new).held.region
        ⊎ ((B.meaning berth.new).held.region ≡ 1 ∷ drop 1 (B.meaning berth.old).held.region)) }
    ensures disk { IsTrue (B.meaning berth.old).tells
        → (B.meaning berth.new).held.disk ≡ (B.meaning berth.old).held.disk }
    ensures disks { IsTrue (B.meaning berth.old).tells → Ended SameDisk (B.meaning berth.old) (B.meaning berth.new) }
    ensures moments { IsTrue (B.meaning berth.old).tells → AllClosed (B.meaning berth.old)
        → Throughout (LeftFrom (ClosedOrOpened (drop 1 (B.meaning berth.old).held.region)) (B.meaning berth.old))
        (B.meaning berth.old) (B.meaning berth.new) }
    ensures inside { IsTrue (B.meaning berth.old).tells → 1 ≤ length (B.meaning berth.old).held.region
        → Meanwhile (IsWithin (length (B.meaning berth.old).held.region)) (B.meaning berth.old) (B.meaning berth.new) }
    ensures time { Passes (B.meaning berth.old) (B.meaning berth.new) }
    ensures cause { HasCause (B.meaning berth.old).region_faults (B.meaning berth.new).region_faults result }
    ensures reads { (B.meaning berth.new).disk_reads ≡ (B.meaning berth.old).disk_reads }
{
    berth.region_write(0, &[1])
}
