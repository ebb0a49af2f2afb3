// The calls that change a region.
ghost use Rattle.std.specs.Prelude.{◌≡◌, take, OnOk, OnErr, IsTrue};
ghost use Rattle.berth_face.specs.Causes.{HasCause};
ghost use Rattle.berth_face.specs.Berth.{IsClosed, Passes, Ended, SameDisk, Torn};
ghost use Rattle.berth_face.specs.Moments.{Meanwhile, Throughout};
ghost use Rattle.region_head.specs.Closing.{AdoptsFrom, ClosedFrom, IsNoLonger, IsOpenRegion, closed_flag};

use berth_face::{Berth, Failed};

/// Closes the flag of the region.
pub fn close_flag<B: Berth>(berth: &mut B) -> Result<(), Failed>
    ensures ok { IsTrue (B.meaning berth.old).tells
        → OnOk result ((B.meaning berth.new).held.region ≡ closed_flag (B.meaning berth.old).held.region) }
    ensures err { IsTrue (B.meaning berth.old).tells
        → OnErr result (Torn 0 1 (B.meaning berth.old).held.region (B.meaning berth.new).held.region) }
    ensures disk { IsTrue (B.meaning berth.old).tells
        → (B.meaning berth.new).held.disk ≡ (B.meaning berth.old).held.disk }
    ensures disks { IsTrue (B.meaning berth.old).tells → Ended SameDisk (B.meaning berth.old) (B.meaning berth.new) }
    ensures moments { IsTrue (B.meaning berth.old).tells → IsOpenRegion (B.meaning berth.old).held.region
        → Throughout (AdoptsFrom (B.meaning berth.old)) (B.meaning berth.old) (B.meaning berth.new) }
    ensures time { Passes (B.meaning berth.old) (B.meaning berth.new) }
    ensures cause { HasCause (B.meaning berth.old).region_faults (B.meaning berth.new).region_faults result }
    ensures reads { (B.meaning berth.new).disk_reads ≡ (B.meaning berth.old).disk_reads }
{
    berth.region_write(0, &[0])
}

/// Cuts a region whose flag is closed.
pub fn cut<B: Berth>(at: u64, berth: &mut B) -> Result<(), Failed>
    ensures ok { IsTrue (B.meaning berth.old).tells
        → OnOk result ((B.meaning berth.new).held.region ≡ take at (B.meaning berth.old).held.region) }
    ensures err { IsTrue (B.meaning berth.old).tells
        → IsClosed (B.meaning berth.old).held.region → OnErr result (IsClosed (B.meaning berth.new).held.region) }
    ensures disk { IsTrue (B.meaning berth.old).tells
        → (B.meaning berth.new).held.disk ≡ (B.meaning berth.old).held.disk }
    ensures disks { IsTrue (B.meaning berth.old).tells → Ended SameDisk (B.meaning berth.old) (B.meaning berth.new) }
    ensures moments { IsTrue (B.meaning berth.old).tells → IsClosed (B.meaning berth.old).held.region
        → Throughout (ClosedFrom (B.meaning berth.old)) (B.meaning berth.old) (B.meaning berth.new) }
    ensures inside { IsTrue (B.meaning berth.old).tells
        → Meanwhile (IsNoLonger (B.meaning berth.old).held.region) (B.meaning berth.old) (B.meaning berth.new) }
    ensures time { Passes (B.meaning berth.old) (B.meaning berth.new) }
    ensures cause { HasCause (B.meaning berth.old).region_faults (B.meaning berth.new).region_faults result }
    ensures reads { (B.meaning berth.new).disk_reads ≡ (B.meaning berth.old).disk_reads }
{
    berth.region_cut(at)
}
