// The two halves of settling. The disks that a crash may leave need not be the same.
ghost use Rattle.std.specs.Prelude.{◌≡◌, ◌+◌, ◌^◌, ◌<◌, ℕ, List, IsTrue, OnOk, OnErr, length, true};
ghost use Rattle.berth_face.specs.Causes.{HasCause};
ghost use Rattle.berth_face.specs.Berth.{Passes};
ghost use Rattle.berth_face.specs.Moments.{EachNow, Throughout};
ghost use Rattle.disk_backup.specs.Gates.{ClosedAfter, LaidAfter, OpenAfter, OwingAfter, EitherWay};
ghost use Rattle.disk_backup.specs.Came.{Came};

use berth_face::{Berth, Failed};

/// Brings an owed record onto the disk. After an Err the next call goes on where this one stopped.
pub fn bring<B: Berth>(end: u64, owed: &[u8], laid: &mut bool, berth: &mut B) -> Result<(), Failed>
    requires bound { end < 2 ^ 63 }
    requires room { IsTrue laid.old → end + 1 + length owed.now < 2 ^ 63 }
    ensures laid { OnOk result (laid.new ≡ true) }
    ensures room { IsTrue laid.new → end + 1 + length owed.now < 2 ^ 63 }
    ensures cause { HasCause (B.meaning berth.old).disk_faults (B.meaning berth.new).disk_faults result }
    ensures time { Passes (B.meaning berth.old) (B.meaning berth.new) }
    ensures reads { (B.meaning berth.new).disk_reads ≡ (B.meaning berth.old).disk_reads }
    ensures region { IsTrue (B.meaning berth.old).tells
        → (B.meaning berth.new).held.region ≡ (B.meaning berth.old).held.region }
    ensures crash { IsTrue (B.meaning berth.old).tells
        → Throughout (Came end (OwingAfter laid.old owed.now) (EitherWay owed.now) (B.meaning berth.old))
        (B.meaning berth.old) (B.meaning berth.new)
        × OnOk result (EachNow (Came end (OwingAfter laid.old owed.now)
        (λ front. OpenAfter front owed.now) (B.meaning berth.old)) (B.meaning berth.new))
        × OnErr result (EachNow (Came end (OwingAfter laid.old owed.now)
        (OwingAfter laid.new owed.now) (B.meaning berth.old)) (B.meaning berth.new)) }
{
    lay_once(end, owed, laid, berth)?;
    open_gate(end, berth)
}

// Lays the record, unless it is laid.
fn lay_once<B: Berth>(end: u64, owed: &[u8], laid: &mut bool, berth: &mut B) -> Result<(), Failed>
    requires bound { end < 2 ^ 63 }
    requires room { IsTrue laid.old → end + 1 + length owed.now < 2 ^ 63 }
    ensures laid { OnOk result (laid.new ≡ true) }
    ensures failed { OnErr result (laid.new ≡ laid.old) }
    ensures room { IsTrue laid.new → end + 1 + length owed.now < 2 ^ 63 }
    ensures cause { HasCause (B.meaning berth.old).disk_faults (B.meaning berth.new).disk_faults result }
    ensures time { Passes (B.meaning berth.old) (B.meaning berth.new) }
    ensures reads { (B.meaning berth.new).disk_reads ≡ (B.meaning berth.old).disk_reads }
    ensures region { IsTrue (B.meaning berth.old).tells
        → (B.meaning berth.new).held.region ≡ (B.meaning berth.old).held.region }
    ensures crash { IsTrue (B.meaning berth.old).tells
        → Throughout (Came end (OwingAfter laid.old owed.now) (OwingAfter laid.old owed.now) (B.meaning berth.old))
        (B.meaning berth.old) (B.meaning berth.new)
        × OnOk result (EachNow (Came end (OwingAfter laid.old owed.now)
        (λ front. LaidAfter front owed.now) (B.meaning berth.old)) (B.meaning berth.new)) }
{
    if *laid {
        return Ok(());
    }
    lay(end, owed, berth)?;
    *laid = true;
    Ok(())
}

// Writes a record after the gate that is not open.
fn lay<B: Berth>(end: u64, owed: &[u8], berth: &mut B) -> Result<(), Failed>
    requires { end < 2 ^ 63 }
    ensures room { OnOk result (end + 1 + length owed.now < 2 ^ 63) }
    ensures cause { HasCause (B.meaning berth.old).disk_faults (B.meaning berth.new).disk_faults result }
    ensures time { Passes (B.meaning berth.old) (B.meaning berth.new) }
    ensures reads { (B.meaning berth.new).disk_reads ≡ (B.meaning berth.old).disk_reads }
    ensures region { IsTrue (B.meaning berth.old).tells
        → (B.meaning berth.new).held.region ≡ (B.meaning berth.old).held.region }
    ensures crash { IsTrue (B.meaning berth.old).tells
        → Throughout (Came end ClosedAfter ClosedAfter (B.meaning berth.old))
        (B.meaning berth.old) (B.meaning berth.new)
        × OnOk result (EachNow (Came end ClosedAfter (λ front. LaidAfter front owed.now) (B.meaning berth.old))
        (B.meaning berth.new)) }
{
    berth.disk_write(end + 1, owed)?;
    berth.disk_sync()
}

// Opens the gate before a record that is on the disk.
fn open_gate<B: Berth>(end: u64, berth: &mut B) -> Result<(), Failed>
    ensures cause { HasCause (B.meaning berth.old).disk_faults (B.meaning berth.new).disk_faults result }
    ensures time { Passes (B.meaning berth.old) (B.meaning berth.new) }
    ensures reads { (B.meaning berth.new).disk_reads ≡ (B.meaning berth.old).disk_reads }
    ensures region { IsTrue (B.meaning berth.old).tells
        → (B.meaning berth.new).held.region ≡ (B.meaning berth.old).held.region }
    ensures crash { (owed : List ℕ) → IsTrue (B.meaning berth.old).tells
        → Throughout (Came end (λ front. LaidAfter front owed) (λ front. LaidAfter front owed) (B.meaning berth.old))
        (B.meaning berth.old) (B.meaning berth.new)
        × OnOk result (EachNow (Came end (λ front. LaidAfter front owed)
        (λ front. OpenAfter front owed) (B.meaning berth.old)) (B.meaning berth.new)) }
{
    berth.disk_write(end, &[1])?;
    berth.disk_sync()
}
