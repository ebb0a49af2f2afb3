// The first gate of a disk that has none.
ghost use Rattle.std.specs.Prelude.{◌≡◌, ◌≤◌, [], ◌∷◌, length, IsTrue, OnOk};
ghost use Rattle.berth_face.specs.Causes.{HasCause};
ghost use Rattle.berth_face.specs.Berth.{Passes, Torn};
ghost use Rattle.berth_face.specs.Moments.{EachNow, Throughout};
ghost use Rattle.disk_backup.specs.Scanning.{StepsFrom, BeginsScan};

use berth_face::{Berth, Failed};

/// Makes a disk of at most one byte a disk of one gate that is not open.
pub fn first_gate<B: Berth>(len: u64, berth: &mut B) -> Result<(), Failed>
    requires { len ≤ 1 }
    ensures gate { IsTrue (B.meaning berth.old).tells
        → length (B.meaning berth.old).held.disk ≤ 1 → OnOk result ((B.meaning berth.new).held.disk ≡ 0 ∷ []) }
    ensures held { IsTrue (B.meaning berth.old).tells → len ≡ length (B.meaning berth.old).held.disk
        → BeginsScan len (B.meaning berth.old).held.disk (B.meaning berth.new).held.disk }
    ensures region { IsTrue (B.meaning berth.old).tells
        → (B.meaning berth.new).held.region ≡ (B.meaning berth.old).held.region }
    ensures durable { IsTrue (B.meaning berth.old).tells
        → OnOk result (EachNow (λ p. p.disk ≡ (B.meaning berth.new).held.disk) (B.meaning berth.new)) }
    ensures moments { IsTrue (B.meaning berth.old).tells → len ≡ length (B.meaning berth.old).held.disk
        → Throughout (StepsFrom (BeginsScan len) (B.meaning berth.old)) (B.meaning berth.old) (B.meaning berth.new) }
    ensures time { Passes (B.meaning berth.old) (B.meaning berth.new) }
    ensures cause { HasCause (B.meaning berth.old).disk_faults (B.meaning berth.new).disk_faults result }
    ensures reads { (B.meaning berth.new).disk_reads ≡ (B.meaning berth.old).disk_reads }
{
    if len == 0 {
        return put_gate(berth);
    }
    berth.disk_sync()?;
    put_gate(berth)
}

fn put_gate<B: Berth>(berth: &mut B) -> Result<(), Failed>
    ensures gate { IsTrue (B.meaning berth.old).tells
        → length (B.meaning berth.old).held.disk ≤ 1 → OnOk result ((B.meaning berth.new).held.disk ≡ 0 ∷ []) }
    ensures held { IsTrue (B.meaning berth.old).tells
        → Torn 0 1 (B.meaning berth.old).held.disk (B.meaning berth.new).held.disk }
    ensures region { IsTrue (B.meaning berth.old).tells
        → (B.meaning berth.new).held.region ≡ (B.meaning berth.old).held.region }
    ensures durable { IsTrue (B.meaning berth.old).tells
        → OnOk result (EachNow (λ p. p.disk ≡ (B.meaning berth.new).held.disk) (B.meaning berth.new)) }
    ensures moments { IsTrue (B.meaning berth.old).tells
        → Throughout (StepsFrom (Torn 0 1) (B.meaning berth.old)) (B.meaning berth.old) (B.meaning berth.new) }
    ensures time { Passes (B.meaning berth.old) (B.meaning berth.new) }
    ensures cause { HasCause (B.meaning berth.old).disk_faults (B.meaning berth.new).disk_faults result }
    ensures reads { (B.meaning berth.new).disk_reads ≡ (B.meaning berth.old).disk_reads }
{
    berth.disk_write(0, &[0])?;
    berth.disk_sync()
}
