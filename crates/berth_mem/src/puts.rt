// Calls on contents, each of which is recorded. Without memory they change nothing.
ghost use Rattle.std.specs.Prelude.{ℕ, List, ◌≡◌, ◌+◌, ◌^◌, ◌<◌, ◌++◌, ◌∷◌, [], length, take, drop, OnOk, OnErr, IfOk};
ghost use Rattle.berth_face.specs.Berth.{written};
ghost use Rattle.berth_mem.specs.Record.{Describes};
ghost use Rattle.berth_mem.specs.declared.record.Wrote.{Wrote};
ghost use Rattle.berth_mem.specs.declared.record.CutOff.{CutOff};
ghost use Rattle.berth_mem.specs.declared.record.BerthCall.TheVariants.{WroteRegion, CutRegion, WroteDisk, SyncedDisk};

use crate::bytes::{lost, tail, write_at};
use crate::record::{BerthCall, CutOff, Wrote};
use std::alloc::AllocError;

// A write as the record has it, before it is made.
fn recorded(content: &Vec<u8>, at: u64, len: usize) -> Result<Wrote, AllocError>
    requires { at + len < 2 ^ 63 }
    ensures { (bytes : List ℕ) → length bytes ≡ len
        → IfOk result (λ wrote. Describes wrote at bytes content.now.items) }
{
    Ok(Wrote {
        at,
        len: len as u64,
        lost: lost(*content.allocator(), content, at, len)?,
        was: content.len() as u64,
    })
}

/// Writes to the region.
pub fn region_put(
    region: &mut Vec<u8>,
    calls: &mut Vec<BerthCall>,
    at: u64,
    bytes: &[u8],
) -> Result<(), AllocError>
    requires { at + length bytes.now < 2 ^ 63 }
    ensures region { OnOk result (region.new.items ≡ written at bytes.now region.old.items) }
    ensures call { OnOk result ((w : Wrote) × Describes w at bytes.now region.old.items
        × (calls.new.items ≡ calls.old.items ++ WroteRegion w ∷ [])) }
    ensures err { OnErr result ((region.new.items ≡ region.old.items) × (calls.new.items ≡ calls.old.items)) }
{
    let wrote = recorded(region, at, bytes.len())?;
    calls.reserve(1)?;
    write_at(region, at, bytes)?;
    calls.push_reserved(BerthCall::WroteRegion(wrote));
    Ok(())
}

/// Writes to the disk.
pub fn disk_put(
    disk: &mut Vec<u8>,
    calls: &mut Vec<BerthCall>,
    at: u64,
    bytes: &[u8],
) -> Result<(), AllocError>
    requires { at + length bytes.now < 2 ^ 63 }
    ensures disk { OnOk result (disk.new.items ≡ written at bytes.now disk.old.items) }
    ensures call { OnOk result ((w : Wrote) × Describes w at bytes.now disk.old.items
        × (calls.new.items ≡ calls.old.items ++ WroteDisk w ∷ [])) }
    ensures err { OnErr result ((disk.new.items ≡ disk.old.items) × (calls.new.items ≡ calls.old.items)) }
{
    let wrote = recorded(disk, at, bytes.len())?;
    calls.reserve(1)?;
    write_at(disk, at, bytes)?;
    calls.push_reserved(BerthCall::WroteDisk(wrote));
    Ok(())
}

/// Cuts the region.
pub fn region_shorten(
    region: &mut Vec<u8>,
    calls: &mut Vec<BerthCall>,
    len: u64,
) -> Result<(), AllocError>
    ensures region { OnOk result (region.new.items ≡ take len region.old.items) }
    ensures call { OnOk result ((w : CutOff) × (w.len ≡ len)
        × (w.lost.items ≡ drop len region.old.items) × (calls.new.items ≡ calls.old.items ++ CutRegion w ∷ [])) }
    ensures err { OnErr result ((region.new.items ≡ region.old.items) × (calls.new.items ≡ calls.old.items)) }
{
    let alloc = *region.allocator();
    let lost = tail(alloc, region, len)?;
    calls.push(BerthCall::CutRegion(CutOff { len, lost }))?;
    region.truncate(len as usize);
    Ok(())
}

/// Syncs the disk.
pub fn settled(calls: &mut Vec<BerthCall>) -> Result<(), AllocError>
    ensures call { OnOk result (calls.new.items ≡ calls.old.items ++ SyncedDisk ∷ []) }
    ensures err { OnErr result (calls.new.items ≡ calls.old.items) }
{
    calls.push(BerthCall::SyncedDisk)?;
    Ok(())
}
