// A crash image of any moment, as a berth of its own.
ghost use Rattle.std.specs.Prelude.{◌≡◌, ◌+◌, ◌-◌, ◌*◌, ◌^◌, ◌<◌, ◌≤◌, List, ℕ, length, take, drop, false, IfOk, OnOk, ◌⊎◌, []};
ghost use Rattle.berth_face.specs.Berth.{Torn, Cut};
ghost use Rattle.berth_mem.specs.Picked.{IsUnsynced, Unsynced, breaks_at};
ghost use Rattle.berth_mem.specs.Record.{moments, leaves_at, undone, region_undone, disk_undone, region_before, disk_before};

use crate::bytes::{is_far, write_at};
use crate::record::{BerthCall, Wrote};
use std::alloc::{AllocError, Global};

// Puts back what a write overwrote.
fn undo(content: &mut Vec<u8>, wrote: &Wrote) -> Result<(), AllocError>
    ensures { OnOk result (content.new.items ≡ undone wrote.now content.old.items) }
{
    let alloc = *content.allocator();
    let size = content.len();
    let at = if wrote.at < size as u64 {
        wrote.at as usize
    } else {
        size
    };
    let mut next = content[..at].to_vec(alloc)?;
    next.extend_from_slice(&wrote.lost)?;
    if wrote.at < size as u64 && wrote.lost.len() < size - at {
        next.extend_from_slice(&content[at + wrote.lost.len()..])?;
    }
    next.truncate(if wrote.was < usize::MAX as u64 {
        wrote.was as usize
    } else {
        usize::MAX
    });
    *content = next;
    Ok(())
}

fn undo_region(content: &mut Vec<u8>, call: &BerthCall) -> Result<(), AllocError>
    ensures { OnOk result (content.new.items ≡ region_undone call.now content.old.items) }
{
    match call {
        BerthCall::WroteRegion(wrote) => undo(content, wrote),
        BerthCall::CutRegion(cut) => content.extend_from_slice(&cut.lost),
        BerthCall::WroteDisk(_) => Ok(()),
        BerthCall::SyncedDisk => Ok(()),
    }
}

fn undo_disk(content: &mut Vec<u8>, call: &BerthCall) -> Result<(), AllocError>
    ensures { OnOk result (content.new.items ≡ disk_undone call.now content.old.items) }
{
    match call {
        BerthCall::WroteRegion(_) => Ok(()),
        BerthCall::CutRegion(_) => Ok(()),
        BerthCall::WroteDisk(wrote) => undo(content, wrote),
        BerthCall::SyncedDisk => Ok(()),
    }
}

/// The region as it was before call k and all later ones.
pub fn region_at(now: &Vec<u8>, calls: &[BerthCall], k: usize) -> Result<Vec<u8>, AllocError>
    requires { k ≤ length calls.now }
    ensures { IfOk result (λ v. v.items ≡ region_before (drop k calls.now) now.now.items) }
{
    let alloc = *now.allocator();
    let mut content = now.to_vec(alloc)?;
    let mut i = calls.len();
    while i > k {
        i -= 1;
        undo_region(&mut content, &calls[i])?;
    }
    Ok(content)
}

pub fn disk_at(now: &Vec<u8>, calls: &[BerthCall], k: usize) -> Result<Vec<u8>, AllocError>
    requires { k ≤ length calls.now }
    ensures { IfOk result (λ v. v.items ≡ disk_before (drop k calls.now) now.now.items) }
{
    let alloc = *now.allocator();
    let mut content = now.to_vec(alloc)?;
    let mut i = calls.len();
    while i > k {
        i -= 1;
        undo_disk(&mut content, &calls[i])?;
    }
    Ok(content)
}

// What a crash left of a write's bytes: none, half of them, all, or others in their place.
fn left_of(
    alloc: Global,
    after: &[u8],
    at: u64,
    len: u64,
    shape: u64,
) -> Result<Vec<u8>, AllocError>
    requires { len < 2 ^ 63 }
    ensures { IfOk result (λ v. length v.items ≤ len) }
{
    if shape == 3 {
        let mut bytes = Vec::new(alloc);
        bytes.resize(len as usize, 255)?;
        return Ok(bytes);
    }
    let most = if shape == 0 {
        0
    } else if shape == 1 {
        len / 2
    } else {
        len
    };
    let from = (at as usize).min(after.len());
    let count = (most as usize).min(after.len() - from);
    after[from..from + count].to_vec(alloc)
}

// What a crash inside a write left.
fn broken(
    alloc: Global,
    before: &[u8],
    after: &[u8],
    wrote: &Wrote,
    shape: u64,
) -> Result<Vec<u8>, AllocError>
    ensures { IfOk result (λ v. Torn wrote.now.at wrote.now.len before.now v.items) }
{
    if is_far(wrote.at, wrote.len as usize) {
        return before.to_vec(alloc);
    }
    let bytes = left_of(alloc, after, wrote.at, wrote.len, shape)?;
    let mut made = before.to_vec(alloc)?;
    write_at(&mut made, wrote.at, &bytes)?;
    Ok(made)
}

// The first call whose write a crash takes: call k, or the one after the last sync before it.
fn kept(calls: &[BerthCall], k: usize, unsynced_lost: bool) -> usize
    requires { k ≤ length calls.now }
    ensures bound { result ≤ k }
    ensures unsynced { Unsynced (take (k - result) (drop result calls.now)) }
{
    let mut from = k;
    while unsynced_lost && from > 0 && !is_sync(&calls[from - 1]) {
        from -= 1;
    }
    from
}

fn is_sync(call: &BerthCall) -> bool
    ensures { result ≡ false → IsUnsynced call.now }
{
    match call {
        BerthCall::WroteRegion(_) => false,
        BerthCall::CutRegion(_) => false,
        BerthCall::WroteDisk(_) => false,
        BerthCall::SyncedDisk => true,
    }
}

// The region and the disk that a crash inside call k left, by its shape, if this disk was left before the call.
fn broken_at(
    region: &Vec<u8>,
    disk: &Vec<u8>,
    calls: &[BerthCall],
    k: usize,
    from: Vec<u8>,
    shape: u64,
) -> Result<(Vec<u8>, Vec<u8>), AllocError>
    requires { k < length calls.now }
    ensures { IfOk result (λ made. breaks_at
        (drop k calls.now) region.now.items from.items (record { region = made.0.items; disk = made.1.items })) }
{
    let alloc = *region.allocator();
    let old_region = region_at(region, calls, k)?;
    match &calls[k] {
        BerthCall::WroteRegion(wrote) => {
            let after = region_at(region, calls, k + 1)?;
            let made = broken(alloc, &old_region, &after, wrote, shape)?;
            Ok((made, from))
        }
        BerthCall::CutRegion(_) => Ok((old_region, from)),
        BerthCall::WroteDisk(wrote) => {
            let after = disk_at(disk, calls, k + 1)?;
            let made = broken(alloc, &from, &after, wrote, shape)?;
            Ok((old_region, made))
        }
        BerthCall::SyncedDisk => Ok((old_region, from)),
    }
}

/// The region and the disk that a crash at this moment left: with the writes since the last sync, or without them.
pub fn image(
    region: &Vec<u8>,
    disk: &Vec<u8>,
    calls: &[BerthCall],
    moment: u64,
    unsynced_lost: bool,
    shape: u64,
) -> Result<(Vec<u8>, Vec<u8>), AllocError>
    requires { moment ≤ moments calls.now }
    ensures { IfOk result (λ made.
        leaves_at calls.now region.now.items disk.now.items (λ d. d ≡ disk_before calls.now disk.now.items) moment
        (record { region = made.0.items; disk = made.1.items })) }
{
    let k = (moment / 2) as usize;
    let from = kept(calls, k, unsynced_lost);
    let old_disk = disk_at(disk, calls, from)?;
    if moment % 2 == 0 {
        let old_region = region_at(region, calls, k)?;
        Ok((old_region, old_disk))
    } else {
        let made = broken_at(region, disk, calls, k, old_disk, shape)?;
        Ok(made)
    }
}
