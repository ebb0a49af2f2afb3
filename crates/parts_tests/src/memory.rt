// The berth in memory: its fuse, and the images that its picker offers of a crash.
use berth_face::Berth;
use berth_mem::MemBerth;
use std::alloc::{AllocError, Global};
use std::test::Fail;

// Whether each call on the region fails.
fn region_fails(berth: &mut MemBerth) -> bool {
    let mut buf = [0u8; 4];
    berth.region_len().is_err()
        && berth.region_read(0, &mut buf).is_err()
        && berth.region_write(1, &[7]).is_err()
        && berth.region_cut(0).is_err()
}

// Whether each call on the disk fails.
fn disk_fails(berth: &mut MemBerth) -> bool {
    let mut buf = [0u8; 4];
    berth.disk_len().is_err()
        && berth.disk_read(0, &mut buf).is_err()
        && berth.disk_write(1, &[8]).is_err()
        && berth.disk_sync().is_err()
}

#[test]
fn after_the_fuse_each_call_fails_and_changes_nothing(rt: HostRuntime) -> Result<(), Fail> {
    let alloc = rt.alloc();
    let mut berth = MemBerth::fused(vec![in alloc; 1u8]?, vec![in alloc; 4u8]?, 2);
    assert!(rt; berth.disk_write(1, &[7]).is_ok() && berth.disk_len().is_ok());
    assert!(rt; region_fails(&mut berth) && disk_fails(&mut berth));
    assert_eq!(rt; berth.region(), [1].as_slice());
    assert_eq!(rt; berth.disk(), [4, 7].as_slice());
    assert_eq!(rt; berth.moments(), 3);
    Ok(())
}

// How many images of this moment hold this disk and, where `whole`, the region, too.
fn images_with(berth: &MemBerth, moment: u64, disk: &[u8], whole: bool) -> Result<u64, AllocError> {
    let mut found = 0u64;
    if moment >= berth.moments() {
        return Ok(0);
    }
    for image in 0..berth.images(moment) {
        let picked = berth.pick(moment, image)?;
        if picked.disk() == disk && picked.region().is_empty() != whole {
            found = found.saturating_add(1);
        }
    }
    Ok(found)
}

// A berth on one byte of region and one of disk, over which four were written and synced.
fn written_and_synced(alloc: Global) -> Result<MemBerth, AllocError> {
    let mut berth = MemBerth::new(vec![in alloc; 9u8]?, vec![in alloc; 0u8]?);
    let _ = berth.disk_write(0, &[1, 2, 3, 4]);
    let _ = berth.disk_sync();
    Ok(berth)
}

#[test]
fn a_write_may_be_torn_and_lost_until_a_sync(rt: HostRuntime) -> Result<(), Fail> {
    let berth = written_and_synced(rt.alloc())?;
    assert_eq!(rt; berth.moments(), 5);
    for (moment, disk, count) in [
        (0, [0u8].as_slice(), 2),
        (1, &[0], 2),
        (1, &[1, 2], 2),
        (1, &[1, 2, 3, 4], 2),
        (1, &[255, 255, 255, 255], 2),
        (2, &[0], 1),
        (2, &[1, 2, 3, 4], 1),
        (4, &[0], 0),
        (4, &[1, 2, 3, 4], 2),
    ] {
        let whole = images_with(&berth, moment, disk, true)?;
        let bare = images_with(&berth, moment, disk, false)?;
        assert_eq!(rt; (whole, bare), (count, count));
    }
    Ok(())
}

// A record and then its gate, written to an empty log, with or without a sync between.
fn record_and_gate(alloc: Global, synced: bool) -> Result<MemBerth, AllocError> {
    let mut berth = MemBerth::new(Vec::new(alloc), vec![in alloc; 0u8]?);
    let _ = berth.disk_write(1, &[7]);
    if synced {
        let _ = berth.disk_sync();
    }
    let _ = berth.disk_write(0, &[1]);
    Ok(berth)
}

#[test]
fn a_missing_sync_shows(rt: HostRuntime) -> Result<(), Fail> {
    // An open gate before nothing may be left without the sync, and never with it.
    let berth = record_and_gate(rt.alloc(), false)?;
    assert!(rt; images_with(&berth, 3, &[1], false)? > 0);
    let berth = record_and_gate(rt.alloc(), true)?;
    assert_eq!(rt; berth.disk(), [1, 7].as_slice());
    assert_eq!(rt; berth.moments(), 7);
    for moment in 0..7 {
        assert_eq!(rt; images_with(&berth, moment, &[1], false)?, 0);
    }
    Ok(())
}
