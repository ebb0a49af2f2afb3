// What a look finds after a crash at each moment of a drain.
ghost use Rattle.region_layout.specs.Names.{AreNames};

use crate::steps::drain_all;
use crate::two_tables::{both_drained, both_names};
use crate::worked::berth_on;
use adopt::{Found, find};
use berth_mem::MemBerth;
use drain_copy::DrainStep;
use leaf_model::Names;
use std::alloc::{AllocError, Global};
use std::test::Fail;

/// The result of a look at a region that a crash left.
#[derive(Clone, Copy, Debug, PartialEq, Eq)]
enum Left {
    Closed,
    Whole,
    Other,
}

/// The result of that look; `whole` is the whole image.
fn looked_at(alloc: Global, mut berth: MemBerth, names: &Names, whole: &[u8]) -> Left
    requires { AreNames names.now }
{
    let is_whole = berth.region() == whole;
    match find(alloc, &mut berth, names) {
        Ok(Found::NoHead) => Left::Closed,
        Ok(Found::Closed(_)) => Left::Closed,
        Ok(Found::Ready(_)) if is_whole => Left::Whole,
        _ => Left::Other,
    }
}

/// The number of images of these moments that are the whole image, which now is in the region. None if an image is
/// neither that nor closed.
fn whole_images(
    alloc: Global,
    berth: &MemBerth,
    names: &Names,
    from: u64,
    to: u64,
) -> Result<Option<u64>, AllocError>
    requires { AreNames names.now }
{
    let mut whole = 0u64;
    for moment in from..to.min(berth.moments()) {
        for image in 0..berth.images(moment) {
            match looked_at(alloc, berth.pick(moment, image)?, names, berth.region()) {
                Left::Closed => {}
                Left::Whole => whole = whole.saturating_add(1),
                Left::Other => return Ok(None),
            }
        }
    }
    Ok(Some(whole))
}

/// The steps of a drain over an old closed region, each with the number of moments after it, and the berth that they
/// leave.
fn moments_of_steps(alloc: Global) -> Result<(Vec<(DrainStep, u64)>, MemBerth), AllocError> {
    let mut berth = berth_on(alloc, &[0, 7, 7])?;
    let mut steps = Vec::new(alloc);
    if let Some(drain) = both_drained(alloc)? {
        for (step, _region, _held, moments) in drain_all(alloc, drain, &mut berth)?.as_slice() {
            steps.push((*step, *moments))?;
        }
    }
    Ok((steps, berth))
}

#[test]
fn a_crash_leaves_no_image_before_the_last_step(rt: HostRuntime) -> Result<(), Fail> {
    let alloc = rt.alloc();
    let names = both_names(alloc)?;
    let (steps, berth) = moments_of_steps(alloc)?;
    assert_eq!(rt; steps.len(), 9);
    let mut from = 0;
    for (step, moments) in steps.as_slice() {
        let whole = whole_images(alloc, &berth, &names, from, *moments)?;
        // The flag that was written and the region afterwards, each with and without the unsynced writes to the disk.
        let want = if *step == DrainStep::Finished { 4 } else { 0 };
        assert_eq!(rt; whole, Some(want), "up to moment {moments}");
        from = moments.saturating_sub(1);
    }
    Ok(())
}
