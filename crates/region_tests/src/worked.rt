// The worked example: a table of one row is drained and adopted again.
ghost use Rattle.std.specs.Prelude.{◌≡◌, IfOk, IfSome};
ghost use Rattle.drain_copy.specs.declared.step.Next.TheVariants as next;

use crate::drains::{LOG_END, drain_one, one_name};
use crate::steps::{adopt_all, drain_all, lines_back};
use crate::tables::{added, handed_over, told_column};
use adopt::{Adopt, Found, find};
use berth_mem::MemBerth;
use drain_copy::{Drain, DrainStep};
use std::alloc::{AllocError, Global};
use std::test::Fail;

/// A row with the time 5 and no cells.
const AT_FIVE: &[u8] = b"\x05\0\0\0\0\0\0\0\0\0";

/// The region of a table `t` with one write of this row. The log ends at 35.
pub const IMAGE: [u8; 128] = [
    0x01, 0x53, 0x43, 0x42, 0x03, 0, 0, 0, 0x40, 0, 0, 0, 0, 0, 0, 0, 0x01, 0x01, 0, 0, 0x01, 0, 0,
    0, 0x28, 0, 0, 0, 0, 0, 0, 0, 0x28, 0, 0, 0, 0, 0, 0, 0, 0x28, 0, 0, 0, 0, 0, 0, 0, 0x30, 0, 0,
    0, 0, 0, 0, 0, 0x05, 0, 0, 0, 0, 0, 0, 0, 0x23, 0, 0, 0, 0, 0, 0, 0, 0x01, 0x01, 0x74, 0, 0, 0,
    0, 0, 0, 0, 0, 0x01, 0, 0, 0, 0, 0, 0, 0, 0, 0, 0, 0, 0x01, 0, 0, 0, 0x01, 0, 0, 0, 0x01, 0, 0,
    0, 0x04, 0x74, 0x69, 0x6d, 0x65, 0x10, 0, 0, 0, 0, 0, 0, 0, 0x30, 0, 0, 0, 0, 0, 0, 0,
];

/// A berth with this region.
pub fn berth_on(alloc: Global, region: &[u8]) -> Result<MemBerth, AllocError> {
    Ok(MemBerth::new(region.to_vec(alloc)?, Vec::new(alloc)))
}

/// The length of the region, and its flag.
pub fn shape(berth: &MemBerth) -> (usize, Option<u8>) {
    let region = berth.region();
    (region.len(), region.first().copied())
}

/// The drain of the table.
fn worked_drain(alloc: Global) -> Result<Option<Drain>, AllocError>
    ensures { IfOk result (λ found. IfSome found (λ drain. drain.next ≡ next.Begin)) }
{
    let table = added(alloc, AT_FIVE, 1)?;
    drain_one(alloc, handed_over(alloc, "t", table)?)
}

#[test]
fn a_table_is_drained_into_the_worked_image(rt: HostRuntime) -> Result<(), Fail> {
    let alloc = rt.alloc();
    let drain = worked_drain(alloc)?.expect(&rt, "a drain");
    assert_eq!(rt; drain.image_len(), 128);
    let mut berth = berth_on(alloc, &[0, 7])?;
    let seen = drain_all(alloc, drain, &mut berth)?;
    let wanted = [
        (DrainStep::Begun, 16, 48, 7),
        (DrainStep::Column { bytes: 48 }, 64, 0, 9),
        (DrainStep::Directory, 128, 0, 13),
        (DrainStep::Finished, 128, 0, 15),
    ];
    assert!(rt; seen.as_slice() == wanted.as_slice());
    assert_eq!(rt; berth.region(), IMAGE.as_slice());
    Ok(())
}

/// The adoption that a look finds ready over a berth, for a leaf with this table. None if it finds something else.
pub fn ready(alloc: Global, berth: &mut MemBerth) -> Result<Option<Adopt>, AllocError> {
    let names = one_name(alloc, "t")?;
    match find(alloc, berth, &names) {
        Ok(Found::Ready(adopt)) => Ok(Some(adopt)),
        _ => Ok(None),
    }
}

/// The place where the log ends, and the lines of the tables that an adoption gives.
fn adopted(
    alloc: Global,
    adopt: Adopt,
    berth: &mut MemBerth,
    seen: &mut Vec<(u64, u64)>,
) -> Result<Option<(u64, String)>, AllocError> {
    match adopt_all(alloc, adopt, berth, seen)? {
        Some((tables, log_end)) => Ok(Some((log_end, lines_back(alloc, tables)?))),
        None => Ok(None),
    }
}

#[test]
fn the_worked_image_is_adopted(rt: HostRuntime) -> Result<(), Fail> {
    let alloc = rt.alloc();
    let mut berth = berth_on(alloc, &IMAGE)?;
    let adopt = ready(alloc, &mut berth)?.expect(&rt, "an image");
    assert_eq!(rt; (adopt.image_len(), adopt.held()), (128, 0));
    assert_eq!(rt; shape(&berth), (64, Some(0)));
    let mut seen = Vec::new(alloc);
    let (log_end, lines) = adopted(alloc, adopt, &mut berth, &mut seen)?.expect(&rt, "tables");
    assert_eq!(rt; seen.as_slice(), [(16, 48)].as_slice());
    assert_eq!(rt; log_end, LOG_END);
    let column = told_column(alloc, "time", &IMAGE[16..64])?;
    let wanted = format!(in alloc; "t 0 1 0 0{column}\n")?;
    assert_eq!(rt; lines.as_str(), wanted.as_str());
    assert_eq!(rt; shape(&berth), (16, Some(0)));
    Ok(())
}
