// Plays over what a crash leaves of an earlier one, and over what a drain leaves.
use crate::plays::{empty_berth, only, played};
use berth_mem::{MemBerth, Method};
use std::alloc::{AllocError, Global};
use std::sync::Wait;
use std::test::*;
use std::thread::Threads;

/// The commands of a leaf's life. With each, the fewest and the most writes that a crash leaves between the end of the
/// command before it and its own end: a write that was flushed by then is never lost, and one that was not accepted is
/// never there.
const LIFE: [(&str, u8, u8); 10] = [
    ("fleet 1 1 errors\n", 0, 0),
    ("add 0 errors 1\n{\"time\":1}\n", 0, 0),
    ("flush 0 errors\n", 0, 1),
    ("add 0 errors 1\n{\"time\":2}\n", 1, 1),
    ("drain 0 stop 4\n", 1, 2),
    ("start 0\n", 2, 2),
    ("add 0 errors 1\n{\"time\":3}\n", 2, 2),
    ("drain 0\n", 2, 3),
    ("start 0\n", 3, 3),
    ("kill 0\n", 3, 3),
];

/// The number of writes with which a new leaf opens its table over this berth. None if its start has a fault.
fn writes_opened<R: Wait + Threads + Sync>(
    rt: &R,
    alloc: Global,
    berth: MemBerth,
) -> Result<Option<u8>, AllocError> {
    match played(rt, alloc, berth, "fleet 1 1 errors\n")? {
        Some((_left, lines)) => Ok(opened(lines.as_bytes())),
        None => Ok(None),
    }
}

/// With how many writes the table is opened, where these lines are of a start without a fault.
pub fn opened(lines: &[u8]) -> Option<u8> {
    let behind = lines.strip_prefix(b"0 errors #1 opened ")?;
    let (digit, start) = behind.split_first()?;
    if start.starts_with(b"\nstart 0 memory\n") || start.starts_with(b"\nstart 0 disk ") {
        digit.checked_sub(b'0')
    } else {
        None
    }
}

/// The fewest and the most writes with which a new leaf opens its table over what a crash leaves from that moment on.
/// None if a start has a fault.
fn writes_left<R: Wait + Threads + Sync>(
    rt: &R,
    alloc: Global,
    berth: &MemBerth,
    from: u64,
) -> Result<Option<(u8, u8)>, AllocError> {
    let mut fewest = u8::MAX;
    let mut most = 0;
    for moment in from..berth.moments() {
        for image in 0..berth.images(moment) {
            match writes_opened(rt, alloc, berth.pick(moment, image)?)? {
                Some(writes) => {
                    fewest = fewest.min(writes);
                    most = most.max(writes);
                }
                None => return Ok(None),
            }
        }
    }
    Ok(Some((fewest, most)))
}

#[test]
fn a_crash_at_any_moment_leaves_what_was_flushed(rt: HostRuntime) -> Result<(), Fail> {
    let alloc = rt.alloc();
    let mut script = String::new(alloc);
    let mut ended = 0;
    for (command, least, most) in LIFE {
        script.push_str(command)?;
        let (berth, _lines) = played(&rt, alloc, empty_berth(alloc), script.as_str())?.expect(
            &rt,
            "a play that is done",
        );
        let writes = writes_left(&rt, alloc, &berth, ended)?;
        assert_eq!(rt; writes, Some((least, most)), "at {command}");
        ended = berth.moments() - 1;
    }
    Ok(())
}

/// The lines of a play over a berth that holds the same and fails its first call of that method.
fn lines_failing<R: Wait + Threads + Sync>(
    rt: &R,
    alloc: Global,
    berth: &MemBerth,
    method: Method,
    script: &str,
) -> Result<Option<String>, AllocError> {
    let region = berth.region().to_vec(alloc)?;
    let disk = berth.disk().to_vec(alloc)?;
    let failing = MemBerth::failing(region, disk, only(alloc, method, 1)?);
    match played(rt, alloc, failing, script)? {
        Some((_left, lines)) => Ok(Some(lines)),
        None => Ok(None),
    }
}

/// Whether a new leaf opens its table with one write, whatever a crash now leaves: from memory, or from the log if the
/// region is lost.
fn is_there_twice<R: Wait + Threads + Sync>(
    rt: &R,
    alloc: Global,
    berth: &MemBerth,
) -> Result<bool, AllocError> {
    let now = berth.moments() - 1;
    for image in 0..berth.images(now) {
        let picked = berth.pick(now, image)?;
        let want = if picked.region().is_empty() {
            "0 errors #1 opened 1\nstart 0 disk nohead\n"
        } else {
            "0 errors #1 opened 1\nstart 0 memory\n"
        };
        match played(rt, alloc, picked, "fleet 1 1 errors\n")? {
            Some((_left, lines)) => {
                if lines.as_str() != want {
                    return Ok(false);
                }
            }
            None => return Ok(false),
        }
    }
    Ok(true)
}

#[test]
fn a_drained_leaf_is_adopted_by_the_next_run(rt: HostRuntime) -> Result<(), Fail> {
    let alloc = rt.alloc();
    let script = "fleet 1 1 errors\nadd 0 errors 1\n{\"time\":5}\ndrain 0\n";
    let (drained, _lines) = played(&rt, alloc, empty_berth(alloc), script)?.expect(
        &rt,
        "a play that is done",
    );

    // A read of the disk would fail, but there is none. The closing of the region fails once, and the next start goes
    // well.
    for (method, script, want) in [
        (
            Method::DiskRead,
            "fleet 1 1 errors\nquery SELECT COUNT(*) FROM errors WHERE time >= 0 AND time <= 9\n",
            "0 errors #1 opened 1\nstart 0 memory\n0 errors #2 asked\nanswer named 1 of 1 lines 1\n1\n",
        ),
        (
            Method::RegionWrite,
            "fleet 1 1 errors\nstart 0\n",
            "start 0 fault region\n0 errors #1 opened 1\nstart 0 memory\n",
        ),
    ] {
        let lines = lines_failing(&rt, alloc, &drained, method, script)?.expect(
            &rt,
            "a play that is done",
        );
        assert_eq!(rt; lines.as_str(), want);
    }
    assert!(rt; is_there_twice(&rt, alloc, &drained)?);
    Ok(())
}

/// A life with a drain that makes all its steps.
const DRAINED: &str =
    "fleet 1 1 errors\nadd 0 errors 1\n{\"time\":1,\"code\":7}\ndrain 0 stop 7\nstart 0\nquery SELECT COUNT(*) FROM errors WHERE time >= 0 AND time <= 9\n";

/// The lines that it prints if no call fails.
const LINES: &str =
    "0 errors #1 opened 0\nstart 0 disk nohead\n0 errors #2 added 1 late 0\n0 errors #3 closed 1\n0 errors #4 flushed 1\n0 errors #5 handed\ndrain 0 done\n0 errors #6 opened 1\nstart 0 memory\n0 errors #7 asked\nanswer named 1 of 1 lines 1\n1\n";

/// The lines of that life over a berth that fails after so many calls, and the number of writes with which a new leaf
/// then opens its table.
fn fused<R: Wait + Threads + Sync>(
    rt: &R,
    alloc: Global,
    calls: u64,
) -> Result<Option<(String, u8)>, AllocError> {
    let berth = MemBerth::fused(Vec::new(alloc), Vec::new(alloc), calls);
    let Some((left, lines)) = played(rt, alloc, berth, DRAINED)? else {
        return Ok(None);
    };
    let again = MemBerth::new(left.region().to_vec(alloc)?, left.disk().to_vec(alloc)?);
    match writes_opened(rt, alloc, again)? {
        Some(writes) => Ok(Some((lines, writes))),
        None => Ok(None),
    }
}

#[test]
fn what_was_flushed_is_there_wherever_the_fuse_is(rt: HostRuntime) -> Result<(), Fail> {
    let alloc = rt.alloc();
    for calls in 0..1_000 {
        let (lines, writes) = fused(&rt, alloc, calls)?.expect(&rt, "two plays that are done");
        let flushed = lines.as_str().contains(" flushed 1\n");
        assert!(rt; writes == 1 || writes == 0 && !flushed, "at {calls}");
        if lines.as_str() == LINES {
            return Ok(());
        }
    }
    assert!(rt; false, "each of the fuses was met");
    Ok(())
}
