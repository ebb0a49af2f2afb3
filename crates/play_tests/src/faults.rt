// Plays over a berth of which one call fails.
use crate::plays::{only, played};
use berth_mem::{MemBerth, Method};
use std::alloc::{AllocError, Global};
use std::sync::Wait;
use std::test::*;
use std::thread::Threads;

/// The log of the table `errors` after a flush of its one write: a row with the time 1.
const LOG: [u8; 41] = [
    1, // an open gate
    31, 0, 0, 0, 0, 0, 0, 0, // length of the record
    2, 6, 0x65, 0x72, 0x72, 0x6f, 0x72, 0x73, // kind and name
    1, 0, 0, 0, 0, 0, 0, 0, // writes
    1, 1, 0, 0, 0, // an add of one row
    1, 0, 0, 0, 0, 0, 0, 0, 0, 0, // the row
    0, // a gate that is not open
];

/// A play of the script over an empty berth that fails that call: the berth that it leaves, and its lines.
fn played_failing<R: Wait + Threads + Sync>(
    rt: &R,
    alloc: Global,
    method: Method,
    count: u64,
    script: &str,
) -> Result<Option<(MemBerth, String)>, AllocError> {
    let fails = only(alloc, method, count)?;
    let berth = MemBerth::failing(Vec::new(alloc), Vec::new(alloc), fails);
    played(rt, alloc, berth, script)
}

#[test]
fn each_failing_call_is_told(rt: HostRuntime) -> Result<(), Fail> {
    let alloc = rt.alloc();
    let script =
        "fleet 1 1 errors\nadd 0 errors 1\n{\"time\":1}\ndrain 0\ndrain 0\nstart 0\nstart 0\n";
    for (calls, want, disk) in [
        (
            &[
                (Method::DiskLen, 1),
                (Method::DiskWrite, 1),
                (Method::DiskSync, 1),
                (Method::DiskRead, 1),
            ][..],
            "start 0 fault disk\n0 errors #1 refused shut\ndrain 0 not up\ndrain 0 not up\n0 errors #2 opened 0\nstart 0 disk nohead\nstart 0 not down\n",
            &[0][..],
        ),
        (
            &[(Method::RegionRead, 1)][..],
            "start 0 fault region\n0 errors #1 refused shut\ndrain 0 not up\ndrain 0 not up\n0 errors #2 opened 0\nstart 0 disk nohead\nstart 0 not down\n",
            &[0][..],
        ),
        // The record that was not settled is there once, after the drain that goes on.
        (
            &[
                (Method::DiskWrite, 2),
                (Method::DiskSync, 2),
                (Method::DiskWrite, 3),
                (Method::DiskSync, 3),
            ][..],
            "0 errors #1 opened 0\nstart 0 disk nohead\n0 errors #2 added 1 late 0\n0 errors #3 closed 1\ndrain 0 fault disk\n0 errors #4 flushed 1\n0 errors #5 handed\ndrain 0 done\n0 errors #6 opened 1\nstart 0 memory\nstart 0 not down\n",
            &LOG[..],
        ),
        (
            &[
                (Method::RegionCut, 1),
                (Method::RegionWrite, 1),
                (Method::RegionWrite, 2),
            ][..],
            "0 errors #1 opened 0\nstart 0 disk nohead\n0 errors #2 added 1 late 0\n0 errors #3 closed 1\n0 errors #4 flushed 1\ndrain 0 fault region\ndrain 0 not up\n0 errors #5 opened 1\nstart 0 disk nohead\nstart 0 not down\n",
            &LOG[..],
        ),
        (
            &[
                (Method::RegionWrite, 3),
                (Method::RegionWrite, 4),
                (Method::RegionWrite, 5),
                (Method::RegionWrite, 6),
            ][..],
            "0 errors #1 opened 0\nstart 0 disk nohead\n0 errors #2 added 1 late 0\n0 errors #3 closed 1\n0 errors #4 flushed 1\ndrain 0 fault region\ndrain 0 not up\n0 errors #5 opened 1\nstart 0 disk closed 0\nstart 0 not down\n",
            &LOG[..],
        ),
        // Where the flag stands as it was the image is adopted by the next start, and else the log is read.
        (
            &[(Method::RegionRead, 2), (Method::RegionWrite, 7)][..],
            "0 errors #1 opened 0\nstart 0 disk nohead\n0 errors #2 added 1 late 0\n0 errors #3 closed 1\n0 errors #4 flushed 1\n0 errors #5 handed\ndrain 0 done\ndrain 0 not up\nstart 0 fault region\n0 errors #6 opened 1\nstart 0 memory\n",
            &LOG[..],
        ),
        (
            &[
                (Method::RegionLen, 1),
                (Method::RegionRead, 3),
                (Method::RegionCut, 2),
                (Method::RegionRead, 4),
                (Method::RegionCut, 3),
            ][..],
            "0 errors #1 opened 0\nstart 0 disk nohead\n0 errors #2 added 1 late 0\n0 errors #3 closed 1\n0 errors #4 flushed 1\n0 errors #5 handed\ndrain 0 done\ndrain 0 not up\nstart 0 fault region\n0 errors #6 opened 1\nstart 0 disk closed 0\n",
            &LOG[..],
        ),
        // No more calls are made, so these fail nothing.
        (
            &[
                (Method::RegionLen, 2),
                (Method::RegionRead, 5),
                (Method::RegionWrite, 8),
                (Method::RegionCut, 4),
                (Method::DiskLen, 2),
                (Method::DiskRead, 2),
                (Method::DiskWrite, 4),
                (Method::DiskSync, 4),
            ][..],
            "0 errors #1 opened 0\nstart 0 disk nohead\n0 errors #2 added 1 late 0\n0 errors #3 closed 1\n0 errors #4 flushed 1\n0 errors #5 handed\ndrain 0 done\ndrain 0 not up\n0 errors #6 opened 1\nstart 0 memory\nstart 0 not down\n",
            &LOG[..],
        ),
    ] {
        for (method, count) in calls {
            let (left, lines) = played_failing(&rt, alloc, *method, *count, script)?.expect(
                &rt,
                "a play that is done",
            );
            assert_eq!(rt; lines.as_str(), want, "at call {count} of its kind");
            assert_eq!(rt; left.disk(), disk, "at call {count} of its kind");
        }
    }
    Ok(())
}

#[test]
fn what_the_disk_refused_is_made_good(rt: HostRuntime) -> Result<(), Fail> {
    let alloc = rt.alloc();
    for (method, count, script, want) in [
        (
            Method::DiskSync,
            2,
            "fleet 1 1 errors\nadd 0 errors 1\n{\"time\":1}\ndrain 0\nadd 0 errors 1\n{\"time\":2}\ndrain 0\nstart 0\n",
            "0 errors #1 opened 0\nstart 0 disk nohead\n0 errors #2 added 1 late 0\n0 errors #3 closed 1\ndrain 0 fault disk\n0 errors #4 refused shut\n0 errors #5 flushed 1\n0 errors #6 handed\ndrain 0 done\n0 errors #7 opened 1\nstart 0 memory\n",
        ),
        (
            Method::DiskSync,
            2,
            "fleet 1 1 errors perf\nadd 0 errors 1\n{\"time\":1}\ndrain 0\nadd 0 perf 1\n{\"time\":2}\ndrain 0\n",
            "0 errors #1 opened 0\n0 perf #1 opened 0\nstart 0 disk nohead\n0 errors #2 added 1 late 0\n0 errors #3 closed 1\ndrain 0 fault disk\n0 perf #2 added 1 late 0\n0 errors #4 flushed 1\n0 perf #3 closed 1\n0 perf #4 flushed 1\n0 errors #5 handed\n0 perf #5 handed\ndrain 0 done\n",
        ),
        // The table that was shut before is flushed by the one step, and the other is closed by the kill.
        (
            Method::DiskSync,
            2,
            "fleet 1 1 errors perf\nadd 0 errors 1\n{\"time\":1}\ndrain 0\ndrain 0 stop 1\nstart 0\n",
            "0 errors #1 opened 0\n0 perf #1 opened 0\nstart 0 disk nohead\n0 errors #2 added 1 late 0\n0 errors #3 closed 1\ndrain 0 fault disk\n0 errors #4 flushed 1\n0 perf #2 closed 0\ndrain 0 stopped\n0 errors #5 opened 1\n0 perf #3 opened 0\nstart 0 disk nohead\n",
        ),
        // What one flush left is settled by the flush of another table.
        (
            Method::DiskWrite,
            2,
            "fleet 1 1 a b\nadd 0 a 1\n{\"time\":1}\nflush 0 a\nadd 0 a 1\n{\"time\":2}\nflush 0 b\nkill 0\nstart 0\n",
            "0 a #1 opened 0\n0 b #1 opened 0\nstart 0 disk nohead\n0 a #2 added 1 late 0\n0 a #3 took 1\nflush 0 fault disk\n0 a #4 added 1 late 0\n0 a #5 flushed 1\n0 b #2 took 0\n0 b #3 flushed 0\nflush 0 done\n0 a #6 closed 2\n0 b #4 closed 0\nkill 0 done\n0 a #7 opened 1\n0 b #5 opened 0\nstart 0 disk nohead\n",
        ),
        (
            Method::DiskSync,
            2,
            "fleet 1 1 a b\ndrain 0\nadd 0 a 1\n{\"time\":1}\nstart 0\nadd 0 a 1\n{\"time\":1}\ndrain 0\nkill 0\nstart 0\n",
            "0 a #1 opened 0\n0 b #1 opened 0\nstart 0 disk nohead\n0 a #2 closed 0\n0 a #3 flushed 0\n0 b #2 closed 0\n0 b #3 flushed 0\n0 a #4 handed\n0 b #4 handed\ndrain 0 done\n0 a #5 refused shut\n0 a #6 opened 0\n0 b #5 opened 0\nstart 0 memory\n0 a #7 added 1 late 0\n0 a #8 closed 1\ndrain 0 fault disk\n0 b #6 closed 0\nkill 0 done\n0 a #9 opened 0\n0 b #7 opened 0\nstart 0 disk closed 0\n",
        ),
        (
            Method::DiskRead,
            1,
            "fleet 1 1 errors\nstart 0\n",
            "start 0 fault disk\n0 errors #1 opened 0\nstart 0 disk nohead\n",
        ),
    ] {
        let (_left, lines) = played_failing(&rt, alloc, method, count, script)?.expect(
            &rt,
            "a play that is done",
        );
        assert_eq!(rt; lines.as_str(), want, "at {script}");
    }
    Ok(())
}
