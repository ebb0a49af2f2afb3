// A soak over as many berths as it has leaves, and over one fewer.
use crate::plays::{empty_berth, run_line};
use berth_mem::{MemSink, MemSource};
use play::{Status, Why};
use std::alloc::{AllocError, Global};
use std::sync::Wait;
use std::test::*;
use std::thread::Threads;

/// The status of a soak of eight rows over empty berths, and its output.
fn soaked<R: Wait + Threads + Sync>(
    rt: &R,
    alloc: Global,
    berths: u32,
) -> Result<(Status, Vec<u8>), AllocError> {
    let mut source = MemSource::new(Vec::new(alloc));
    let mut sink = MemSink::new(alloc);
    let mut empty = Vec::new(alloc);
    for _ in 0..berths {
        empty.push(empty_berth(alloc))?;
    }
    let status = run_line(rt, alloc, "soak 0 8", &mut source, &mut sink, &mut empty)?;
    let written = sink.bytes().to_vec(alloc)?;
    Ok((status, written))
}

#[test]
fn a_soak_asks_for_a_berth_for_each_of_its_leaves(rt: HostRuntime) -> Result<(), Fail> {
    let (status, written) = soaked(&rt, rt.alloc(), 7)?;
    assert!(rt;
        matches!(
            status,
            Status::Script {
                line: 0,
                why: Why::NoBerth
            }
        )
    );
    assert_eq!(rt; written.len(), 0);
    Ok(())
}

/// The lines up to the answer of the first query: each leaf has one of the eight rows, whose times are those from 0 to
/// 7.
const FRONT: &str =
    "0 events #1 opened 0\nstart 0 disk nohead\n1 events #1 opened 0\nstart 1 disk nohead\n2 events #1 opened 0\nstart 2 disk nohead\n3 events #1 opened 0\nstart 3 disk nohead\n4 events #1 opened 0\nstart 4 disk nohead\n5 events #1 opened 0\nstart 5 disk nohead\n6 events #1 opened 0\nstart 6 disk nohead\n7 events #1 opened 0\nstart 7 disk nohead\n0 events #2 added 1 late 0\n1 events #2 added 1 late 0\n2 events #2 added 1 late 0\n3 events #2 added 1 late 0\n4 events #2 added 1 late 0\n5 events #2 added 1 late 0\n6 events #2 added 1 late 0\n7 events #2 added 1 late 0\n0 events #3 asked\n1 events #3 asked\n2 events #3 asked\n3 events #3 asked\n4 events #3 asked\n5 events #3 asked\n6 events #3 asked\n7 events #3 asked\nanswer named 8 of 8 lines 1\n8 0 7\n";

#[test]
fn a_soak_over_eight_berths_is_played(rt: HostRuntime) -> Result<(), Fail> {
    let alloc = rt.alloc();
    let (status, written) = soaked(&rt, alloc, 8)?;
    assert!(rt; matches!(status, Status::Done));
    assert!(rt; written.as_slice().starts_with(FRONT.as_bytes()));
    Ok(())
}
