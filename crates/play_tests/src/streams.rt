// Runs whose source or sink fails, and one with no berth for its leaf.
use crate::plays::{empty_berth, only, run_line};
use berth_face::{Failed, Sink};
use berth_mem::{MemBerth, MemSink, MemSource, Method};
use play::{Status, fault_text};
use std::alloc::{AllocError, Global};
use std::sync::Wait;
use std::test::*;
use std::thread::Threads;

/// A sink that takes one byte at a call.
#[derive(Drop)]
struct NarrowSink {
    inner: MemSink,
}

impl Sink for NarrowSink {
    ghost written = { λ sink. ⟦<MemSink as Sink>⟧.written sink.inner };

    ghost faults = { λ sink. ⟦<MemSink as Sink>⟧.faults sink.inner };

    fn put(&mut self, bytes: &[u8]) -> Result<usize, Failed> {
        self.inner.put(&bytes[..bytes.len().min(1)])
    }
}

/// A row whose time is in the range of the counts.
const ROW: &str = "{\"time\":1}";

/// The message of a source that fails.
const READ: &str = "the input could not be read";

/// The message of a sink that fails.
const WRITE: &str = "the output could not be written";

/// A leaf that takes a row.
const SCRIPT: &str = "fleet 1 1 errors\nadd 0 errors 1\n{\"time\":1}\n";

/// How a run ended: done, or what its status says to people.
fn ending(alloc: Global, status: &Status) -> Result<String, AllocError> {
    if matches!(status, Status::Done) {
        return String::from_str(alloc, "done");
    }
    Ok(fault_text(alloc, status)?.into_inner())
}

/// A run over a source of the text and a sink of one byte a call that fail these calls: how it ends, and its output.
/// Call 0 is never made.
fn run_failing<R: Wait + Threads + Sync>(
    rt: &R,
    alloc: Global,
    line: &str,
    text: &str,
    take: u64,
    put: u64,
    berths: &mut Vec<MemBerth>,
) -> Result<(String, Vec<u8>), AllocError> {
    let text = text.as_bytes().to_vec(alloc)?;
    let mut source = MemSource::failing(text, only(alloc, Method::Take, take)?);
    let inner = MemSink::failing(only(alloc, Method::Put, put)?);
    let mut sink = NarrowSink { inner };
    let status = run_line(rt, alloc, line, &mut source, &mut sink, berths)?;
    let written = sink.inner.bytes().to_vec(alloc)?;
    Ok((ending(alloc, &status)?, written))
}

#[test]
fn each_fault_of_source_and_sink_has_its_status(rt: HostRuntime) -> Result<(), Fail> {
    let alloc = rt.alloc();
    for (line, text, take, put, want, written) in [
        // The second call of a source comes when all is read, and is to tell the end.
        ("count 1 2", ROW, 1, 0, READ, ""),
        ("count 1 2", ROW, 2, 0, READ, ""),
        ("play", SCRIPT, 1, 0, READ, ""),
        ("play", SCRIPT, 2, 0, READ, ""),
        // What is written is a front of what a run without a fault writes.
        ("count 1 2", ROW, 0, 1, WRITE, ""),
        ("count 1 2", ROW, 0, 5, WRITE, "coun"),
        ("count 1 2", ROW, 0, 8, WRITE, "count 1"),
        ("count 1 2", ROW, 0, 9, "done", "count 1\n"),
        ("play", SCRIPT, 0, 1, WRITE, ""),
        (
            "play",
            SCRIPT,
            0,
            42,
            WRITE,
            "0 errors #1 opened 0\nstart 0 disk nohead\n",
        ),
    ] {
        let mut berths = vec![in alloc; empty_berth(alloc)]?;
        let (ended, got) = run_failing(&rt, alloc, line, text, take, put, &mut berths)?;
        assert_eq!(rt; ended.as_str(), want, "at {line}, {take}, {put}");
        assert_eq!(rt;
            got.as_slice(),
            written.as_bytes(),
            "at {line}, {take}, {put}"
        );
    }
    // The lines of an item are put at once, so that of two items the first is written.
    let mut sink = MemSink::failing(only(alloc, Method::Put, 2)?);
    let mut source = MemSource::new(SCRIPT.as_bytes().to_vec(alloc)?);
    let mut berths = vec![in alloc; empty_berth(alloc)]?;
    let status = run_line(&rt, alloc, "play", &mut source, &mut sink, &mut berths)?;
    assert!(rt; matches!(status, Status::WriteFault));
    assert_eq!(rt;
        sink.bytes(),
        &b"0 errors #1 opened 0\nstart 0 disk nohead\n"[..]
    );
    let mut none = Vec::new(alloc);
    let (ended, got) = run_failing(&rt, alloc, "play", SCRIPT, 0, 0, &mut none)?;
    assert_eq!(rt;
        (ended.as_str(), got.len()),
        ("line 1: the fleet has more leaves than there are berths", 0)
    );
    Ok(())
}
