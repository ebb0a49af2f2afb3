// What the tests share: a run with its words, and a play over one berth.
use berth_face::{Gate, OpenGate, Sink, Source};
use berth_mem::{Fail, Fails, MemBerth, MemSink, MemSource, Method};
use play::{Status, run};
use rollover_watch::Watch;
use std::alloc::{AllocError, Global};
use std::marker::Brand;
use std::sync::Wait;
use std::thread::Threads;

/// Runs what the line's words say.
pub fn run_line<R: Wait + Threads + Sync, S: Source, K: Sink>(
    rt: &R,
    alloc: Global,
    line: &str,
    source: &mut S,
    sink: &mut K,
    berths: &mut Vec<MemBerth>,
) -> Result<Status, AllocError> {
    let mut words = Vec::new(alloc);
    for word in line.split_whitespace() {
        words.push(String::from_str(alloc, word)?)?;
    }
    let mut unheard: Vec<Box<dyn Watch>> = Vec::new(alloc);
    Ok(run::<Brand, R, S, K, MemBerth, OpenGate>(
        rt,
        alloc,
        words.as_slice(),
        source,
        sink,
        berths,
        &OpenGate,
        &mut unheard,
    ))
}

/// The berth that a play of the script over this one leaves, and its lines. None if the play is not done.
pub fn played<R: Wait + Threads + Sync>(
    rt: &R,
    alloc: Global,
    berth: MemBerth,
    script: &str,
) -> Result<Option<(MemBerth, String)>, AllocError> {
    let mut source = MemSource::new(script.as_bytes().to_vec(alloc)?);
    let mut sink = MemSink::new(alloc);
    let mut berths = Vec::new(alloc);
    berths.push(berth)?;
    let status = run_line(rt, alloc, "play", &mut source, &mut sink, &mut berths)?;
    if !matches!(status, Status::Done) {
        return Ok(None);
    }
    match (berths.pop(), String::from_utf8(sink.bytes().to_vec(alloc)?)) {
        (Some(left), Ok(lines)) => Ok(Some((left, lines))),
        _ => Ok(None),
    }
}

/// The lines that a play of the script prints over `berths` empty berths, with this gate. None if the play is not done.
pub fn lines_of<R: Wait + Threads + Sync, G: Gate>(
    rt: &R,
    alloc: Global,
    script: &str,
    berths: u32,
    gate: &G,
) -> Result<String, AllocError> {
    let mut unheard: Vec<Box<dyn Watch>> = Vec::new(alloc);
    lines_heard(rt, alloc, script, berths, gate, &mut unheard)
}

/// The same, with what these watches hear of it.
pub fn lines_heard<R: Wait + Threads + Sync, G: Gate>(
    rt: &R,
    alloc: Global,
    script: &str,
    berths: u32,
    gate: &G,
    watches: &mut Vec<Box<dyn Watch>>,
) -> Result<String, AllocError> {
    let mut words = Vec::new(alloc);
    words.push(String::from_str(alloc, "play")?)?;
    let mut source = MemSource::new(script.as_bytes().to_vec(alloc)?);
    let mut sink = MemSink::new(alloc);
    let mut empty = Vec::new(alloc);
    for _ in 0..berths {
        empty.push(empty_berth(alloc))?;
    }
    let status = run::<Brand, R, MemSource, MemSink, MemBerth, G>(
        rt,
        alloc,
        words.as_slice(),
        &mut source,
        &mut sink,
        &mut empty,
        gate,
        watches,
    );
    match (status, String::from_utf8(sink.bytes().to_vec(alloc)?)) {
        (Status::Done, Ok(lines)) => Ok(lines),
        _ => Ok(String::new(alloc)),
    }
}

/// An empty berth.
pub fn empty_berth(alloc: Global) -> MemBerth {
    MemBerth::new(Vec::new(alloc), Vec::new(alloc))
}

/// A list of failing calls with that one call.
pub fn only(alloc: Global, method: Method, count: u64) -> Result<Fails, AllocError> {
    Ok(Fails::of(vec![in alloc; Fail { method, count }]?))
}
