// Two plays, one after the other, over a berth in memory that holds nothing at first.
ghost use Rattle.std.specs.Prelude.{◌≡◌, Some, map, IfOk, string_bytes};
ghost use Rattle.std.specs.List.{AllByRecursion};
ghost use Rattle.run_words.specs.Words.{request_of};
ghost use Rattle.run_words.specs.declared.words.Request.TheVariants.{Play};
ghost use Rattle.play_tests.specs.Fresh.{IsEmptyBerth};

use berth_face::OpenGate;
use berth_mem::{MemBerth, MemSink, MemSource};
use play::{EmptyBerths, Status};
use play_again::{keep, run_keeping, run_known, run_twice};
use rollover_watch::Watch;
use std::alloc::{AllocError, Global};
use std::sync::Wait;
use std::test::*;
use std::thread::Threads;

/// A leaf that takes three rows and is drained.
const DRAINED: &str =
    "fleet 1 1 events\nadd 0 events 3\n{\"time\":1}\n{\"time\":2}\n{\"time\":3}\ndrain 0\n";

/// What it prints.
const DRAINED_LINES: &str =
    "0 events #1 opened 0\nstart 0 disk nohead\n0 events #2 added 3 late 0\n0 events #3 closed 1\n0 events #4 flushed 1\n0 events #5 handed\ndrain 0 done\n";

/// A leaf that counts.
const COUNTED: &str =
    "fleet 1 1 events\nquery SELECT COUNT(*) FROM events WHERE time >= 0 AND time <= 9\n";

/// What it prints over the region that the drain left.
const ADOPTED_LINES: &str =
    "0 events #1 opened 1\nstart 0 memory\n0 events #2 asked\nanswer named 1 of 1 lines 1\n3\n";

/// What it prints over a berth that holds nothing.
const EMPTY_LINES: &str =
    "0 events #1 opened 0\nstart 0 disk nohead\n0 events #2 asked\nanswer named 1 of 1 lines 0\n";

/// The word of a play.
pub fn play_words(alloc: Global) -> Result<Vec<String>, AllocError>
    ensures { IfOk result (λ words. request_of (map string_bytes words.items) ≡ Some Play) }
{
    let mut words = Vec::new(alloc);
    words.push(String::from_str(alloc, "play")?)?;
    Ok(words)
}

/// A berth in memory that holds nothing.
fn fresh_berth(alloc: Global) -> MemBerth
    ensures { IsEmptyBerth result }
{
    MemBerth::new(Vec::new(alloc), Vec::new(alloc))
}

/// One such berth.
fn fresh_berths(alloc: Global) -> Result<Vec<MemBerth>, AllocError>
    ensures { IfOk result (λ berths. AllByRecursion IsEmptyBerth berths.items) }
{
    let mut berths = Vec::new(alloc);
    berths.push(fresh_berth(alloc))?;
    Ok(berths)
}

/// A source of this script.
pub fn source_of(alloc: Global, script: &str) -> Result<MemSource, AllocError> {
    Ok(MemSource::new(script.as_bytes().to_vec(alloc)?))
}

/// Whether just these lines were written.
pub fn has_written(sink: &MemSink, lines: &str) -> bool {
    sink.bytes() == lines.as_bytes()
}

/// Two plays, the second over what the first left.
fn twice<R: Wait + Threads + Sync>(
    rt: &R,
    alloc: Global,
    words: &[String],
    source: &mut MemSource,
    sink: &mut MemSink,
    next_source: &mut MemSource,
    next_sink: &mut MemSink,
    berths: &mut Vec<MemBerth>,
) -> (Status, Option<Status>)
    requires words { request_of (map string_bytes words.now) ≡ Some Play }
    requires berths { AllByRecursion IsEmptyBerth berths.old.items }
{
    let mut unheard: Vec<Box<dyn Watch>> = Vec::new(alloc);
    run_twice::<EmptyBerths, R, MemSource, MemSink, MemBerth, OpenGate>(
        rt,
        alloc,
        words,
        source,
        sink,
        next_source,
        next_sink,
        berths,
        &OpenGate,
        &mut unheard,
    )
}

/// A play over a berth that is known to hold nothing.
fn over_known<R: Wait + Threads + Sync>(
    rt: &R,
    alloc: Global,
    words: &[String],
    source: &mut MemSource,
    sink: &mut MemSink,
    berth: MemBerth,
) -> Result<Status, AllocError>
    requires { IsEmptyBerth berth }
{
    let known = keep(alloc, &berth)?;
    let mut berths = Vec::new(alloc);
    berths.push(berth)?;
    let mut unheard: Vec<Box<dyn Watch>> = Vec::new(alloc);
    Ok(run_known::<R, MemSource, MemSink, MemBerth, OpenGate>(
        rt,
        alloc,
        words,
        source,
        sink,
        &mut berths,
        &OpenGate,
        &mut unheard,
        &known,
    ))
}

/// A play, and whether anything is known of the berths that it left.
fn keeping<R: Wait + Threads + Sync>(
    rt: &R,
    alloc: Global,
    words: &[String],
    source: &mut MemSource,
    sink: &mut MemSink,
    berths: &mut Vec<MemBerth>,
) -> (Status, bool)
    requires words { request_of (map string_bytes words.now) ≡ Some Play }
    requires berths { AllByRecursion IsEmptyBerth berths.old.items }
{
    let mut unheard: Vec<Box<dyn Watch>> = Vec::new(alloc);
    let (status, known) = run_keeping::<EmptyBerths, R, MemSource, MemSink, MemBerth, OpenGate>(
        rt,
        alloc,
        words,
        source,
        sink,
        berths,
        &OpenGate,
        &mut unheard,
    );
    (status, known.is_some())
}

#[test]
fn the_second_of_two_plays_adopts_what_the_first_left(rt: HostRuntime) -> Result<(), Fail> {
    let alloc = rt.alloc();
    let words = play_words(alloc)?;
    let mut berths = fresh_berths(alloc)?;
    let mut source = source_of(alloc, DRAINED)?;
    let mut sink = MemSink::new(alloc);
    let mut next_source = source_of(alloc, COUNTED)?;
    let mut next_sink = MemSink::new(alloc);
    let (status, next) = twice(
        &rt,
        alloc,
        words.as_slice(),
        &mut source,
        &mut sink,
        &mut next_source,
        &mut next_sink,
        &mut berths,
    );
    assert!(rt; matches!(status, Status::Done));
    assert!(rt; matches!(next, Some(Status::Done)));
    assert!(rt; has_written(&sink, DRAINED_LINES));
    assert!(rt; has_written(&next_sink, ADOPTED_LINES));
    Ok(())
}

#[test]
fn the_second_play_begins_behind_a_first_that_is_refused(rt: HostRuntime) -> Result<(), Fail> {
    let alloc = rt.alloc();
    let words = play_words(alloc)?;
    let mut berths = fresh_berths(alloc)?;
    let mut source = source_of(alloc, "fleet 1 1 events\nadd\n")?;
    let mut sink = MemSink::new(alloc);
    let mut next_source = source_of(alloc, COUNTED)?;
    let mut next_sink = MemSink::new(alloc);
    let (status, next) = twice(
        &rt,
        alloc,
        words.as_slice(),
        &mut source,
        &mut sink,
        &mut next_source,
        &mut next_sink,
        &mut berths,
    );
    assert!(rt; matches!(status, Status::Script { line: 2, .. }));
    assert!(rt; matches!(next, Some(Status::Done)));
    assert!(rt; has_written(&sink, ""));
    assert!(rt; has_written(&next_sink, EMPTY_LINES));
    Ok(())
}

#[test]
fn a_play_leaves_something_known(rt: HostRuntime) -> Result<(), Fail> {
    let alloc = rt.alloc();
    let words = play_words(alloc)?;
    let mut berths = fresh_berths(alloc)?;
    let mut source = source_of(alloc, DRAINED)?;
    let mut sink = MemSink::new(alloc);
    let (status, is_known) = keeping(
        &rt,
        alloc,
        words.as_slice(),
        &mut source,
        &mut sink,
        &mut berths,
    );
    assert!(rt; matches!(status, Status::Done));
    assert!(rt; is_known);
    assert!(rt; has_written(&sink, DRAINED_LINES));
    Ok(())
}

#[test]
fn a_play_over_a_berth_whose_base_is_kept(rt: HostRuntime) -> Result<(), Fail> {
    let alloc = rt.alloc();
    let words = play_words(alloc)?;
    let mut source = source_of(alloc, COUNTED)?;
    let mut sink = MemSink::new(alloc);
    let berth = fresh_berth(alloc);
    let status = over_known(&rt, alloc, words.as_slice(), &mut source, &mut sink, berth)?;
    assert!(rt; matches!(status, Status::Done));
    assert!(rt; has_written(&sink, EMPTY_LINES));
    Ok(())
}
