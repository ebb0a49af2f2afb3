// Two plays over files that tell what a crash leaves of them: one over empty files, and one over what a crash at any
// moment of the first left.
ghost use Rattle.std.specs.Prelude.{◌≡◌, ◌+◌, ◌<◌, ◌≤◌, Some, map, IfOk, IfSome, string_bytes};
ghost use Rattle.std.specs.List.{AllByRecursion};
ghost use Rattle.berth_mem.specs.Picked.{images_at};
ghost use Rattle.run_words.specs.Words.{request_of};
ghost use Rattle.run_words.specs.declared.words.Request.TheVariants.{Play};
ghost use Rattle.play_again.specs.Over.{HasBaseSince};
ghost use Rattle.play_tests.specs.Fresh.{IsFresh};

use crate::again::{has_written, play_words, source_of};
use crate::crashes::opened;
use berth_face::{Berth, OpenGate};
use berth_files::FileBerth;
use berth_mem::{MemSink, MemSource};
use files_tests::MemFiles;
use play::Status;
use play_again::{has_base_after_crash, has_empty_base, run_over};
use rollover_watch::Watch;
use std::alloc::{AllocError, Global};
use std::sync::Wait;
use std::test::*;
use std::thread::Threads;

/// A leaf that flushes a write, takes another, and is drained.
const WRITTEN: &str =
    "fleet 1 1 errors\nadd 0 errors 1\n{\"time\":1}\nflush 0 errors\nadd 0 errors 1\n{\"time\":2}\ndrain 0\n";

/// What it prints.
const WRITTEN_LINES: &str =
    "0 errors #1 opened 0\nstart 0 disk nohead\n0 errors #2 added 1 late 0\n0 errors #3 took 1\n0 errors #4 flushed 1\nflush 0 done\n0 errors #5 added 1 late 0\n0 errors #6 closed 2\n0 errors #7 flushed 2\n0 errors #8 handed\ndrain 0 done\n";

/// A berth over two empty files.
fn empty_files(alloc: Global) -> FileBerth<MemFiles>
    ensures { IsFresh (⟦<FileBerth<MemFiles> as Berth>⟧.meaning result) }
{
    let region = Vec::new(alloc);
    let disk = Vec::new(alloc);
    let files = MemFiles::new(region, disk);
    let berth = FileBerth::over(files);
    has_empty_base(&berth);
    berth
}

/// The number of moments of a berth's files.
fn moments_of(berth: &FileBerth<MemFiles>) -> u64
    ensures { result ≡ (⟦<FileBerth<MemFiles> as Berth>⟧.meaning berth.now).clock + 1 }
{
    let kept = berth.files();
    kept.moments()
}

/// The number of crash images of a moment of them.
fn images_of(berth: &FileBerth<MemFiles>, moment: u64) -> u64
    requires { moment ≤ (⟦<FileBerth<MemFiles> as Berth>⟧.meaning berth.now).clock }
    ensures { result ≡ images_at moment }
{
    let kept = berth.files();
    kept.images(moment)
}

/// A berth over what a crash at this moment left of another's files.
fn picked(
    berth: &FileBerth<MemFiles>,
    moment: u64,
    image: u64,
) -> Result<FileBerth<MemFiles>, AllocError>
    requires since { HasBaseSince 0 (⟦<FileBerth<MemFiles> as Berth>⟧.meaning berth.now) }
    requires moment { moment ≤ (⟦<FileBerth<MemFiles> as Berth>⟧.meaning berth.now).clock }
    requires image { image < images_at moment }
    ensures { IfOk result (λ b. IsFresh (⟦<FileBerth<MemFiles> as Berth>⟧.meaning b)) }
{
    let kept = berth.files();
    let left = kept.pick(moment, image)?;
    let found = FileBerth::over(left);
    has_base_after_crash(berth, &found);
    Ok(found)
}

/// Plays over fresh berths.
fn play_berths<R: Wait + Threads + Sync>(
    rt: &R,
    alloc: Global,
    words: &[String],
    source: &mut MemSource,
    sink: &mut MemSink,
    berths: &mut Vec<FileBerth<MemFiles>>,
) -> Result<Status, AllocError>
    requires words { request_of (map string_bytes words.now) ≡ Some Play }
    requires fresh { AllByRecursion (λ b. IsFresh (⟦<FileBerth<MemFiles> as Berth>⟧.meaning b)) berths.old.items }
    ensures { IfOk result (λ status.
        AllByRecursion (λ b. HasBaseSince 0 (⟦<FileBerth<MemFiles> as Berth>⟧.meaning b)) berths.new.items) }
{
    let mut unheard: Vec<Box<dyn Watch>> = Vec::new(alloc);
    let status = run_over::<R, MemSource, MemSink, FileBerth<MemFiles>, OpenGate>(
        rt,
        alloc,
        words,
        source,
        sink,
        berths,
        &OpenGate,
        &mut unheard,
    )?;
    Ok(status)
}

/// The berth that a play of the script over a fresh one leaves.
fn played_files<R: Wait + Threads + Sync>(
    rt: &R,
    alloc: Global,
    words: &[String],
    berth: FileBerth<MemFiles>,
    script: &str,
    sink: &mut MemSink,
) -> Result<Option<FileBerth<MemFiles>>, AllocError>
    requires words { request_of (map string_bytes words.now) ≡ Some Play }
    requires fresh { IsFresh (⟦<FileBerth<MemFiles> as Berth>⟧.meaning berth) }
    ensures { IfOk result (λ left. IfSome left (λ b. HasBaseSince 0 (⟦<FileBerth<MemFiles> as Berth>⟧.meaning b))) }
{
    let mut source = source_of(alloc, script)?;
    let mut berths = Vec::new(alloc);
    berths.push(berth)?;
    let _status = play_berths(rt, alloc, words, &mut source, sink, &mut berths)?;
    let left = berths.pop();
    Ok(left)
}

/// With how many writes a new leaf opens its table over this berth, where its start has no fault.
fn writes_opened<R: Wait + Threads + Sync>(
    rt: &R,
    alloc: Global,
    words: &[String],
    berth: FileBerth<MemFiles>,
) -> Result<Option<u8>, AllocError>
    requires words { request_of (map string_bytes words.now) ≡ Some Play }
    requires fresh { IsFresh (⟦<FileBerth<MemFiles> as Berth>⟧.meaning berth) }
{
    let mut sink = MemSink::new(alloc);
    let _left = played_files(rt, alloc, words, berth, "fleet 1 1 errors\n", &mut sink)?;
    Ok(opened(sink.bytes()))
}

/// The fewest and the most writes with which a new leaf opens its table over what a crash left, at that moment or a
/// later one; none where a start has a fault.
fn writes_left<R: Wait + Threads + Sync>(
    rt: &R,
    alloc: Global,
    words: &[String],
    berth: &FileBerth<MemFiles>,
    from: u64,
) -> Result<Option<(u8, u8)>, AllocError>
    requires words { request_of (map string_bytes words.now) ≡ Some Play }
    requires since { HasBaseSince 0 (⟦<FileBerth<MemFiles> as Berth>⟧.meaning berth.now) }
{
    let mut fewest = u8::MAX;
    let mut most = 0;
    for moment in from..moments_of(berth) {
        for image in 0..images_of(berth, moment) {
            match writes_opened(rt, alloc, words, picked(berth, moment, image)?)? {
                Some(writes) => {
                    fewest = fewest.min(writes);
                    most = most.max(writes);
                }
                None => return Ok(None),
            }
        }
    }
    Ok(Some((fewest, most)))
}

/// The same behind a play of the script over empty files: over what a crash left at any moment of it, and over what one
/// leaves when it has ended.
fn writes_after<R: Wait + Threads + Sync>(
    rt: &R,
    alloc: Global,
    words: &[String],
    script: &str,
    sink: &mut MemSink,
) -> Result<(Option<(u8, u8)>, Option<(u8, u8)>), AllocError>
    requires words { request_of (map string_bytes words.now) ≡ Some Play }
{
    let left = played_files(rt, alloc, words, empty_files(alloc), script, sink)?;
    match left {
        Some(berth) => {
            let ever = writes_left(rt, alloc, words, &berth, 0)?;
            let now = writes_left(rt, alloc, words, &berth, moments_of(&berth) - 1)?;
            Ok((ever, now))
        }
        None => Ok((None, None)),
    }
}

#[test]
fn a_play_over_what_a_crash_left_of_files(rt: HostRuntime) -> Result<(), Fail> {
    let alloc = rt.alloc();
    let words = play_words(alloc)?;
    let mut sink = MemSink::new(alloc);
    let (ever, now) = writes_after(&rt, alloc, words.as_slice(), WRITTEN, &mut sink)?;
    assert!(rt; has_written(&sink, WRITTEN_LINES));
    assert_eq!(rt; ever, Some((0, 2)));
    assert_eq!(rt; now, Some((2, 2)));
    Ok(())
}
