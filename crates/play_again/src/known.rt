// What a run leaves known of its berths, and runs over that.
ghost use Rattle.std.specs.Prelude.{◌≡◌, List, Option, Some, IfOk, IfSome, map, string_bytes};
ghost use Rattle.play_again.specs.Keeping.{IsKeptBase, KeptName, LeavesKnown, RanTwice, bases_of, states_of};
ghost use Rattle.play_again.specs.Over.{NamedHaveBases};
ghost use Rattle.play.specs.Played.{AreBases, IsBase};
ghost use Rattle.play.specs.Ran.{HasRun, outside, sight};
ghost use Rattle.run_words.specs.Words.{request_of};
ghost use Rattle.run_words.specs.declared.words.Request.TheVariants.{Play};

use crate::kept::{Choice, KnownBerths};
use berth_face::{Berth, Gate, Sink, Source};
use play::{Bases, run};
use rollover_watch::Watch;
use run_ends::Status;
use std::alloc::{AllocError, Global};
use std::marker::Brand;
use std::snapshot::Snapshot;
use std::sync::Wait;
use std::thread::Threads;

/// Keeps the base of this berth, as that of leaf 0, if it has one that can be kept. It knows nothing of other berths.
/// Err if memory runs out.
pub fn keep<B: Berth>(alloc: Global, berth: &B) -> Result<KnownBerths, AllocError>
    requires { (kept : List KeptName) × IsBase (states_of kept) (B.meaning berth.now) }
    ensures { IfOk result (λ known. IsKeptBase (B.meaning berth.now) known) }
{
    keep_base::<Brand, B>(alloc, berth)
}

// Keeps what N chooses of this berth.
fn keep_base<N: Choice, B>(alloc: Global, _berth: &B) -> Result<KnownBerths, AllocError>
    requires { (known : List (Option (List KeptName))) × N.fits known }
    ensures { IfOk result (λ known. N.fits known) }
{
    KnownBerths::choose::<N>(alloc)
}

/// Runs the program over berths whose bases the token knows.
pub fn run_known<R: Wait + Threads + Sync, S: Source, K: Sink, B: Berth, G: Gate>(
    rt: &R,
    alloc: Global,
    words: &[String],
    source: &mut S,
    sink: &mut K,
    berths: &mut Vec<B>,
    gate: &G,
    watches: &mut Vec<Box<dyn Watch>>,
    known: &KnownBerths,
) -> Status
    requires bases { AreBases (bases_of known.now) B.meaning berths.old.items }
    ensures { HasRun (bases_of known.now) B.meaning (sight S.left S.faults K.written K.faults)
        (request_of (map string_bytes words.now)) result
        (outside source.old sink.old berths.old watches.old (map (λ watch. held watch) watches.old.items))
        (outside source.new sink.new berths.new watches.new (map (λ watch. held watch) watches.new.items)) }
{
    run_for::<Brand, R, S, K, B, G>(rt, alloc, words, source, sink, berths, gate, watches, known)
}

// Runs the program over berths with the bases of N, which the caller picks by what is known.
fn run_for<N: Bases, R: Wait + Threads + Sync, S: Source, K: Sink, B: Berth, G: Gate>(
    rt: &R,
    alloc: Global,
    words: &[String],
    source: &mut S,
    sink: &mut K,
    berths: &mut Vec<B>,
    gate: &G,
    watches: &mut Vec<Box<dyn Watch>>,
    _known: &KnownBerths,
) -> Status
    requires bases { AreBases N.base B.meaning berths.old.items }
    ensures { HasRun N.base B.meaning (sight S.left S.faults K.written K.faults)
        (request_of (map string_bytes words.now)) result
        (outside source.old sink.old berths.old watches.old (map (λ watch. held watch) watches.old.items))
        (outside source.new sink.new berths.new watches.new (map (λ watch. held watch) watches.new.items)) }
{
    run::<N, R, S, K, B, G>(rt, alloc, words, source, sink, berths, gate, watches)
}

/// Plays a script. Gives the status, and what the play left known of the berths, however it ended; None if memory for
/// that ran out.
pub fn run_keeping<N: Bases, R: Wait + Threads + Sync, S: Source, K: Sink, B: Berth, G: Gate>(
    rt: &R,
    alloc: Global,
    words: &[String],
    source: &mut S,
    sink: &mut K,
    berths: &mut Vec<B>,
    gate: &G,
    watches: &mut Vec<Box<dyn Watch>>,
) -> (Status, Option<KnownBerths>)
    requires words { request_of (map string_bytes words.now) ≡ Some Play }
    requires bases { AreBases N.base B.meaning berths.old.items }
    ensures ran { HasRun N.base B.meaning (sight S.left S.faults K.written K.faults)
        (request_of (map string_bytes words.now)) result.0
        (outside source.old sink.old berths.old watches.old (map (λ watch. held watch) watches.old.items))
        (outside source.new sink.new berths.new watches.new (map (λ watch. held watch) watches.new.items)) }
    ensures known { IfSome result.1 (λ known. LeavesKnown result.0 N.base B.meaning (S.left source.old)
        (S.left source.new) (K.written sink.old) (K.written sink.new) berths.old.items berths.new.items known) }

    // A leaf may begin again over each berth whose base was named, and over what a crash at any moment of the play left.
    ensures again { NamedHaveBases N.base B.meaning berths.old.items berths.new.items }
{
    let source_was = Snapshot::of(&*source);
    let sink_was = Snapshot::of(&*sink);
    let berths_were = Snapshot::of(&*berths);
    let status = run::<N, R, S, K, B, G>(rt, alloc, words, source, sink, berths, gate, watches);
    match keep_left::<Brand, S, K, B>(
        alloc,
        &status,
        &source_was,
        &sink_was,
        &berths_were,
        source,
        sink,
        berths,
    ) {
        Ok(known) => (status, Some(known)),
        Err(_) => (status, None),
    }
}

// Keeps what N chooses of these berths. The other arguments are for the choice alone: how the run ended, and what
// berths, source and sink were and are.
fn keep_left<N: Choice, S, K, B>(
    alloc: Global,
    _status: &Status,
    _source_was: &Snapshot<S>,
    _sink_was: &Snapshot<K>,
    _berths_were: &Snapshot<Vec<B>>,
    _source: &S,
    _sink: &K,
    _berths: &Vec<B>,
) -> Result<KnownBerths, AllocError>
    requires { (known : List (Option (List KeptName))) × N.fits known }
    ensures { IfOk result (λ known. N.fits known) }
{
    KnownBerths::choose::<N>(alloc)
}

/// Plays two scripts, one after the other, over the same berths. The second play begins however the first ended, if
/// memory sufficed to keep what that left known.
pub fn run_twice<N: Bases, R: Wait + Threads + Sync, S: Source, K: Sink, B: Berth, G: Gate>(
    rt: &R,
    alloc: Global,
    words: &[String],
    source: &mut S,
    sink: &mut K,
    next_source: &mut S,
    next_sink: &mut K,
    berths: &mut Vec<B>,
    gate: &G,
    watches: &mut Vec<Box<dyn Watch>>,
) -> (Status, Option<Status>)
    requires words { request_of (map string_bytes words.now) ≡ Some Play }
    requires bases { AreBases N.base B.meaning berths.old.items }

    // The first run was over the bases of N, and the second over bases that the first left, however it ended.
    ensures { RanTwice N.base B.meaning (sight S.left S.faults K.written K.faults)
        (request_of (map string_bytes words.now)) result.0 result.1
        (outside source.old sink.old berths.old watches.old (map (λ watch. held watch) watches.old.items)) source.new
        sink.new next_source.old next_sink.old
        (outside next_source.new next_sink.new berths.new watches.new (map (λ watch. held watch) watches.new.items)) }
{
    let (status, known) = run_keeping::<N, R, S, K, B, G>(
        rt, alloc, words, source, sink, berths, gate, watches,
    );
    match known {
        Some(known) => {
            let next = run_known(
                rt,
                alloc,
                words,
                next_source,
                next_sink,
                berths,
                gate,
                watches,
                &known,
            );
            (status, Some(next))
        }
        None => (status, None),
    }
}
