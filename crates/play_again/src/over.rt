// Runs over berths of which only is known that leaves may begin there.
ghost use Rattle.std.specs.Prelude.{◌≡◌, ◌≤◌, ℕ, List, [], Option, IfOk, OnErr, map, string_bytes};
ghost use Rattle.berth_face.specs.Berth.{OpenedOn, Pair};
ghost use Rattle.region_layout.specs.Region.{reads};
ghost use Rattle.crash_moments.specs.Left.{Left, NamedStates};
ghost use Rattle.play.specs.Played.{leaves_asked};
ghost use Rattle.play.specs.Ran.{HasRun, outside, sight};
ghost use Rattle.run_words.specs.Words.{request_of};
ghost use Rattle.play_again.specs.Keeping.{KeptName, bases_of};
ghost use Rattle.play_again.specs.Over.{HasBase, HasBaseSince, HaveBases, HaveBasesAgain, KeepsBases};

use crate::kept::{Choice, KnownBerths};
use crate::known::run_known;
use berth_face::{Berth, Gate, Sink, Source};
use rollover_watch::Watch;
use run_ends::Status;
use std::alloc::{AllocError, Global};
use std::marker::Brand;
use std::sync::Wait;
use std::thread::Threads;

/// No-op; states that a leaf may begin over a berth that was opened on a region and a disk which belong to some tables,
/// as each pair that a crash may leave does.
pub fn has_base_where_opened<B: Berth>(berth: &B)
    ensures { (tables : NamedStates) (p : Pair) → Left reads tables p → OpenedOn p.region p.disk (B.meaning berth.now)
        → HasBase (B.meaning berth.now) }
{}

/// No-op; states that a leaf may begin over a berth that was opened on no bytes.
pub fn has_empty_base<B: Berth>(berth: &B)
    ensures { OpenedOn [] [] (B.meaning berth.now) → HasBase (B.meaning berth.now) }
{}

/// No-op; states that after a run a leaf may begin over a berth that was opened on what a crash of another berth left,
/// at a moment since the run began.
pub fn has_base_after_crash<A: Berth, B: Berth>(crashed: &A, berth: &B)
    ensures { (from t : ℕ) (p : Pair) → HasBaseSince from (A.meaning crashed.now) → from ≤ t
        → t ≤ (A.meaning crashed.now).clock
        → (A.meaning crashed.now).leaves t p → OpenedOn p.region p.disk (B.meaning berth.now)
        → HasBase (B.meaning berth.now) }
{}

/// Runs the program over berths. Over each that its leaves use, a leaf has to be able to begin, whatever the berth
/// holds. What the run prints and leaves is told over bases of these berths. Err if memory for one word runs out; then
/// nothing was read, written or played.
pub fn run_over<R: Wait + Threads + Sync, S: Source, K: Sink, B: Berth, G: Gate>(
    rt: &R,
    alloc: Global,
    words: &[String],
    source: &mut S,
    sink: &mut K,
    berths: &mut Vec<B>,
    gate: &G,
    watches: &mut Vec<Box<dyn Watch>>,
) -> Result<Status, AllocError>
    requires bases { HaveBases (leaves_asked (request_of (map string_bytes words.now)) (S.left source.old)) B.meaning
        berths.old.items }
    ensures ran { IfOk result (λ status. (kept : List (Option (List KeptName)))
        × KeepsBases (leaves_asked (request_of (map string_bytes words.now)) (S.left source.old)) B.meaning
        berths.old.items kept
        × HasRun (bases_of kept) B.meaning (sight S.left S.faults K.written K.faults)
        (request_of (map string_bytes words.now)) status
        (outside source.old sink.old berths.old watches.old (map (λ watch. held watch) watches.old.items))
        (outside source.new sink.new berths.new watches.new (map (λ watch. held watch) watches.new.items))) }

    // A leaf may begin again over each berth that had a base, and over what a crash at any moment of the run left of it.
    ensures again { IfOk result (λ status. HaveBasesAgain B.meaning berths.old.items berths.new.items) }
    ensures refused { OnErr result ((source.new ≡ source.old) × (sink.new ≡ sink.old) × (berths.new ≡ berths.old)
        × (watches.new ≡ watches.old)) }
{
    let known = keep_used(alloc, words, source, berths)?;
    let status = run_known(
        rt, alloc, words, source, sink, berths, gate, watches, &known,
    );
    Ok(status)
}

// Keeps a base of each berth that the leaves of this request use.
fn keep_used<S: Source, B: Berth>(
    alloc: Global,
    words: &[String],
    source: &S,
    berths: &Vec<B>,
) -> Result<KnownBerths, AllocError>
    requires { HaveBases (leaves_asked (request_of (map string_bytes words.now)) (S.left source.now)) B.meaning
        berths.now.items }
    ensures { IfOk result (λ known. KeepsBases
        (leaves_asked (request_of (map string_bytes words.now)) (S.left source.now)) B.meaning berths.now.items known) }
{
    keep_bases::<Brand, S, B>(alloc, words, source, berths)
}

// Keeps what N chooses of these berths.
fn keep_bases<N: Choice, S, B>(
    alloc: Global,
    _words: &[String],
    _source: &S,
    _berths: &Vec<B>,
) -> Result<KnownBerths, AllocError>
    requires { (known : List (Option (List KeptName))) × N.fits known }
    ensures { IfOk result (λ known. N.fits known) }
{
    KnownBerths::choose::<N>(alloc)
}
