// The whole program as one call.
ghost use Rattle.std.specs.Prelude.{map, string_bytes};
ghost use Rattle.play.specs.Played.{AreBases};
ghost use Rattle.play.specs.Ran.{HasRun, outside, sight};
ghost use Rattle.run_words.specs.Words.{request_of};

use crate::bases::Bases;
use crate::inspecting::play_inspect;
use crate::script::play_source;
use crate::soaking::play_soak;
use berth_face::{Berth, Gate, Sink, Source};
use rollover_watch::Watch;
use row_count::count_source;
use run_ends::Status;
use run_words::{Request, request_of};
use std::alloc::Global;
use std::sync::Wait;
use std::thread::Threads;

/// Does what the words ask for, with this source, sink, berths and watches. Gives the status.
pub fn run<N: Bases, R: Wait + Threads + Sync, S: Source, K: Sink, B: Berth, G: Gate>(
    rt: &R,
    alloc: Global,
    words: &[String],
    source: &mut S,
    sink: &mut K,
    berths: &mut Vec<B>,
    gate: &G,
    watches: &mut Vec<Box<dyn Watch>>,
) -> Status
    // Leaf L uses berth L. N names the berths whose base is known; a leaf with that base has to be able to begin there.
    requires bases { AreBases N.base B.meaning berths.old.items }

    // What was done, or why it was not.
    ensures { HasRun N.base B.meaning (sight S.left S.faults K.written K.faults)
        (request_of (map string_bytes words.now)) result
        (outside source.old sink.old berths.old watches.old (map (λ watch. held watch) watches.old.items))
        (outside source.new sink.new berths.new watches.new (map (λ watch. held watch) watches.new.items)) }
{
    match request_of(words) {
        None => Status::Words,
        Some(Request::Count(range)) => count_source(rt, alloc, range, source, sink),
        Some(Request::Play) => {
            play_source::<N, R, S, K, B, G>(rt, alloc, source, sink, berths, gate, watches)
        }
        Some(Request::Soak { seed, rows }) => {
            play_soak::<N, R, K, B, G>(rt, alloc, seed, rows, sink, berths, gate, watches)
        }
        Some(Request::Inspect { leaf }) => play_inspect(alloc, leaf, sink, berths),
    }
}
