// Plays a source that is a script.
ghost use Rattle.std.specs.Prelude.{◌≡◌, ◌≢◌, ◌<◌, ◌∷◌, [], length, map, Some, None, IfSome, IfOk, IfErr};
ghost use Rattle.berth_face.specs.Causes.{Rose};
ghost use Rattle.berth_face.specs.Streams.{TakesAtMost};
ghost use Rattle.run_ends.specs.Outcome.{IsRefused, IfScript, UnlessCutOff, TakesText};
ghost use Rattle.run_ends.specs.Source.{most_taken};
ghost use Rattle.run_words.specs.declared.words.Request.TheVariants.{Play};
ghost use Rattle.play.specs.Outcome.{IsDone, IsShort, UnlessPlayed, play_verdict, status_of_fault};
ghost use Rattle.play.specs.Shortened.{IfShort};
ghost use Rattle.play.specs.Played.{AreBases, LeavesBerths, leaves_told};

use crate::bases::Bases;
use crate::berths::{leaf_count, play_items};
use berth_face::{Berth, Gate, Sink, Source};
use rollover_watch::Watch;
use run_ends::{SourceError, Status, read_all};
use script_text::{ScriptFault, Why, parse};
use std::alloc::Global;
use std::sync::Wait;
use std::thread::Threads;

/// Reads a source as a script, and plays it.
pub fn play_source<N: Bases, R: Wait + Threads + Sync, S: Source, K: Sink, B: Berth, G: Gate>(
    rt: &R,
    alloc: Global,
    source: &mut S,
    sink: &mut K,
    berths: &mut Vec<B>,
    gate: &G,
    watches: &mut Vec<Box<dyn Watch>>,
) -> Status
    requires { AreBases N.base B.meaning berths.old.items }
    ensures done { result ≡ Status.Done
        → IsDone N.base B.meaning (S.left source.old) (S.left source.new) (K.written sink.old) (K.written sink.new)
        berths.old.items berths.new.items
        (map (λ watch. held watch) watches.old.items) (map (λ watch. held watch) watches.new.items) (Some Play) }
    ensures short { IfShort result (IsShort N.base B.meaning (S.left source.old) (S.left source.new)
        (K.written sink.old) (K.written sink.new) berths.old.items berths.new.items
        (map (λ watch. held watch) watches.old.items) (map (λ watch. held watch) watches.new.items) (Some Play)) }
    ensures known_words { result ≢ Status.Words }
    ensures script { IfScript result (IsRefused (play_verdict (length berths.old.items)) (S.left source.old)
        (S.left source.new)) }
    ensures read_fault { result ≡ Status.ReadFault → Rose (S.faults source.old) (S.faults source.new) }
    ensures write_fault { result ≡ Status.WriteFault → Rose (K.faults sink.old) (K.faults sink.new) }
    ensures exact { IfSome (S.left source.old)
        (λ text. UnlessCutOff result (result ≡ play_verdict (length berths.old.items) text)) }
    ensures takes { TakesAtMost (S.left source.old) (S.left source.new) most_taken }
    ensures too_long { TakesText result (S.left source.old) (S.left source.new) }
    ensures unwritten { UnlessPlayed result (sink.new ≡ sink.old) }
    ensures unplayed { UnlessPlayed result (berths.new ≡ berths.old) }
    ensures unwatched { UnlessPlayed result (watches.new ≡ watches.old) }
    ensures berths { LeavesBerths B.meaning (leaves_told (S.left source.old)) berths.old.items berths.new.items }
{
    let text = match read_all(alloc, source) {
        Ok(text) => text,
        Err(SourceError::Failed) => return Status::ReadFault,
        Err(SourceError::TooLong) => {
            return Status::Script {
                line: 0,
                why: Why::TooLong,
            };
        }
        Err(SourceError::NoMemory) => return Status::NoMemory,
    };
    let script = match parse(rt, alloc, text.as_slice()) {
        Ok(script) => script,
        Err(fault) => return status_of(fault),
    };
    // (the script owns all that it needs)
    drop(text);
    if berths.len() < leaf_count(&script.items) {
        return Status::Script {
            line: script.fleet_line,
            why: Why::NoBerth,
        };
    }
    play_items::<N, R, K, B, G>(rt, alloc, script.items, sink, berths, gate, watches)
}

/// The status of a text that is no script.
fn status_of(fault: ScriptFault) -> Status
    ensures { result ≡ status_of_fault fault }
{
    match fault {
        ScriptFault::At { line, why } => Status::Script { line, why },
        ScriptFault::NoMemory => Status::NoMemory,
    }
}
