// Plays the script of a soak.
ghost use Rattle.std.specs.Prelude.{◌≡◌, ◌≢◌, ◌≤◌, length, map, Some, None};
ghost use Rattle.berth_face.specs.Causes.{Rose};
ghost use Rattle.run_ends.specs.Outcome.{IfScript, UnlessCutOff};
ghost use Rattle.run_words.specs.declared.words.Request.TheVariants.{Soak};
ghost use Rattle.play.specs.Outcome.{IsDone, IsShort, UnlessPlayed, soak_verdict};
ghost use Rattle.play.specs.Shortened.{IfShort};
ghost use Rattle.play.specs.Played.{AreBases, LeavesBerths, soak_leaves};

use crate::bases::Bases;
use crate::berths::play_items;
use berth_face::{Berth, Gate, Sink};
use rollover_watch::Watch;
use run_ends::Status;
use script_text::Why;
use std::alloc::Global;
use std::sync::Wait;
use std::thread::Threads;

/// The number of leaves in the fleet of a soak.
const LEAVES: usize = 8;

/// Plays the script of a seed and a number of rows. It reads no source.
#[tactic(auto, using(crate::proofs::Soaked::soak_count))]
pub fn play_soak<N: Bases, R: Wait + Threads + Sync, K: Sink, B: Berth, G: Gate>(
    rt: &R,
    alloc: Global,
    seed: u64,
    rows: u32,
    sink: &mut K,
    berths: &mut Vec<B>,
    gate: &G,
    watches: &mut Vec<Box<dyn Watch>>,
) -> Status
    requires rows { (8 ≤ rows) × (rows ≤ 800000) }
    requires bases { AreBases N.base B.meaning berths.old.items }
    ensures done { result ≡ Status.Done
        → IsDone N.base B.meaning None None (K.written sink.old) (K.written sink.new) berths.old.items berths.new.items
        (map (λ watch. held watch) watches.old.items) (map (λ watch. held watch) watches.new.items)
        (Some (Soak seed rows)) }
    ensures short { IfShort result (IsShort N.base B.meaning None None (K.written sink.old) (K.written sink.new)
        berths.old.items berths.new.items
        (map (λ watch. held watch) watches.old.items) (map (λ watch. held watch) watches.new.items)
        (Some (Soak seed rows))) }
    ensures known_words { result ≢ Status.Words }
    ensures script { IfScript result (λ line why. soak_verdict (length berths.old.items) ≡ Status.Script line why) }
    ensures unread { result ≢ Status.ReadFault }
    ensures write_fault { result ≡ Status.WriteFault → Rose (K.faults sink.old) (K.faults sink.new) }
    ensures exact { UnlessCutOff result (result ≡ soak_verdict (length berths.old.items)) }
    ensures unwritten { UnlessPlayed result (sink.new ≡ sink.old) }
    ensures unplayed { UnlessPlayed result (berths.new ≡ berths.old) }
    ensures unwatched { UnlessPlayed result (watches.new ≡ watches.old) }
    ensures berths { LeavesBerths B.meaning soak_leaves berths.old.items berths.new.items }
{
    if berths.len() < LEAVES {
        return Status::Script {
            line: 0,
            why: Why::NoBerth,
        };
    }
    let Ok(script) = soak::script(alloc, seed, rows) else {
        return Status::NoMemory;
    };
    play_items::<N, R, K, B, G>(rt, alloc, script.items, sink, berths, gate, watches)
}
