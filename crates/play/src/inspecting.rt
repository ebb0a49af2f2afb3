// Inspects the region of a leaf's berth.
ghost use Rattle.std.specs.Prelude.{◌≡◌, ◌≢◌, ◌<◌, ◌+◌, length, option_map, Some, None, Err, IfOk};
ghost use Rattle.std.specs.Io.KnownBytes.{Appends};
ghost use Rattle.berth_face.specs.Causes.{Rose};
ghost use Rattle.berth_face.specs.Streams.{WritesFront};
ghost use Rattle.region_reading.specs.declared.fault.AdoptFault.TheVariants as fault;
ghost use Rattle.region_inspect.specs.Lines.{region_text};
ghost use Rattle.run_ends.specs.Outcome.{IfScript, UnlessCutOff};
ghost use Rattle.play.specs.Inspected.{InspectEndsShort, IsInspected, IsLookedAt, IsSeen};
ghost use Rattle.play.specs.Outcome.{UnlessPlayed, inspect_verdict};
ghost use Rattle.play.specs.Played.{LeavesBerths};
ghost use Rattle.play.specs.Runs.{IsEnd};
ghost use Rattle.play.specs.Shortened.{IfShort};

use berth_face::{Berth, Sink};
use region_inspect::{Seen, inspect, region_lines};
use region_reading::AdoptFault;
use run_ends::{Status, write_all};
use script_text::Why;
use std::alloc::Global;

/// Writes what the region of a leaf's berth holds. It reads no source, and all berths still hold what they held.
#[tactic(auto, using(crate::proofs::Looked::leaves_all, crate::proofs::Looked::leaves_looked))]
pub fn play_inspect<K: Sink, B: Berth>(
    alloc: Global,
    leaf: u32,
    sink: &mut K,
    berths: &mut Vec<B>,
) -> Status
    ensures done { result ≡ Status.Done
        → IsInspected B.meaning leaf berths.old.items berths.new.items (K.written sink.old) (K.written sink.new) }
    ensures short { IfShort result (InspectEndsShort B.meaning leaf berths.old.items berths.new.items
        (K.written sink.old) (K.written sink.new)) }
    ensures known_words { result ≢ Status.Words }
    ensures script { IfScript result (λ line why. inspect_verdict (length berths.old.items) leaf
        ≡ Status.Script line why) }
    ensures unread { result ≢ Status.ReadFault }
    ensures write_fault { result ≡ Status.WriteFault → Rose (K.faults sink.old) (K.faults sink.new) }
    ensures exact { UnlessCutOff result (result ≡ inspect_verdict (length berths.old.items) leaf) }
    ensures unwritten { UnlessPlayed result (sink.new ≡ sink.old) }
    ensures unplayed { UnlessPlayed result (berths.new ≡ berths.old) }
    ensures berths { LeavesBerths B.meaning (leaf + 1) berths.old.items berths.new.items }
{
    if berths.len() <= leaf as usize {
        return Status::Script {
            line: 0,
            why: Why::NoBerth,
        };
    }
    match look_at(alloc, leaf, berths) {
        Ok(seen) => tell_region(alloc, leaf, Some(&seen), sink),
        Err(AdoptFault::RegionFault) => tell_region(alloc, leaf, None, sink),
        Err(AdoptFault::NoMemory) => Status::NoMemory,
    }
}

/// Reads the region of a leaf's berth. There is such a berth.
fn look_at<B: Berth>(alloc: Global, leaf: u32, berths: &mut Vec<B>) -> Result<Seen, AdoptFault>
    requires { leaf < length berths.old.items }
    ensures seen { IfOk result (λ seen. IsSeen B.meaning leaf berths.old.items berths.new.items (Some seen)) }
    ensures failed { result ≡ Err fault.RegionFault → IsSeen B.meaning leaf berths.old.items berths.new.items None }
    ensures looked { IsLookedAt B.meaning leaf berths.old.items berths.new.items }
{
    inspect(alloc, &mut berths[leaf as usize])
}

/// Writes the lines of a leaf's region, or that its berth failed.
fn tell_region<K: Sink>(alloc: Global, leaf: u32, seen: Option<&Seen>, sink: &mut K) -> Status
    ensures ends { IsEnd result }
    ensures done { result ≡ Status.Done
        → Appends (K.written sink.old) (K.written sink.new) (region_text leaf (option_map (λ s. s.now) seen.entry)) }
    ensures cut_short { result ≡ Status.WriteFault
        → WritesFront (K.written sink.old) (K.written sink.new)
        (region_text leaf (option_map (λ s. s.now) seen.entry)) }
    ensures unwritten { result ≡ Status.NoMemory → sink.new ≡ sink.old }
    ensures cause { result ≡ Status.WriteFault → Rose (K.faults sink.old) (K.faults sink.new) }
{
    let Ok(text) = region_lines(alloc, leaf, seen) else {
        return Status::NoMemory;
    };
    match write_all(text.as_slice(), sink) {
        Ok(()) => Status::Done,
        Err(_) => Status::WriteFault,
    }
}
