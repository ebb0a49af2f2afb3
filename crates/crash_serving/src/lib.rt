//! Laws of a leaf that serves its tables, or shuts them.
#![tactic(auto)]

ghost use Rattle.crash_serving.specs.Laws.{RunsOn};

use berth_face::Berth;

/// Entries without a call on the berth: a leaf that notes a table as flushed keeps its state, and a leaf that is killed
/// leaves what belongs to its tables.
pub fn runs_on<B: Berth>(berth: &B)
    ensures { RunsOn (B.meaning berth.now) }
{}
