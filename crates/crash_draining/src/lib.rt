//! Laws of a leaf that copies its tables into its region.
#![tactic(auto)]

ghost use Rattle.crash_draining.specs.Laws.{CopiesOn};

use berth_face::Berth;

/// Entries without a call on the berth: a leaf that gives its copy up leaves what belongs to its tables, and so does a
/// leaf that has handed them over.
pub fn copies_on<B: Berth>(berth: &B)
    ensures { CopiesOn (B.meaning berth.now) }
{}
