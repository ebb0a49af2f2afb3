//! Laws of a leaf that starts: the tables that it finds may be opened, and then it runs.
#![tactic(auto)]

ghost use Rattle.crash_starting.specs.Laws.{FoundRuns, ReadyRests};

use berth_face::Berth;

/// Over a ready berth a leaf rests with the berth's base. The tables that a start finds may be opened, and then the
/// leaf runs.
pub fn starts_well<B: Berth>(berth: &B)
    ensures ready { ReadyRests (B.meaning berth.now) }
    ensures found { FoundRuns (B.meaning berth.now) }
{}
