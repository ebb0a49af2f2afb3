//! What region and disk hold of a leaf's tables in each of its states, and that a crash leaves nothing else.
#![tactic(auto)]

ghost use Rattle.crash_states.specs.Laws.{StandingIsLeft};

use berth_face::Berth;

/// In each state of a leaf, every region and disk that a crash may leave now belong to the tables as the steward's
/// entries have made them.
pub fn standing_is_left<B: Berth>(berth: &B)
    ensures { StandingIsLeft (B.meaning berth.now) }
{}
