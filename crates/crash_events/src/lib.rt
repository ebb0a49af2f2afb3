//! A leaf's life as a machine over events: its invariant, and what a crash may leave in each state.
#![tactic(auto)]

ghost use Rattle.std.specs.Prelude.{ℕ, Bool};
ghost use Rattle.crash_events.specs.Begins.{LeafBegins};
ghost use Rattle.crash_events.specs.Laws.{FittingIsCrash, KeptThroughout, LeftThroughout, PlainThroughout};

use berth_face::Berth;

/// After each event of every run the invariant holds, no table was handed in writes, and each region and disk that a
/// crash may leave belong to the tables as they are. The event of a crash leaves just these pairs.
pub fn kept_always()
    ensures kept { KeptThroughout }
    ensures plain { PlainThroughout }
    ensures left { LeftThroughout }
    ensures crash { FittingIsCrash }
{}

/// Over a ready berth a leaf begins: the machine that is down, with the base of each name, has the invariant, and every
/// region and disk that a crash may leave fits it.
pub fn begins_when_ready<B: Berth>(berth: &B)
    ensures begins { (reads : ℕ → Bool) → LeafBegins reads (B.meaning berth.now) }
{}
