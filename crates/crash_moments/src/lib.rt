//! What a leaf's calls tell of a crash at any moment, by the histories that its steward has seen.
#![tactic(auto)]

ghost use Rattle.crash_moments.specs.Laws.{CutKeeps, StaysSound, ToldJoins};

use berth_face::Berth;

/// Invariant of every legal history: a table was handed in nothing, and has at most 2^40 rows after each prefix of its
/// writes. After the steward's last entry a table has only got writes.
pub fn histories_stay_sound()
    ensures sound { StaysSound }
    ensures keeps { CutKeeps }
{}

/// If each of two calls in a row keeps `Told`, so do both together.
pub fn told_joins<B: Berth>(first: &B, second: &B, third: &B)
    ensures { ToldJoins (B.meaning first.now) (B.meaning second.now) (B.meaning third.now) }
{}
