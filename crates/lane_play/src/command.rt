// Plays one command over a crew.
ghost use Rattle.std.specs.Prelude.{◌≡◌, ◌⊎◌, IsErr, map};
ghost use Rattle.leaf_moves.specs.Plays.{MayPlay};
ghost use Rattle.player.specs.Crew.{AllPass, HasFor, PlaysWith, StillHas};

use berth_face::{Berth, Gate};
use player::Crew;
use printed_lines::Line;
use rollover_watch::Watch;
use script_text::Command;
use std::alloc::{AllocError, Global};
use std::sync::Wait;
use std::thread::Threads;

/// Plays a command over a crew that holds all that it needs. Gives its lines; Err if memory ran out.
pub fn play_command<'t, R: Wait + Threads + Sync, B: Berth, G: Gate>(
    rt: &R,
    alloc: Global,
    gate: &G,
    crew: &mut Crew<'t, B>,
    watches: &mut Vec<Box<dyn Watch>>,
    command: Command,
) -> Result<Vec<Line>, AllocError>
    requires may { MayPlay crew.old.fleet command }
    requires has { HasFor crew.old.fleet crew.old.holds command }
    ensures plays { PlaysWith B.meaning crew.old.fleet command crew.old.holds
        (map (λ watch. held watch) watches.old.items) result crew.new.holds
        (map (λ watch. held watch) watches.new.items)
        ⊎ (IsErr result × (crew.new.holds ≡ crew.old.holds)
        × (map (λ watch. held watch) watches.new.items ≡ map (λ watch. held watch) watches.old.items)) }
    ensures fleet { (crew.new.fleet ≡ crew.old.fleet) × (crew.new.tables ≡ crew.old.tables) }
    ensures still { StillHas crew.old.holds crew.new.holds }
    ensures time { AllPass B.meaning crew.old.holds crew.new.holds }
{
    let order = command.order();
    crew.play(rt, alloc, gate, watches, order)
}
