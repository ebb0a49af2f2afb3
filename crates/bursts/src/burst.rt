// Plays a burst.
ghost use Rattle.std.specs.Prelude.{◌≡◌, IfOk, map};
ghost use Rattle.std.specs.List.{AllByRecursion};
ghost use Rattle.script_text.specs.declared.item.Item.TheVariants.{Burst};
ghost use Rattle.script_text.specs.Fits.{IsBurst};
ghost use Rattle.printed_lines.specs.Lines.{IsOf};
ghost use Rattle.script_text.specs.Commands.{leaf_count};
ghost use Rattle.player.specs.Crew.{AllPass, HasAll};
ghost use Rattle.lane_play.specs.Went.{ItemWent, OrNothing, told_lines};

use crate::beside::play_beside;
use crate::plans::{are_spare, plan_all};
use crate::turns::play_in_turn;
use berth_face::{Berth, Gate};
use player::Crew;
use printed_lines::Line;
use rollover_watch::Watch;
use script_text::Commands;
use std::alloc::{AllocError, Global};
use std::sync::Wait;
use std::thread::Threads;

/// Plays the lanes of a burst. If the callers have ids enough for them, all seats meet, so that each lane knows what
/// was done before the burst, and the lanes play beside one another; else they play in turn. After Err, which is want
/// of memory, all leaves, seats and watches are still back.
pub fn play_burst<'t, R: Wait + Threads + Sync, B: Berth, G: Gate>(
    rt: &R,
    alloc: Global,
    gate: &G,
    crew: &mut Crew<'t, B>,
    watches: &mut Vec<Box<dyn Watch>>,
    lanes: Vec<Commands>,
) -> Result<Vec<Line>, AllocError>
    requires burst { IsBurst (leaf_count crew.old.fleet) crew.old.fleet.names lanes.items }
    requires all { HasAll crew.old.fleet crew.old.holds }
    ensures went { OrNothing (ItemWent B.meaning crew.old.fleet (Burst lanes.items) crew.old.holds
        (map (λ watch. held watch) watches.old.items) (told_lines result) crew.new.holds
        (map (λ watch. held watch) watches.new.items)) crew.old.holds (map (λ watch. held watch) watches.old.items)
        (told_lines result) crew.new.holds (map (λ watch. held watch) watches.new.items) }
    ensures fleet { (crew.new.fleet ≡ crew.old.fleet) × (crew.new.tables ≡ crew.old.tables) }
    ensures all { HasAll crew.new.fleet crew.new.holds }
    ensures time { AllPass B.meaning crew.old.holds crew.new.holds }
    ensures lines_fit { IfOk result (λ lines. AllByRecursion (IsOf crew.old.fleet.names) lines.items) }
{
    let plans = plan_all(alloc, crew, lanes)?;
    if are_spare(crew, plans.as_slice()) {
        let mut works = Vec::with_capacity(alloc, plans.len())?;
        crew.meet_all();
        let lines = play_beside(rt, alloc, gate, crew, watches, plans, &mut works);
        works.destroy_empty();
        lines
    } else {
        play_in_turn(rt, alloc, gate, crew, watches, plans)
    }
}
