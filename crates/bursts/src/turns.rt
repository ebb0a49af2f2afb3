// Plays lanes one after another, if the ids do not suffice to cut them off.
ghost use Rattle.std.specs.Prelude.{◌≡◌, ◌≤◌, length, map};
ghost use Rattle.std.specs.List.{AllByRecursion};
ghost use Rattle.player.specs.Crew.{AllPass, HasAll, StillHas};
ghost use Rattle.lane_play.specs.Went.{told_lines};
ghost use Rattle.bursts.specs.Lanes.{TurnsWent};
ghost use Rattle.bursts.specs.Needs.{IsLanePlan, planned_commands};

use crate::lines::behind;
use crate::plan::{LanePlan, count};
use berth_face::{Berth, Gate};
use lane_play::play_lane;
use player::Crew;
use printed_lines::Line;
use rollover_watch::Watch;
use std::alloc::{AllocError, Global};
use std::sync::Wait;
use std::thread::Threads;

/// Plays lanes one after another, over the whole crew and with the same watches. Calls itself for all but the last, and
/// plays that.
pub fn play_in_turn<'t, R: Wait + Threads + Sync, B: Berth, G: Gate>(
    rt: &R,
    alloc: Global,
    gate: &G,
    crew: &mut Crew<'t, B>,
    watches: &mut Vec<Box<dyn Watch>>,
    plans: Vec<LanePlan>,
) -> Result<Vec<Line>, AllocError>
    requires plans { AllByRecursion (IsLanePlan crew.old.fleet) plans.items }
    requires few { length plans.items ≤ 16 }
    requires all { HasAll crew.old.fleet crew.old.holds }
    ensures went { TurnsWent B.meaning crew.old.fleet (map planned_commands plans.items) crew.old.holds
        (map (λ watch. held watch) watches.old.items) (told_lines result) crew.new.holds
        (map (λ watch. held watch) watches.new.items) }
    ensures fleet { (crew.new.fleet ≡ crew.old.fleet) × (crew.new.tables ≡ crew.old.tables) }
    ensures still { StillHas crew.old.holds crew.new.holds }
    ensures time { AllPass B.meaning crew.old.holds crew.new.holds }
{
    let mut plans = plans;
    let Some(plan) = plans.pop() else {
        return Ok(Vec::new(alloc));
    };
    let number = count(&plans);
    let lines = play_in_turn(rt, alloc, gate, crew, watches, plans)?;
    let own = play_lane(rt, alloc, gate, number, crew, watches, plan.commands);
    behind(Ok(lines), number, own)
}
