// Plays the commands of a lane.
ghost use Rattle.std.specs.Prelude.{◌≡◌, map};
ghost use Rattle.std.specs.List.{AllByRecursion};
ghost use Rattle.player.specs.Crew.{AllPass, StillHas};
ghost use Rattle.lane_play.specs.Played.{MayPlayOn};
ghost use Rattle.lane_play.specs.Went.{LaneWent, told_lines};

use crate::command::play_command;
use berth_face::{Berth, Gate};
use player::Crew;
use printed_lines::Line;
use rollover_watch::Watch;
use script_text::Command;
use std::alloc::{AllocError, Global};
use std::collections::VecDeque;
use std::sync::Wait;
use std::thread::Threads;

/// Plays the commands of lane `number`, one after another, and stops after the first whose lines find no memory. It
/// passes the gate before each.
pub fn play_lane<'t, R: Wait + Threads + Sync, B: Berth, G: Gate>(
    rt: &R,
    alloc: Global,
    gate: &G,
    number: u32,
    crew: &mut Crew<'t, B>,
    watches: &mut Vec<Box<dyn Watch>>,
    commands: Vec<Command>,
) -> Result<Vec<Line>, AllocError>
    requires { AllByRecursion (MayPlayOn crew.old.fleet crew.old.holds) commands.items }
    ensures went { LaneWent B.meaning crew.old.fleet commands.items crew.old.holds
        (map (λ watch. held watch) watches.old.items) (told_lines result) crew.new.holds
        (map (λ watch. held watch) watches.new.items) }
    ensures fleet { (crew.new.fleet ≡ crew.old.fleet) × (crew.new.tables ≡ crew.old.tables) }
    ensures still { StillHas crew.old.holds crew.new.holds }
    ensures time { AllPass B.meaning crew.old.holds crew.new.holds }
{
    let mut lines = Vec::new(alloc);
    let mut step: u32 = 0;
    let mut rest = VecDeque::from_vec(commands);
    while let Some(command) = rest.pop_front() {
        gate.pass(number, step);
        let mut more = play_command(rt, alloc, gate, crew, watches, command)?;
        lines.append(&mut more)?;
        step = step.wrapping_add(1);
    }
    Ok(lines)
}
