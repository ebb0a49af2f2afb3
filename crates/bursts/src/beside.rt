// Plays lanes beside one another, each with what is cut off for it.
ghost use Rattle.std.specs.Prelude.{◌≡◌, ◌+◌, ◌<◌, ◌≤◌, ◌∷◌, ◌++◌, [], ℕ, length, map, slice_index_or, vec_len, vec_capacity};
ghost use Rattle.std.specs.List.{All};
ghost use Rattle.std.specs.Thread.{IsSend, IsSync};
ghost use Rattle.player.specs.Crew.{AllPass, StillHas};
ghost use Rattle.lane_play.specs.Went.{told_lines};
ghost use Rattle.bursts.specs.Lanes.{AreDone, FansWent, LaneIsDone, MayWork};
ghost use Rattle.bursts.specs.Needs.{CanLend, planned_commands};
ghost use Rattle.bursts.specs.Rolling.{rolling};

use crate::lines::behind;
use crate::plan::{LanePlan, count};
use crate::watches::{hand_over, has_rollover, take_over};
use crate::work::LaneWork;
use berth_face::{Berth, Gate};
use lane_play::play_lane;
use player::Crew;
use printed_lines::Line;
use rollover_watch::Watch;
use std::alloc::{AllocError, Global};
use std::mem::replace;
use std::sync::Wait;
use std::thread;
use std::thread::Threads;

/// Plays the planned lanes and `lanes`, all at once. Cuts off what the last planned lane needs, calls itself for the
/// others, and takes back what it cut off. If memory for that runs out, no lane is played. The watches go with the lane
/// that has a rollover.
pub fn play_beside<'t, R: Wait + Threads + Sync, B: Berth, G: Gate>(
    rt: &R,
    alloc: Global,
    gate: &G,
    crew: &mut Crew<'t, B>,
    watches: &mut Vec<Box<dyn Watch>>,
    plans: Vec<LanePlan>,
    lanes: &mut Vec<LaneWork<'t, B>>,
) -> Result<Vec<Line>, AllocError>
    requires lend { CanLend crew.old.fleet crew.old.holds plans.items }
    requires few { length plans.items ≤ 16 }
    requires one { rolling (map planned_commands plans.items) ≤ 1 }
    requires may { All MayWork lanes.old.items }
    requires room { vec_len lanes.old + vec_len plans ≤ vec_capacity lanes.old }
    ensures went { FansWent B.meaning crew.old.fleet (map planned_commands plans.items) crew.old.holds
        (map (λ watch. held watch) watches.old.items) (told_lines result) crew.new.holds
        (map (λ watch. held watch) watches.new.items) }
    ensures done { AreDone (λ work. map (λ watch. held watch) work.watches.items) B.meaning lanes.old.items
        lanes.new.items }
    ensures fleet { (crew.new.fleet ≡ crew.old.fleet) × (crew.new.tables ≡ crew.old.tables) }
    ensures still { StillHas crew.old.holds crew.new.holds }
    ensures time { AllPass B.meaning crew.old.holds crew.new.holds }
{
    let mut plans = plans;
    let Some(plan) = plans.pop() else {
        work_all(rt, alloc, gate, lanes.as_mut_slice());
        return Ok(Vec::new(alloc));
    };
    let off = crew.cut_off(
        alloc,
        plan.needs.tables.as_slice(),
        plan.needs.leaves.as_slice(),
    )?;
    let number = count(&plans);
    let rolls = has_rollover(plan.commands.as_slice());
    put_last(
        lanes,
        LaneWork {
            number,
            crew: off,
            commands: plan.commands,
            watches: hand_over(alloc, watches, rolls),
            lines: Err(AllocError),
        },
    );
    let lines = play_beside(rt, alloc, gate, crew, watches, plans, lanes);
    let Some(lane) = lanes.pop() else {
        unreachable!()
    };
    crew.take_back(lane.crew);
    take_over(watches, rolls, lane.watches);
    behind(lines, number, lane.lines)
}

// Appends a value. There is room for it.
fn put_last<T>(list: &mut Vec<T>, value: T)
    requires { vec_len list.old < vec_capacity list.old }
    ensures items { list.new.items ≡ list.old.items ++ value ∷ [] }
    ensures len { vec_len list.new ≡ vec_len list.old + 1 }
    ensures capacity { vec_capacity list.old ≤ vec_capacity list.new }
{
    match list.push(value) {
        Ok(()) => {}
        Err(_) => unreachable!(),
    }
}

// Plays all lanes, each in a thread of its own if one can be started, else in turn. If fewer than two have commands,
// the calling thread plays them.
fn work_all<'t, R: Wait + Threads + Sync, B: Berth, G: Gate>(
    rt: &R,
    alloc: Global,
    gate: &G,
    lanes: &mut [LaneWork<'t, B>],
)
    requires { All MayWork lanes.old }
    ensures each { (i : ℕ) (d : _) → i < length lanes.old
        → LaneIsDone (λ work. map (λ watch. held watch) work.watches.items) B.meaning (slice_index_or lanes.old i d)
        (slice_index_or lanes.new i d) }
    ensures same { length lanes.new ≡ length lanes.old }
{
    if lanes.is_empty() {
        return;
    }
    let threads = threads_for(lanes);
    thread::for_each_mut(
        rt,
        lanes,
        threads,
        &|_, lane: &mut LaneWork<B>|
            requires { IsSync R.row × IsSync G.row × IsSend B.row × MayWork lane.old }
            ensures { LaneIsDone (λ work. map (λ watch. held watch) work.watches.items) B.meaning lane.old lane.new }
        { work(rt, alloc, gate, lane) },
    );
}

// The number of threads to play the lanes.
fn threads_for<'t, B: Berth>(lanes: &[LaneWork<'t, B>]) -> usize
    requires { 0 < length lanes.now }
    ensures { 0 < result }
{
    let mut has_one = false;
    for lane in lanes {
        if lane.is_busy() {
            if has_one {
                return lanes.len();
            }
            has_one = true;
        }
    }
    1
}

// Plays one lane with what was cut off for it.
fn work<'t, R: Wait + Threads + Sync, B: Berth, G: Gate>(
    rt: &R,
    alloc: Global,
    gate: &G,
    lane: &mut LaneWork<'t, B>,
)
    requires { MayWork lane.old }
    ensures { LaneIsDone (λ work. map (λ watch. held watch) work.watches.items) B.meaning lane.old lane.new }
{
    let commands = replace(&mut lane.commands, Vec::new(alloc));
    lane.lines = play_lane(
        rt,
        alloc,
        gate,
        lane.number,
        &mut lane.crew,
        &mut lane.watches,
        commands,
    );
}
