// The plans of the lanes of a burst.
ghost use Rattle.std.specs.Prelude.{◌≡◌, ◌<◌, IfOk, IsTrue, count_by};
ghost use Rattle.std.specs.List.{AllByRecursion};
ghost use Rattle.script_text.specs.Fits.{IsCommand};
ghost use Rattle.script_text.specs.Commands.{leaf_count};
ghost use Rattle.player.specs.Crew.{is_set};
ghost use Rattle.bursts.specs.Needs.{ArePlans, AreSpare, IsPlanOf, needs_at};

use crate::plan::{LanePlan, Needs};
use berth_face::Berth;
use player::Crew;
use script_text::Commands;
use std::alloc::{AllocError, Global};
use std::collections::VecDeque;

/// The plan of each lane. Err if memory runs out.
pub fn plan_all<'t, B: Berth>(
    alloc: Global,
    crew: &Crew<'t, B>,
    lanes: Vec<Commands>,
) -> Result<Vec<LanePlan>, AllocError>
    requires { AllByRecursion (AllByRecursion (IsCommand (leaf_count crew.now.fleet) crew.now.fleet.names))
        lanes.items }
    ensures { IfOk result (λ plans. ArePlans crew.now.fleet lanes.items plans.items) }
{
    let mut plans = Vec::new(alloc);
    let mut rest = VecDeque::from_vec(lanes);
    while let Some(lane) = rest.pop_front() {
        plans.push(plan(alloc, crew, lane)?)?;
    }
    Ok(plans)
}

fn plan<'t, B: Berth>(
    alloc: Global,
    crew: &Crew<'t, B>,
    lane: Commands,
) -> Result<LanePlan, AllocError>
    requires { AllByRecursion (IsCommand (leaf_count crew.now.fleet) crew.now.fleet.names) lane }
    ensures { IfOk result (λ made. IsPlanOf crew.now.fleet lane made) }
{
    let commands = lane.into_inner();
    let needs = Needs::of(alloc, crew, commands.as_slice())?;
    Ok(LanePlan { commands, needs })
}

/// Whether each callers' seat has an id for each lane that needs its table, and one more.
pub fn are_spare<'t, B: Berth>(crew: &Crew<'t, B>, plans: &[LanePlan]) -> bool
    ensures { IsTrue result → AreSpare crew.now.fleet crew.now.holds plans.now }
{
    for table in 0..crew.table_count() {
        if crew.spare(table) <= lanes_at(plans, table) {
            return false;
        }
    }
    true
}

// The number of lanes that need that table.
fn lanes_at(plans: &[LanePlan], table: u32) -> u64
    ensures { result ≡ count_by (needs_at table) plans.now }
{
    plans.iter().filter(|plan| plan.needs_table(table)).count() as u64
}

impl LanePlan {
    fn needs_table(&self, table: u32) -> bool
        ensures { result ≡ is_set self.now.needs.tables.items table }
    {
        self.needs
            .tables
            .get(table as usize)
            .copied()
            .unwrap_or(false)
    }
}
