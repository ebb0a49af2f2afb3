// The waves of a rollover.
ghost use Rattle.std.specs.Prelude.{◌≡◌, ◌+◌, ◌*◌, ◌/◌, ◌%◌, ◌<◌, ◌≤◌, length, IfOk};
ghost use Rattle.rollover_plan.specs.Plan.{share, by_place, IsCutInWaves, IsPlan, IsFewest, RollsEachOnce};

use crate::wave::{Wave, Waves};
use std::alloc::{AllocError, Global};

/// The most leaves that a wave may have.
fn share(machines: u32, per_machine: u32, percent: u32) -> u32
    requires leaves { machines * per_machine ≤ 256 }
    requires high { percent ≤ 100 }
    ensures { result ≡ share machines per_machine percent }
{
    (machines * per_machine * percent / 100)
        .max(1)
        .min(machines)
}

/// The leaf of a turn. Turns go round the machines: first the leaf at place 0 of each, then that at place 1.
fn leaf_at(machines: u32, per_machine: u32, turn: u32) -> u32
    requires leaves { machines * per_machine ≤ 256 }
    requires turn { turn < machines * per_machine }
    ensures { result ≡ turn % machines * per_machine + turn / machines }
{
    turn % machines * per_machine + turn / machines
}

/// The leaves in the order of their place on the machine, then of the machine.
fn by_place(alloc: Global, machines: u32, per_machine: u32) -> Result<Vec<u32>, AllocError>
    requires some { 0 < machines }
    requires leaves { machines * per_machine ≤ 256 }
    ensures { IfOk result (λ leaves. leaves.items ≡ by_place machines per_machine) }
{
    let mut leaves = Vec::new(alloc);
    for turn in 0..machines * per_machine {
        leaves.push(leaf_at(machines, per_machine, turn))?;
    }
    Ok(leaves)
}

/// The leaves cut into waves of `share` leaves; the last may have fewer.
#[tactic(auto, using(crate::proofs::Cuts::cutting_begins, crate::proofs::Cuts::cutting_goes_on, crate::proofs::Cuts::cutting_ends))]
fn cut(alloc: Global, leaves: &[u32], share: u32) -> Result<Vec<Wave>, AllocError>
    requires { 0 < share }
    ensures { IfOk result (λ waves. IsCutInWaves share leaves.now waves.items) }
{
    let mut waves = Vec::new(alloc);
    for run in leaves.chunks(share as usize) {
        waves.push(Wave::of(run.to_vec(alloc)?))?;
    }
    Ok(waves)
}

/// The waves of a rollover over `machines` machines with `per_machine` leaves each. A wave takes at most one leaf of
/// each machine, and at most `percent` percent of all leaves, but at least one. The number of waves is the least that
/// these rules allow. Err if memory runs out.
pub fn waves(
    alloc: Global,
    machines: u32,
    per_machine: u32,
    percent: u32,
) -> Result<Waves, AllocError>
    requires machines { 0 < machines }
    requires per_machine { 0 < per_machine }
    requires leaves { machines * per_machine ≤ 256 }
    requires low { 0 < percent }
    requires high { percent ≤ 100 }
    ensures plan { IfOk result (λ waves. IsPlan machines per_machine percent waves) }
    ensures each_once { IfOk result (λ waves. RollsEachOnce machines per_machine percent waves) }
    ensures fewest { IfOk result (λ waves. IsFewest (machines * per_machine) (share machines per_machine percent)
        waves) }
    ensures count { IfOk result (λ waves. length waves ≤ machines * per_machine) }
{
    let leaves = by_place(alloc, machines, per_machine)?;
    let waves = cut(alloc, &leaves, share(machines, per_machine, percent))?;
    Ok(Waves::of(waves))
}
