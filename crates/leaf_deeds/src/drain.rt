// A drain of a leaf, step by step.
ghost use Rattle.std.specs.Prelude.{◌≡◌, []};
ghost use Rattle.berth_face.specs.Berth.{Passes};
ghost use Rattle.leaf_moves.specs.Stage.{IsPreparing};
ghost use Rattle.leaf_deeds.specs.Held.{KeepsSeats, berth_of, seats_of, leaf_state};
ghost use Rattle.leaf_deeds.specs.Moves.{CopyDone, Drains, FaultRose, ShutEnds, ShuttingIsKilled, end_of};

use crate::leaf::OneLeaf;
use crate::steps::StepsAllowed;
use berth_face::{Berth, Gate};
use leaf_machine::{Copied, Copying, Down, Notes, PrepareFault, Prepared, Preparing};
use printed_lines::Ending;
use std::alloc::Global;
use std::sync::Wait;
use std::thread::Threads;

/// The end of a loop over the steps that shut the tables.
#[derive(Drop)]
pub enum Shut<'t, B: Berth> {
    /// All tables are treated, and their copy is planned.
    Ready(Copying<'t, B>),
    /// The allowed steps were used up.
    Stopped(Preparing<'t, B>),
    /// The disk failed.
    Halted(Preparing<'t, B>),
    /// Memory ran out, to seal a table or to plan the copy.
    Starved(Preparing<'t, B>),
    /// The tables make no image.
    Roomless(Preparing<'t, B>),
}

/// Treats the tables that are left, and copies all into the region. If the steps run out first, it kills the leaf.
pub fn drain<'t, R: Wait + Threads + Sync, B: Berth, G: Gate>(
    rt: &R,
    alloc: Global,
    gate: &G,
    leaf: Preparing<'t, B>,
    stop: Option<u32>,
    notes: &mut Notes,
) -> (OneLeaf<'t, B>, Ending)
    requires none { notes.old ≡ [] }
    ensures drains { Drains (B.meaning leaf.entry.1) (B.meaning (berth_of result.0)) (IsPreparing leaf.entry.0) stop
        notes.new result.1 (leaf_state result.0) }
    ensures keeps { KeepsSeats leaf.entry.0.serving.seated (seats_of result.0) }
    ensures time { Passes (B.meaning leaf.entry.1) (B.meaning (berth_of result.0)) }
    ensures cause { FaultRose result.1 (B.meaning leaf.entry.1) (B.meaning (berth_of result.0)) }
{
    leaf.shuts();
    let mut steps = StepsAllowed { left: stop };
    let mut last = Notes::new();
    match shut_all(rt, alloc, gate, leaf, &mut steps, notes) {
        Shut::Ready(leaf) => {
            let (down, ending) = copy_all(rt, gate, leaf, &mut steps, &mut last);
            notes.append(&last);
            (OneLeaf::Down(down), ending)
        }
        Shut::Stopped(leaf) => {
            let down = killed(rt, gate, leaf, &mut last);
            notes.append(&last);
            (OneLeaf::Down(down), Ending::Stopped)
        }
        Shut::Halted(leaf) => (OneLeaf::Preparing(leaf), Ending::FaultDisk),
        Shut::Starved(leaf) => (OneLeaf::Preparing(leaf), Ending::FaultMemory),
        Shut::Roomless(leaf) => (OneLeaf::Preparing(leaf), Ending::FaultRoom),
    }
}

/// Treats one table after another, until the copy of all is planned, no step is left, or a step fails.
fn shut_all<'t, R: Wait + Threads + Sync, B: Berth, G: Gate>(
    rt: &R,
    alloc: Global,
    gate: &G,
    leaf: Preparing<'t, B>,
    steps: &mut StepsAllowed,
    notes: &mut Notes,
) -> Shut<'t, B>
    requires none { notes.old ≡ [] }
    ensures { ShutEnds B.meaning leaf.entry.0 (B.meaning leaf.entry.1) steps.old.left notes.new result steps.new.left }
{
    let mut leaf = leaf;
    let mut own = Notes::new();
    loop {
        leaf.shuts();
        if !steps.spend() {
            return Shut::Stopped(leaf);
        }
        let step = leaf.step(rt, alloc, gate, &mut own);
        notes.append(&own);
        match shuts_on(step) {
            Ok(more) => leaf = more,
            Err(shut) => return shut,
        }
    }
}

/// The leaf that shuts on after a step, or else how the loop ends.
fn shuts_on<'t, B: Berth>(
    step: Result<Prepared<'t, B>, (Preparing<'t, B>, PrepareFault)>,
) -> Result<Preparing<'t, B>, Shut<'t, B>>
    ensures { result ≡ end_of step.entry }
{
    match step {
        Ok(Prepared::More(more)) => Ok(more),
        Ok(Prepared::Ready(copying)) => Err(Shut::Ready(copying)),
        Err((left, PrepareFault::DiskFault)) => Err(Shut::Halted(left)),
        Err((left, PrepareFault::NoMemory)) => Err(Shut::Starved(left)),
        Err((left, PrepareFault::NoRoom)) => Err(Shut::Roomless(left)),
    }
}

/// Kills a leaf whose drain is stopped.
fn killed<'t, R: Wait + Threads + Sync, B: Berth, G: Gate>(
    rt: &R,
    gate: &G,
    leaf: Preparing<'t, B>,
    notes: &mut Notes,
) -> Down<'t, B>
    ensures killed { ShuttingIsKilled leaf.entry.0 result.0 notes.new (B.meaning leaf.entry.1) (B.meaning result.1) }
    ensures berth { result.1 ≡ leaf.entry.1 }
{
    leaf.kill(rt, gate, notes)
}

/// Copies the tables, until all are copied, no step is left, or the region fails.
fn copy_all<'t, R: Wait + Threads + Sync, B: Berth, G: Gate>(
    rt: &R,
    gate: &G,
    leaf: Copying<'t, B>,
    steps: &mut StepsAllowed,
    notes: &mut Notes,
) -> (Down<'t, B>, Ending)
    requires none { notes.old ≡ [] }
    ensures { CopyDone leaf.entry.0 steps.old.left (B.meaning leaf.entry.1) (B.meaning result.0.1) notes.new result.1
        result.0.0 }
{
    let mut leaf = leaf;
    loop {
        if !steps.spend() {
            return (leaf.kill(), Ending::Stopped);
        }
        match leaf.step(rt, gate, notes) {
            Ok(Copied::More(more)) => leaf = more,
            Ok(Copied::Finished(down)) => return (down, Ending::Done),
            Err((down, _fault)) => return (down, Ending::FaultRegion),
        }
    }
}
