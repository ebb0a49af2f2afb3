// A table of two leaves, opened and then asked at once.
ghost use Rattle.std.specs.Prelude.{◌≡◌, ◌<◌, IfOk, Some, length, slice_get};
ghost use Rattle.std.specs.List.{AllByRecursion};
ghost use Rattle.leaf_table.specs.Calls.{SeatView};
ghost use Rattle.leaf_table.specs.Fleet.{IsShortName};
ghost use Rattle.aggregator.specs.Asks.{AreSeatsAt};
ghost use Rattle.turns_tests.specs.Stewards.{AreStewardsAt, IsStewardAt};

use crate::rows::count_all;
use crate::turns::open;
use aggregator::{Fanned, Named, ask_all};
use berth_face::Gate;
use berth_mem::MemBerth;
use leaf_model::{Names, Text};
use leaf_table::{FleetTables, Seat, StewardSeats};
use std::alloc::{AllocError, Global};
use std::marker::Brand;
use std::sync::Wait;
use std::sync::atomic::{AtomicU64, Ordering};
use std::test::*;
use std::thread::{Threads, yield_now};

/// The number of looks for the other caller before a caller gives up: some seconds.
const LOOKS: u64 = 4_000_000;

/// A gate that holds a caller inside a turn of leaf 0 until another is inside one of leaf 1, and the other way round.
#[derive(Drop)]
struct BothInside {
    inside: [AtomicU64; 2],
    alone: AtomicU64,
}

impl BothInside {
    fn new() -> BothInside {
        BothInside {
            inside: [AtomicU64::new(0), AtomicU64::new(0)],
            alone: AtomicU64::new(0),
        }
    }

    /// Whether some caller gave up.
    fn was_alone(&self) -> bool {
        self.alone.load(Ordering::SeqCst) != 0
    }

    fn hold(&self, here: &AtomicU64, there: &AtomicU64) {
        here.store(1, Ordering::SeqCst);
        for _ in 0..LOOKS {
            if there.load(Ordering::SeqCst) != 0 {
                return;
            }
            yield_now();
        }
        self.alone.store(1, Ordering::SeqCst);
    }
}

impl Gate for BothInside {
    fn pass(&self, _lane: u32, _step: u32) {}

    fn within(&self, leaf: u32, _table: u32) {
        match leaf {
            0 => self.hold(&self.inside[0], &self.inside[1]),
            1 => self.hold(&self.inside[1], &self.inside[0]),
            _ => {}
        }
    }
}

/// One name: t.
fn one_name(alloc: Global) -> Result<Names, AllocError>
    ensures { IfOk result (λ names. (length names ≡ 1) × AllByRecursion IsShortName names) }
{
    let mut names = Vec::new(alloc);
    names.push(Text::of(String::from_str(alloc, "t")?))?;
    Ok(Names::of(names))
}

/// The one table of two new leaves, the stewards' seats, and a caller's seat at each.
fn two_leaves(alloc: Global) -> Result<(FleetTables, StewardSeats, Vec<Seat>), AllocError>
    ensures stewards { IfOk result (λ r. AreStewardsAt r.0 r.1) }
    ensures callers { IfOk result (λ r. AreSeatsAt r.0 0 r.2.items) }
{
    let names = one_name(alloc)?;
    let (fleet, stewards, callers) = FleetTables::new::<Brand>(alloc, 2, &names, 1)?;
    let mut rows = callers.into_inner();
    Ok((fleet, stewards, rows.swap_remove(0)))
}

/// Opens the first table of a leaf, empty. Gives the number of that entry.
fn open_leaf<R: Threads + Wait + Sync>(
    rt: &R,
    alloc: Global,
    fleet: &FleetTables,
    leaf: u32,
    steward: &mut Seat,
) -> Option<u64>
    requires leaf { leaf < length fleet.now }
    requires steward { IsStewardAt fleet.now leaf steward.old }
{
    let berth = MemBerth::new(Vec::new(alloc), Vec::new(alloc));
    let tables = fleet.leaf(leaf);
    open(rt, alloc, &tables[0], steward, &berth)
}

/// Opens the first table of a leaf by the first of these seats.
fn open_first<R: Threads + Wait + Sync>(
    rt: &R,
    alloc: Global,
    fleet: &FleetTables,
    leaf: u32,
    seats: &mut [Seat],
) -> Option<u64>
    requires leaf { leaf < length fleet.now }
    requires steward { (v : SeatView) → slice_get seats.old 0 ≡ Some v → IsStewardAt fleet.now leaf v }
{
    match seats {
        [steward, ..] => open_leaf(rt, alloc, fleet, leaf, steward),
        [] => None,
    }
}

/// Opens the first tables of two leaves, empty. Gives the numbers of both entries.
fn open_both<R: Threads + Wait + Sync>(
    rt: &R,
    alloc: Global,
    fleet: &FleetTables,
    stewards: StewardSeats,
) -> [Option<u64>; 2]
    requires { AreStewardsAt fleet.now stewards }
{
    let mut rows = stewards.into_inner();
    match rows.as_mut_slice() {
        [first, second] => [
            open_first(rt, alloc, fleet, 0, first.as_mut_slice()),
            open_first(rt, alloc, fleet, 1, second.as_mut_slice()),
        ],
        _ => [None, None],
    }
}

/// Asks both leaves, whose first entries opened their tables.
fn ask_both<R: Threads + Wait + Sync>(
    rt: &R,
    alloc: Global,
    gate: &BothInside,
) -> Result<Option<Fanned>, AllocError> {
    let query = count_all(alloc)?;
    let (fleet, stewards, mut seats) = two_leaves(alloc)?;
    if open_both(rt, alloc, &fleet, stewards) != [Some(1), Some(1)] {
        return Ok(None);
    }
    let fanned = ask_all(rt, alloc, &fleet, 0, seats.as_mut_slice(), &query, gate)?;
    Ok(Some(fanned))
}

#[test]
fn two_leaves_are_inside_their_turns_at_once(rt: HostRuntime) -> Result<(), Fail> {
    let gate = BothInside::new();
    let Some(fanned) = ask_both(&rt, rt.alloc(), &gate)? else {
        panic!(rt; "a table that was not opened first");
    };
    let both = [Named { leaf: 0, number: 2 }, Named { leaf: 1, number: 2 }];
    assert!(rt; fanned.named.as_slice() == both.as_slice());
    assert_eq!(rt; fanned.shut.as_slice().len(), 0);
    assert_eq!(rt; fanned.groups.as_slice().len(), 0);
    assert!(rt; !gate.was_alone());
    Ok(())
}
