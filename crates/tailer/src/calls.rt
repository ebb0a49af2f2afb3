// The calls of a try, each by the seat of its leaf.
ghost use Rattle.std.specs.Prelude.{◌≡◌, ◌<◌, ◌==◌, length, not, is_some, IfSome};
ghost use Rattle.std.specs.List.{AllByRecursion};
ghost use Rattle.row_model.specs.Values.{IsRow};
ghost use Rattle.leaf_history.specs.Calls as call;
ghost use Rattle.aggregator.specs.Asks.{AreSeatsAt};
ghost use Rattle.tail_picks.specs.Room.{every_row};
ghost use Rattle.tailer.specs.Calls.{CallAt, CallsOn, adding, asking, asking_also};

use berth_face::Gate;
use leaf_model::{Query, Rows};
use leaf_table::{FleetTables, Reply, Seat};
use std::sync::Wait;
use std::thread::Threads;

/// The query and the rows of a tail, and the table that it asks at each leaf.
#[derive(Clone, Copy)]
pub(crate) struct Tail<'t> {
    pub(crate) fleet: &'t FleetTables,
    pub(crate) table: u32,
    pub(crate) query: &'t Query,
    pub(crate) rows: &'t Rows,
}

/// Asks a leaf for the number of its rows.
pub(crate) fn ask_at<'t, R: Wait + Threads + Sync, G: Gate>(
    rt: &R,
    gate: &G,
    tail: &Tail<'t>,
    leaf: u32,
    seats: &mut [Seat],
) -> Reply
    requires seats { AreSeatsAt tail.now.fleet.now tail.now.table seats.old }
    requires leaf { leaf < length tail.now.fleet.now }
    requires query { tail.now.query.now ≡ every_row }
    ensures call { CallAt tail.now.fleet.now tail.now.table seats.old (asking leaf result) seats.new }
    ensures seats { AreSeatsAt tail.now.fleet.now tail.now.table seats.new }
{
    let tables = tail.fleet.leaf(leaf);
    let shared = &tables[tail.table as usize];
    let seat = &mut seats[leaf as usize];
    shared.ask(rt, seat, tail.query, gate)
}

/// Asks the second leaf of a try, if it is another than the first.
pub(crate) fn ask_other<'t, R: Wait + Threads + Sync, G: Gate>(
    rt: &R,
    gate: &G,
    tail: &Tail<'t>,
    first: u32,
    second: u32,
    seats: &mut [Seat],
) -> Option<Reply>
    requires seats { AreSeatsAt tail.now.fleet.now tail.now.table seats.old }
    requires leaf { second < length tail.now.fleet.now }
    requires query { tail.now.query.now ≡ every_row }
    ensures other { is_some result ≡ not (first == second) }
    ensures calls { CallsOn tail.now.fleet.now tail.now.table seats.old (asking_also second result) seats.new }
    ensures seats { AreSeatsAt tail.now.fleet.now tail.now.table seats.new }
{
    if first == second {
        return None;
    }
    Some(ask_at(rt, gate, tail, second, seats))
}

/// Adds a copy of the rows to the picked leaf, if there is one.
pub(crate) fn add_to_picked<'t, R: Wait + Threads + Sync, G: Gate>(
    rt: &R,
    gate: &G,
    tail: &Tail<'t>,
    picked: Option<u32>,
    seats: &mut [Seat],
) -> Option<Reply>
    requires seats { AreSeatsAt tail.now.fleet.now tail.now.table seats.old }
    requires leaf { IfSome picked (λ leaf. leaf < length tail.now.fleet.now) }
    requires rows { AllByRecursion IsRow tail.now.rows.now }
    ensures add { is_some result ≡ is_some picked }
    ensures calls { CallsOn tail.now.fleet.now tail.now.table seats.old
        (adding tail.now.rows.now picked result) seats.new }
    ensures seats { AreSeatsAt tail.now.fleet.now tail.now.table seats.new }
{
    match picked {
        Some(leaf) => Some(add_at(rt, gate, tail, leaf, seats)),
        None => None,
    }
}

// Adds a copy of the rows to a leaf.
fn add_at<'t, R: Wait + Threads + Sync, G: Gate>(
    rt: &R,
    gate: &G,
    tail: &Tail<'t>,
    leaf: u32,
    seats: &mut [Seat],
) -> Reply
    requires seats { AreSeatsAt tail.now.fleet.now tail.now.table seats.old }
    requires leaf { leaf < length tail.now.fleet.now }
    requires rows { AllByRecursion IsRow tail.now.rows.now }
    ensures call { CallAt tail.now.fleet.now tail.now.table seats.old
        (record { leaf = leaf; call = call.Add tail.now.rows.now; reply = result }) seats.new }
    ensures seats { AreSeatsAt tail.now.fleet.now tail.now.table seats.new }
{
    let tables = tail.fleet.leaf(leaf);
    let shared = &tables[tail.table as usize];
    let seat = &mut seats[leaf as usize];
    shared.add_copy(rt, seat, tail.rows, gate)
}
