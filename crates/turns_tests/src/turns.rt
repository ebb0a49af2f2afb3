// One table: the turns of a caller and of the steward in order, and the adds of two callers in threads.
ghost use Rattle.std.specs.Prelude.{◌≡◌, ◌+◌, ◌<◌, ◌≤◌, None, IfOk, IfSome};
ghost use Rattle.std.specs.List.{AllByRecursion};
ghost use Rattle.std.specs.Thread.{IsSync};
ghost use Rattle.row_model.specs.Values.{IsRow};
ghost use Rattle.turnstile.specs.Seats.{IsSeatOf};
ghost use Rattle.leaf_table.specs.Calls.{base_seen, IsCaller, IsSteward, SeesOpen, SeesShut};

use crate::rows::{count_all, one_row};
use berth_face::OpenGate;
use berth_mem::MemBerth;
use leaf_model::{Rows, Text};
use leaf_table::{Reply, Seat, SharedTable, Taken};
use std::alloc::{AllocError, Global};
use std::marker::Brand;
use std::sync::Wait;
use std::test::Fail;
use std::thread::{Threads, join_mut};
use table_state::TableState;

/// A table of leaf 0, the steward's seat, and a caller's with two ids.
fn new_table(alloc: Global) -> Result<(SharedTable, Seat, Seat), AllocError>
    ensures base { IfOk result (λ t. base_seen t.0 ≡ None) }
    ensures seats { IfOk result (λ t. IsSeatOf t.1 t.0.site × IsSeatOf t.2 t.0.site) }
    ensures steward { IfOk result (λ t. (t.1.id ≡ 0) × (t.1.share ≡ 1) × (t.1.room ≡ 1024)) }
    ensures caller { IfOk result (λ t. (t.2.id ≡ 1) × (t.2.share ≡ 2)) }
    ensures shut { IfOk result (λ t. SeesShut t.0 t.1) }
{
    let name = Text::of(String::from_str(alloc, "t")?);
    SharedTable::new::<Brand>(alloc, 0, 0, &name, 2)
}

/// Opens a table, empty. Gives the number of that entry.
#[tactic(auto, using(crate::proofs::NewSeats::may_open))]
pub fn open<R: Wait + Threads + Sync>(
    rt: &R,
    alloc: Global,
    table: &SharedTable,
    steward: &mut Seat,
    berth: &MemBerth,
) -> Option<u64>
    requires seat { IsSeatOf steward.old table.now.site }
    requires steward { IsSteward steward.old }
    requires shut { SeesShut table.now steward.old }
    requires base { base_seen table.now ≡ None }
    ensures seat { IsSeatOf steward.new table.now.site }
    ensures id { steward.new.id ≡ steward.old.id }
    ensures room { (steward.new.share ≡ steward.old.share) × (steward.old.room ≤ steward.new.room + 1) }
    ensures open { IfSome result (λ _. SeesOpen table.now steward.new) }
{
    match table.reopen(rt, steward, TableState::new(alloc), 0, berth, &OpenGate) {
        Ok(number) => Some(number),
        Err(_table) => None,
    }
}

/// Takes the writes of an open table, and notes that the disk holds them. Gives their number, and the numbers of both
/// entries.
fn take_and_flush<R: Wait + Threads + Sync>(
    rt: &R,
    table: &SharedTable,
    steward: &mut Seat,
    berth: &MemBerth,
) -> Option<(u64, u64, u64)>
    requires seat { IsSeatOf steward.old table.now.site }
    requires steward { (steward.old.id ≡ 0) × (steward.old.share + 1 ≤ steward.old.room) }
    requires open { SeesOpen table.now steward.old }
    ensures seat { IsSeatOf steward.new table.now.site }
    ensures id { steward.new.id ≡ steward.old.id }
    ensures room { (steward.new.share ≡ steward.old.share) × (steward.old.room ≤ steward.new.room + 2) }
    ensures open { SeesOpen table.now steward.new }
{
    match table.take(rt, steward, berth, &OpenGate) {
        Taken::Took { number, writes, .. } => {
            let noted = table.flushed(rt, steward, writes, berth, &OpenGate);
            Some((writes, number, noted))
        }
        Taken::Worn => None,
    }
}

/// Shuts an open table. Gives its number of writes, and the number of that entry.
fn shut<R: Wait + Threads + Sync>(
    rt: &R,
    table: &SharedTable,
    steward: &mut Seat,
    berth: &MemBerth,
) -> (u64, u64)
    requires seat { IsSeatOf steward.old table.now.site }
    requires steward { IsSteward steward.old }
    requires open { SeesOpen table.now steward.old }
    ensures seat { IsSeatOf steward.new table.now.site }
    ensures id { steward.new.id ≡ steward.old.id }
    ensures room { (steward.new.share ≡ steward.old.share) × (steward.old.room ≤ steward.new.room + 1) }
    ensures shut { SeesShut table.now steward.new }
{
    let closed = table.shut(rt, steward, berth, &OpenGate);
    (closed.writes, closed.number)
}

#[test]
fn each_turn_has_the_next_number_and_its_answer(rt: HostRuntime) -> Result<(), Fail> {
    let alloc = rt.alloc();
    let query = count_all(alloc)?;
    let berth = MemBerth::new(Vec::new(alloc), Vec::new(alloc));
    let (table, mut steward, mut caller) = new_table(alloc)?;
    let asked = table.ask(&rt, &mut caller, &query, &OpenGate);
    assert!(rt; matches!(asked, Reply::Shut { number: 1 }));
    let Some(opened) = open(&rt, alloc, &table, &mut steward, &berth) else {
        panic!(rt; "a worn seat");
    };
    assert_eq!(rt; opened, 2);
    let added = table.add(&rt, &mut caller, one_row(alloc)?, &OpenGate);
    assert!(rt;
        matches!(
            added,
            Reply::Added {
                number: 3,
                kept: 1,
                late: 0
            }
        )
    );
    let flushed = take_and_flush(&rt, &table, &mut steward, &berth);
    assert_eq!(rt; flushed, Some((1, 4, 5)));
    assert_eq!(rt; shut(&rt, &table, &mut steward, &berth), (1, 6));
    let refused = table.add(&rt, &mut caller, one_row(alloc)?, &OpenGate);
    assert!(rt; matches!(refused, Reply::Shut { number: 7 }));
    assert_eq!(rt; table.done(&rt, &mut steward, &berth, &OpenGate), 8);
    table.meet(&mut caller, &mut steward)?;
    assert_eq!(rt; (caller.seen(), steward.seen()), (8, 8));
    Ok(())
}

#[test]
fn a_split_seat_gives_its_last_ids_away(rt: HostRuntime) -> Result<(), Fail> {
    let (table, steward, mut caller) = new_table(rt.alloc())?;
    assert_eq!(rt; table.name().as_str(), "t");
    assert_eq!(rt; (steward.id(), caller.id()), (0, 1));
    let other = table.split(&mut caller, 1)?;
    assert_eq!(rt; (caller.id(), other.id()), (1, 2));
    assert_eq!(rt; (caller.share(), other.share()), (1, 1));
    Ok(())
}

/// Adds a copy of rows. Gives the number of that entry, if they were added.
fn add<R: Wait + Threads + Sync>(
    rt: &R,
    table: &SharedTable,
    seat: &mut Seat,
    rows: &Rows,
) -> Option<u64>
    requires seat { IsSeatOf seat.old table.now.site }
    requires caller { IsCaller seat.old }
    requires rows { AllByRecursion IsRow rows.now }
    ensures seat { IsSeatOf seat.new table.now.site }
    ensures caller { IsCaller seat.new }
{
    match table.add_copy(rt, seat, rows, &OpenGate) {
        Reply::Added { number, .. } => Some(number),
        _ => None,
    }
}

/// Adds copies of rows in two threads.
fn add_at_once<R: Wait + Threads + Sync>(
    rt: &R,
    table: &SharedTable,
    rows: &Rows,
    one: &mut Seat,
    other: &mut Seat,
) -> (Option<u64>, Option<u64>)
    requires seats { IsSeatOf one.old table.now.site × IsSeatOf other.old table.now.site }
    requires callers { IsCaller one.old × IsCaller other.old }
    requires rows { AllByRecursion IsRow rows.now }
    ensures seats { IsSeatOf one.new table.now.site × IsSeatOf other.new table.now.site }
    ensures callers { IsCaller one.new × IsCaller other.new }
{
    let mut here = || -> Option<u64>
        requires { IsSync R.row × IsSeatOf one.now table.now.site × IsCaller one.now × AllByRecursion IsRow rows.now }
        ensures { IsSeatOf one.exit.now table.entry.now.site × IsCaller one.exit.now }
    { add(rt, table, one, rows) };
    let mut there = || -> Option<u64>
        requires { IsSync R.row × IsSeatOf other.now table.now.site × IsCaller other.now
            × AllByRecursion IsRow rows.now }
        ensures { IsSeatOf other.exit.now table.entry.now.site × IsCaller other.exit.now }
    { add(rt, table, other, rows) };
    join_mut(rt, &mut here, &mut there)
}

/// Splits a seat with two ids, and adds a row by each in a thread of its own. The seats are joined again.
fn split_and_add<R: Wait + Threads + Sync>(
    rt: &R,
    table: &SharedTable,
    rows: &Rows,
    seat: &mut Seat,
) -> Result<(Option<u64>, Option<u64>), AllocError>
    requires seat { IsSeatOf seat.old table.now.site }
    requires caller { IsCaller seat.old }
    requires share { seat.old.share ≡ 2 }
    requires rows { AllByRecursion IsRow rows.now }
    ensures seat { IsSeatOf seat.new table.now.site }
    ensures caller { IsCaller seat.new }
{
    let mut other = table.split(seat, 1)?;
    let numbers = add_at_once(rt, table, rows, seat, &mut other);
    table.join(seat, other);
    Ok(numbers)
}

/// The number of rows in the groups of a reply.
fn rows_in(reply: &Reply) -> Option<u64> {
    match reply {
        Reply::Groups { groups, .. } => groups.as_slice().first().map(|group| group.count),
        _ => None,
    }
}

#[test]
fn two_threads_add_by_the_halves_of_a_seat(rt: HostRuntime) -> Result<(), Fail> {
    let alloc = rt.alloc();
    let query = count_all(alloc)?;
    let rows = one_row(alloc)?;
    let berth = MemBerth::new(Vec::new(alloc), Vec::new(alloc));
    let (table, mut steward, mut caller) = new_table(alloc)?;
    assert_eq!(rt; open(&rt, alloc, &table, &mut steward, &berth), Some(1));
    let (one, other) = split_and_add(&rt, &table, &rows, &mut caller)?;
    assert!(rt; one.is_some() && other.is_some() && one != other);
    let asked = table.ask(&rt, &mut caller, &query, &OpenGate);
    assert_eq!(rt; rows_in(&asked), Some(2));
    Ok(())
}
