// Asks leaves in threads, by halves.
ghost use Rattle.std.specs.Prelude.{◌≡◌, ◌+◌, ◌<◌, ◌≤◌, length};
ghost use Rattle.std.specs.Thread.{IsSync};
ghost use Rattle.aggregator.specs.Asks.{IsSeatAt, IsAsked, Asked};
ghost use Rattle.aggregator.specs.Halves.{MayAsk};

use berth_face::Gate;
use leaf_table::{FleetTables, LentQuery, Reply, Seat};
use std::sync::Wait;
use std::thread::{Threads, join_mut};

/// Leaves with fewer rows are asked by the thread that asks the others. To start a thread costs as much as to read some
/// thousand rows.
const FEW_ROWS: u64 = 16_384;

/// The query, and the table that is asked at each leaf.
#[derive(Clone, Copy)]
pub struct Question<'q> {
    pub query: &'q LentQuery<'q>,
    pub fleet: &'q FleetTables,
    pub table: u32,
}

/// Asks as many leaves from `first` on as there are seats: two or more by at least two threads, if these can be
/// started, and leaves with many rows in threads of their own.
#[cycle(halves)]
pub fn ask_each<'q, R: Threads + Wait + Sync, G: Gate>(
    rt: &R,
    gate: &G,
    question: &Question<'q>,
    first: u32,
    seats: &mut [Seat],
    replies: &mut [Reply],
)
    requires { MayAsk question.now.fleet.now question.now.table first seats.old replies.old }
    ensures { Asked question.now.query.now question.now.fleet.now question.now.table first seats.old replies.new
        seats.new }
{
    if seats.len() < 2 {
        ask_first(rt, gate, question, first, seats, replies);
        return;
    }
    let mid = seats.len() / 2;
    let (low, high) = seats.split_at_mut(mid);
    let (front, back) = replies.split_at_mut(mid);
    ask_both(rt, gate, question, first, low, front, high, back);
}

// Asks both halves: at the same time if they are all leaves, or if both have many rows. The leaves of `high` follow
// those of `low`.
#[cycle(halves)]
fn ask_both<'q, R: Threads + Wait + Sync, G: Gate>(
    rt: &R,
    gate: &G,
    question: &Question<'q>,
    first: u32,
    low: &mut [Seat],
    front: &mut [Reply],
    high: &mut [Seat],
    back: &mut [Reply],
)
    requires some { (0 < length low.old) × (0 < length high.old) }
    requires low { MayAsk question.now.fleet.now question.now.table first low.old front.old }
    requires high { MayAsk question.now.fleet.now question.now.table (first + length low.old) high.old back.old }
    ensures low { Asked question.now.query.now question.now.fleet.now question.now.table first low.old front.new
        low.new }
    ensures high { Asked question.now.query.now question.now.fleet.now question.now.table (first + length low.old)
        high.old back.new high.new }
{
    let next = first + low.len() as u32;
    if is_part(question, low.len(), high.len())
        && (has_few(question, first, low.len()) || has_few(question, next, high.len()))
    {
        ask_each(rt, gate, question, first, low, front);
        ask_each(rt, gate, question, next, high, back);
        return;
    }
    let mut one = ||
        requires { IsSync R.row × IsSync G.row × (0 < length low.now)
            × MayAsk question.now.fleet.now question.now.table first low.now front.now }
        ensures { Asked question.entry.now.query.now question.entry.now.fleet.now question.entry.now.table first
            low.entry.now front.exit.now low.exit.now }
    { ask_each(rt, gate, question, first, low, front) };
    let mut other = ||
        requires { IsSync R.row × IsSync G.row × (0 < length high.now)
            × MayAsk question.now.fleet.now question.now.table next high.now back.now }
        ensures { Asked question.entry.now.query.now question.entry.now.fleet.now question.entry.now.table next
            high.entry.now back.exit.now high.exit.now }
    { ask_each(rt, gate, question, next, high, back) };
    join_mut(rt, &mut one, &mut other);
}

// Whether these halves are fewer than all leaves. All leaves are asked by two threads at least, so that one leaf that
// is slow to answer does not delay all others.
fn is_part(question: &Question<'_>, low: usize, high: usize) -> bool {
    low.saturating_add(high) < question.fleet.count()
}

// Whether `count` leaves from `first` on have few rows together.
fn has_few(question: &Question<'_>, first: u32, count: usize) -> bool {
    question.fleet.weight(question.table, first, count) < FEW_ROWS
}

// Asks the first leaf, if there is a seat at it.
fn ask_first<'q, R: Wait + Threads + Sync, G: Gate>(
    rt: &R,
    gate: &G,
    question: &Question<'q>,
    first: u32,
    seats: &mut [Seat],
    replies: &mut [Reply],
)
    requires may { MayAsk question.now.fleet.now question.now.table first seats.old replies.old }
    requires one { length seats.old < 2 }
    ensures { Asked question.now.query.now question.now.fleet.now question.now.table first seats.old replies.new
        seats.new }
{
    if !seats.is_empty() {
        replies[0] = ask_leaf(rt, gate, question, first, &mut seats[0]);
    }
}

// Asks one leaf.
fn ask_leaf<'q, R: Wait + Threads + Sync, G: Gate>(
    rt: &R,
    gate: &G,
    question: &Question<'q>,
    leaf: u32,
    seat: &mut Seat,
) -> Reply
    requires { IsSeatAt question.now.fleet.now question.now.table leaf seat.old }
    ensures { IsAsked question.now.query.now question.now.fleet.now question.now.table leaf seat.old result seat.new }
{
    let tables = question.fleet.leaf(leaf);
    let table = question.table as usize;
    tables[table].ask_lent(rt, seat, question.query, gate)
}
