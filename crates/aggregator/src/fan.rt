// Asks one table of each leaf.
ghost use Rattle.std.specs.Prelude.{◌≡◌, ◌⊎◌, ℕ, List, length, IfOk, IsErr};
ghost use Rattle.leaf_model.specs.Groups.{groups};
ghost use Rattle.leaf_history.specs.History.{Entry};
ghost use Rattle.aggregator.specs.Asks.{AreSeatsAt, AllAsked, Asked};
ghost use Rattle.aggregator.specs.Halves.{MayAsk};
ghost use Rattle.aggregator.specs.Sorts.{Divides};
ghost use Rattle.aggregator.specs.Partial.{bases_in, partial, SeatsGoOn};

use crate::asking::{Question, ask_each};
use crate::fanned::Fanned;
use crate::sorting::sort_all;
use berth_face::Gate;
use leaf_model::Query;
use leaf_table::{FleetTables, LentQuery, Reply, Seat};
use std::alloc::{AllocError, Global};
use std::sync::Wait;
use std::thread::Threads;

/// Asks the table with this index at each leaf, by the seat there, in threads if these can be started. Err if memory
/// runs out: either no leaf was asked, or all were and their entries stay.
pub fn ask_all<R: Threads + Wait + Sync, G: Gate>(
    rt: &R,
    alloc: Global,
    fleet: &FleetTables,
    table: u32,
    seats: &mut [Seat],
    query: &Query,
    gate: &G,
) -> Result<Fanned, AllocError>
    requires seats { AreSeatsAt fleet.now table seats.old }
    // Either no leaf was asked, or all were, and each leaf is in the list of its reply.
    ensures asked { (IsErr result × (seats.new ≡ seats.old))
        ⊎ AllAsked query.now fleet.now table seats.old seats.new result }
    // Each leaf of the fleet is in exactly one list, and each list ascends.
    ensures divides { IfOk result (Divides (length fleet.now)) }
    // The groups are those of the rows of exactly the named leaves, each as before its entry, however the histories go
    // on.
    ensures groups { (histories : ℕ → List Entry) → SeatsGoOn seats.new histories
        → IfOk result (λ f. f.groups ≡ groups query.now (partial (bases_in fleet.now table) histories f.named)) }
{
    let mut replies = unasked(alloc, seats.len())?;
    ask_by_copy(rt, alloc, fleet, table, seats, query, gate, &mut replies);
    sort_all(alloc, replies)
}

// Asks each leaf. The query is copied once, for all of them.
fn ask_by_copy<R: Threads + Wait + Sync, G: Gate>(
    rt: &R,
    alloc: Global,
    fleet: &FleetTables,
    table: u32,
    seats: &mut [Seat],
    query: &Query,
    gate: &G,
    replies: &mut [Reply],
)
    requires { MayAsk fleet.now table 0 seats.old replies.old }
    ensures { Asked query.now fleet.now table 0 seats.old replies.new seats.new }
{
    let lent = LentQuery::of(alloc, query);
    let question = Question {
        query: &lent,
        fleet,
        table,
    };
    ask_each(rt, gate, &question, 0, seats, replies);
}

// A list with a place for each of `count` replies.
fn unasked(alloc: Global, count: usize) -> Result<Vec<Reply>, AllocError>
    ensures { IfOk result (λ replies. length replies.items ≡ count) }
{
    let mut replies = Vec::with_capacity(alloc, count)?;
    for made in 0..count {
        replies.push(Reply::Worn)?;
    }
    Ok(replies)
}
