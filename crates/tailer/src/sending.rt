// A tail, from its first try to its end.
ghost use Rattle.std.specs.Prelude.{◌≡◌, ◌<◌, ℕ, List, length, IfOk, IsErr};
ghost use Rattle.std.specs.List.{AllByRecursion};
ghost use Rattle.rand_core.specs.Steps.{first_words};
ghost use Rattle.rand_pcg.specs.Pcg.{pcg32};
ghost use Rattle.row_model.specs.Values.{IsRow};
ghost use Rattle.leaf_history.specs.History.{Entry};
ghost use Rattle.aggregator.specs.Asks.{AreSeatsAt};
ghost use Rattle.aggregator.specs.Partial.{SeatsGoOn, bases_in};
ghost use Rattle.tail_picks.specs.Tails.{Tails};
ghost use Rattle.tailer.specs.Calls.{CallsOn, IsOverRows, behind_tries, calls_of_tries, free_of, is_added, sent_to, tries_seen};

use crate::calls::Tail;
use crate::tries::{Tailed, Tries};
use crate::trying::{TRIES, try_all};
use berth_face::Gate;
use leaf_model::Rows;
use leaf_table::{FleetTables, Seat};
use rand_pcg::Lcg64Xsh32;
use std::alloc::{AllocError, Global};
use std::sync::Wait;
use std::thread::Threads;
use tail_picks::every_row;

/// Sends rows to the table with this index at one leaf, by the callers' seat at each. In each of at most 16 tries the
/// next two words draw two leaves, which are asked for their number of rows. A copy of the rows is added to the one
/// with more free rows, the first in a tie. The first add that is accepted ends the tail. If memory for a copy runs
/// out, the add is refused with NoMemory. Err is want of memory before any leaf was asked.
pub fn send<R: Wait + Threads + Sync, G: Gate>(
    rt: &R,
    alloc: Global,
    fleet: &FleetTables,
    table: u32,
    seats: &mut [Seat],
    words: &mut Lcg64Xsh32,
    rows: &Rows,
    gate: &G,
) -> Result<Tailed, AllocError>
    requires seats { AreSeatsAt fleet.now table seats.old }
    requires some { 0 < length fleet.now }
    requires rows { AllByRecursion IsRow rows.now }
    // The tries are those of the words, and end as the tail says.
    ensures tails { IfOk result (λ t. Tails free_of is_added
        (length fleet.now) (first_words pcg32 32 words.old) (tries_seen t.tries) (sent_to t.sent)) }
    // Each try drew two words, and no other word was drawn.
    ensures words { IfOk result (λ t. words.new ≡ behind_tries (length t.tries) words.old) }
    // Each reply is that of a call by the seat of its leaf, one call after another.
    ensures calls { IfOk result (λ t.
        CallsOn fleet.now table seats.old (calls_of_tries rows.now (tries_seen t.tries)) seats.new) }
    // The count in an answer is that of the rows before its entry, however the histories go on.
    ensures over { (histories : ℕ → List Entry) → SeatsGoOn seats.new histories → IfOk result (λ t.
        AllByRecursion (IsOverRows (bases_in fleet.now table) histories)
        (calls_of_tries rows.now (tries_seen t.tries))) }
    // After Err no leaf was asked, and no word was drawn.
    ensures refused { IsErr result → seats.new ≡ seats.old }
    ensures undrawn { IsErr result → words.new ≡ words.old }
    ensures seats { AreSeatsAt fleet.now table seats.new }
{
    let query = every_row(alloc)?;
    let mut tries = Vec::with_capacity(alloc, TRIES)?;
    let tail = Tail {
        fleet,
        table,
        query: &query,
        rows,
    };
    let sent = try_all(rt, gate, &tail, seats, words, &mut tries);
    Ok(Tailed {
        sent,
        tries: Tries::of(tries),
    })
}
