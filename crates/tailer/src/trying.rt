// Makes the tries of a tail, one after another.
ghost use Rattle.std.specs.Prelude.{◌≡◌, ◌<◌, ◌≤◌, ◌==◌, [], length, not, is_some, vec_capacity};
ghost use Rattle.std.specs.List.{AllByRecursion};
ghost use Rattle.rand_core.specs.Steps.{first_words};
ghost use Rattle.rand_pcg.specs.Pcg.{pcg32};
ghost use Rattle.row_model.specs.Values.{IsRow};
ghost use Rattle.aggregator.specs.Asks.{AreSeatsAt};
ghost use Rattle.tail_picks.specs.Room.{every_row};
ghost use Rattle.tail_picks.specs.Tails.{Tails, pick_of};
ghost use Rattle.tailer.specs.Calls.{CallsOn, behind_tries, calls_of_tries, calls_of, free_of, is_added, sent_to, tries_seen, try_seen};

use crate::calls::{Tail, add_to_picked, ask_at, ask_other};
use crate::replies::{pick_by, taker};
use crate::tries::{Sent, Try};
use berth_face::Gate;
use leaf_table::Seat;
use rand_pcg::Lcg64Xsh32;
use std::sync::Wait;
use std::thread::Threads;
use tail_picks::next_leaves;

/// The most tries of a tail.
pub(crate) const TRIES: usize = 16;

// One try over two leaves.
fn try_once<'t, R: Wait + Threads + Sync, G: Gate>(
    rt: &R,
    gate: &G,
    tail: &Tail<'t>,
    first: u32,
    second: u32,
    seats: &mut [Seat],
) -> Try
    requires seats { AreSeatsAt tail.now.fleet.now tail.now.table seats.old }
    requires leaves { (first < length tail.now.fleet.now) × (second < length tail.now.fleet.now) }
    requires query { tail.now.query.now ≡ every_row }
    requires rows { AllByRecursion IsRow tail.now.rows.now }
    ensures leaves { (result.first ≡ first) × (result.second ≡ second) }
    ensures two { is_some result.two ≡ not (first == second) }
    ensures add { is_some result.added ≡ is_some (pick_of free_of is_added (try_seen result)) }
    ensures calls { CallsOn tail.now.fleet.now tail.now.table seats.old
        (calls_of tail.now.rows.now (try_seen result)) seats.new }
    ensures seats { AreSeatsAt tail.now.fleet.now tail.now.table seats.new }
{
    let one = ask_at(rt, gate, tail, first, seats);
    let two = ask_other(rt, gate, tail, first, second, seats);
    let picked = pick_by(first, &one, second, &two);
    let added = add_to_picked(rt, gate, tail, picked, seats);
    Try {
        first,
        second,
        one,
        two,
        added,
    }
}

/// Tries until an add is accepted, and appends each try to a list that has room for all.
pub(crate) fn try_all<'t, R: Wait + Threads + Sync, G: Gate>(
    rt: &R,
    gate: &G,
    tail: &Tail<'t>,
    seats: &mut [Seat],
    words: &mut Lcg64Xsh32,
    tries: &mut Vec<Try>,
) -> Sent
    requires seats { AreSeatsAt tail.now.fleet.now tail.now.table seats.old }
    requires some { 0 < length tail.now.fleet.now }
    requires query { tail.now.query.now ≡ every_row }
    requires rows { AllByRecursion IsRow tail.now.rows.now }
    requires none { tries.old.items ≡ [] }
    requires room { 16 ≤ vec_capacity tries.old }
    ensures tails { Tails free_of is_added (length tail.now.fleet.now)
        (first_words pcg32 32 words.old) (tries_seen tries.new.items) (sent_to result) }
    ensures words { words.new ≡ behind_tries (length tries.new.items) words.old }
    ensures calls { CallsOn tail.now.fleet.now tail.now.table seats.old
        (calls_of_tries tail.now.rows.now (tries_seen tries.new.items)) seats.new }
    ensures seats { AreSeatsAt tail.now.fleet.now tail.now.table seats.new }
{
    let leaves = seats.len() as u32;
    for turn in 0..TRIES {
        let (first, second) = next_leaves(words, leaves);
        let tried = try_once(rt, gate, tail, first, second, seats);
        let took = taker(&tried);
        tries.push_reserved(tried);
        if let Some(leaf) = took {
            return Sent::To(leaf);
        }
    }
    Sent::Refused
}
