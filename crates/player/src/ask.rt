// Queries of all leaves.
ghost use Rattle.std.specs.Prelude.{◌≡◌, ◌⊎◌, ◌<◌, ◌^◌, ◌++◌, ℕ, List, length, slice_set, IfOk, IsErr};
ghost use Rattle.leaf_model.specs.Groups.{groups};
ghost use Rattle.leaf_history.specs.History.{Entry};
ghost use Rattle.leaf_table.specs.Calls.{SeatView};
ghost use Rattle.leaf_table.specs.Lists.{lists_in, row};
ghost use Rattle.aggregator.specs.Asks.{AreSeatsAt, AllAsked};
ghost use Rattle.aggregator.specs.Partial.{SeatsGoOn, bases_in, partial};
ghost use Rattle.transcript.specs.Pieces.{place_among};
ghost use Rattle.player.specs.Crew.{HasSeats};
ghost use Rattle.player.specs.Members.{AreMembers, SameFleet, fleet_in, holds_in};
ghost use Rattle.player.specs.Commands.{AsksAll, AsksRow, asked_line, asked_lines, number_in, query_lines};

use crate::entries::entry;
use crate::members::Members;
use aggregator::{Fanned, Named, ask_all};
use answer_text::lines;
use berth_face::{Berth, Gate};
use leaf_model::{Names, Query, Texts};
use leaf_table::{FleetTables, Seat};
use printed_lines::{Line, Said};
use std::alloc::{AllocError, Global};
use std::sync::Wait;
use std::thread::Threads;

impl<'t, B: Berth> Members<'t, B> {
    /// Asks the query's table at each leaf. Gives the line of each leaf, and the answer. Err if memory runs out: no
    /// leaf was asked, or only the lines are lost.
    pub fn ask<R: Threads + Wait + Sync, G: Gate>(
        &mut self,
        rt: &R,
        alloc: Global,
        gate: &G,
        query: &Query,
    ) -> Result<Vec<Line>, AllocError>
        requires members { AreMembers self.old }
        requires table { place_among query.now.table self.old.names < length self.old.names }
        requires has { HasSeats (holds_in self.old) (place_among query.now.table self.old.names) }
        ensures members { AreMembers self.new }
        ensures same { SameFleet self.old self.new }
        ensures asks { AsksAll B.meaning query.now self.old result self.new
            ⊎ (IsErr result × (holds_in self.new ≡ holds_in self.old)) }
    {
        let table = place_of(&self.names, query.table.as_str());
        let leaves = self.leaves.len() as u32;
        let fanned = ask_row(rt, alloc, gate, self.tables, &mut self.rows, table, query)?;
        query_lines(alloc, leaves, table, query, &fanned)
    }
}

// Asks by the seats of one table.
fn ask_row<R: Threads + Wait + Sync, G: Gate>(
    rt: &R,
    alloc: Global,
    gate: &G,
    tables: &FleetTables,
    rows: &mut Vec<Vec<Seat>>,
    table: u32,
    query: &Query,
) -> Result<Fanned, AllocError>
    requires table { table < length rows.old.items }
    requires seats { AreSeatsAt tables.now table (row (lists_in rows.old.items) table) }
    ensures asked { AsksRow query.now tables.now table (lists_in rows.old.items) result (lists_in rows.new.items) }
    ensures groups { (histories : ℕ → List Entry) → SeatsGoOn (row (lists_in rows.new.items) table) histories
        → IfOk result (λ f. f.groups ≡ groups query.now (partial (bases_in tables.now table) histories f.named)) }
{
    let row = &mut rows[table as usize];
    ask_all(rt, alloc, tables, table, row, query, gate)
}

/// The index of the first table with that name; the number of tables if there is none.
pub fn place_of(names: &Names, name: &str) -> u32
    requires { length names.now < 2 ^ 32 }
    ensures { result ≡ place_among name.now names.now }
{
    match names.place_of(name.as_bytes()) {
        Some(place) => place as u32,
        None => names.as_slice().len() as u32,
    }
}

// The lines of a query: that of each leaf in order, and the answer.
fn query_lines(
    alloc: Global,
    leaves: u32,
    table: u32,
    query: &Query,
    fanned: &Fanned,
) -> Result<Vec<Line>, AllocError>
    ensures { IfOk result (λ lines. lines.items ≡ query_lines leaves table query.now fanned.now) }
{
    let rows = Texts::of(lines(alloc, query, &fanned.groups)?.into_inner());
    let mut lines = asked_lines(alloc, leaves, table, fanned)?;
    lines.push(Line::Answer {
        named: fanned.named.as_slice().len() as u64,
        leaves,
        rows,
    })?;
    Ok(lines)
}

// The line of each leaf.
fn asked_lines(
    alloc: Global,
    leaves: u32,
    table: u32,
    fanned: &Fanned,
) -> Result<Vec<Line>, AllocError>
    ensures { IfOk result (λ lines. lines.items ≡ asked_lines leaves table fanned.now) }
{
    let mut lines = Vec::new(alloc);
    for leaf in 0..leaves {
        lines.push(asked_line(leaf, table, fanned))?;
    }
    Ok(lines)
}

// The line of one leaf.
fn asked_line(leaf: u32, table: u32, fanned: &Fanned) -> Line
    ensures { result ≡ asked_line leaf table fanned.now }
{
    let named = number_in(leaf, fanned.named.as_slice());
    let shut = number_in(leaf, fanned.shut.as_slice());
    let starved = number_in(leaf, fanned.starved.as_slice());
    match (named, shut, starved) {
        (Some(number), _, _) => entry(leaf, table, number, Said::Asked),
        (None, Some(number), _) => entry(leaf, table, number, Said::RefusedShut),
        (None, None, Some(number)) => entry(leaf, table, number, Said::RefusedMemory),
        (None, None, None) => Line::Worn { leaf, table },
    }
}

// The number of the leaf's entry, if the leaf is in the list.
fn number_in(leaf: u32, list: &[Named]) -> Option<u64>
    ensures { result ≡ number_in leaf list.now }
{
    for named in list {
        if named.leaf == leaf {
            return Some(named.number);
        }
    }
    None
}
