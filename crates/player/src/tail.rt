// Tails: rows that go to one of the leaves.
ghost use Rattle.std.specs.Prelude.{◌≡◌, ◌⊎◌, ◌<◌, ◌++◌, length, IfOk, IsErr, OnOk};
ghost use Rattle.std.specs.List.{AllByRecursion};
ghost use Rattle.row_model.specs.Values.{IsRow};
ghost use Rattle.leaf_table.specs.Lists.{lists_in, row};
ghost use Rattle.aggregator.specs.Asks.{AreSeatsAt};
ghost use Rattle.tailer.specs.Calls.{sent_to, try_seen};
ghost use Rattle.player.specs.Crew.{HasSeats};
ghost use Rattle.player.specs.Members.{AreMembers, SameFleet, fleet_in, holds_in};
ghost use Rattle.player.specs.Commands.{SendsRow, TailsAll, also_line, tail_lines, try_lines};

use crate::entries::call_line;
use crate::members::Members;
use berth_face::{Berth, Gate};
use leaf_model::Rows;
use leaf_table::{FleetTables, Reply, Seat};
use printed_lines::Line;
use std::alloc::{AllocError, Global};
use std::sync::Wait;
use std::thread::Threads;
use tail_picks::words_of;
use tailer::{Sent, Tailed, Try, send};

impl<'t, B: Berth> Members<'t, B> {
    /// Sends rows to table `table` of one leaf. Gives the line of each call, and where the rows went. Err if memory
    /// runs out: no leaf was asked, or only the lines are lost.
    pub fn tail<R: Threads + Wait + Sync, G: Gate>(
        &mut self,
        rt: &R,
        alloc: Global,
        gate: &G,
        key: u64,
        table: u32,
        rows: &Rows,
    ) -> Result<Vec<Line>, AllocError>
        requires members { AreMembers self.old }
        requires table { table < length self.old.names }
        requires has { HasSeats (holds_in self.old) table }
        requires rows { AllByRecursion IsRow rows.now }
        ensures members { AreMembers self.new }
        ensures same { SameFleet self.old self.new }
        ensures tails { TailsAll B.meaning key table rows.now self.old result self.new
            ⊎ (IsErr result × (holds_in self.new ≡ holds_in self.old)) }
    {
        let tailed = send_row(
            rt,
            alloc,
            gate,
            self.tables,
            &mut self.rows,
            table,
            key,
            rows,
        )?;
        tail_lines(alloc, table, &tailed)
    }
}

// Sends rows by the seats of one table.
fn send_row<R: Threads + Wait + Sync, G: Gate>(
    rt: &R,
    alloc: Global,
    gate: &G,
    tables: &FleetTables,
    seats: &mut Vec<Vec<Seat>>,
    table: u32,
    key: u64,
    rows: &Rows,
) -> Result<Tailed, AllocError>
    requires table { table < length seats.old.items }
    requires seats { AreSeatsAt tables.now table (row (lists_in seats.old.items) table) }
    requires some { 0 < length tables.now }
    requires rows { AllByRecursion IsRow rows.now }
    ensures sends { IfOk result (λ t. SendsRow tables.now table key rows.now (lists_in seats.old.items) t
        (lists_in seats.new.items)) }
    ensures refused { IsErr result → lists_in seats.new.items ≡ lists_in seats.old.items }
{
    let row = &mut seats[table as usize];
    let mut words = words_of(key);
    send(rt, alloc, tables, table, row, &mut words, rows, gate)
}

// The lines of a tail's calls, and of where the rows went.
fn tail_lines(alloc: Global, table: u32, tailed: &Tailed) -> Result<Vec<Line>, AllocError>
    ensures { IfOk result (λ lines. lines.items ≡ tail_lines table tailed.now) }
{
    let mut lines = Vec::new(alloc);
    for tried in tailed.tries.as_slice() {
        put_try(&mut lines, table, tried)?;
    }
    lines.push(Line::Tailed(sent_to(tailed.sent)))?;
    Ok(lines)
}

fn sent_to(sent: Sent) -> Option<u32>
    ensures { result ≡ sent_to sent }
{
    match sent {
        Sent::To(leaf) => Some(leaf),
        Sent::Refused => None,
    }
}

// Appends the lines of a try.
fn put_try(lines: &mut Vec<Line>, table: u32, tried: &Try) -> Result<(), AllocError>
    ensures { OnOk result (lines.new.items ≡ lines.old.items ++ try_lines table (try_seen tried.now)) }
{
    lines.push(call_line(tried.first, table, &tried.one))?;
    put_also(lines, Some(tried.second), table, &tried.two)?;
    put_also(lines, tried.picked(), table, &tried.added)
}

// Appends the line of a call, if it was made.
fn put_also(
    lines: &mut Vec<Line>,
    leaf: Option<u32>,
    table: u32,
    reply: &Option<Reply>,
) -> Result<(), AllocError>
    ensures { OnOk result (lines.new.items ≡ lines.old.items ++ also_line leaf table reply.now) }
{
    if let (Some(leaf), Some(reply)) = (leaf, reply) {
        lines.push(call_line(leaf, table, reply))?;
    }
    Ok(())
}
