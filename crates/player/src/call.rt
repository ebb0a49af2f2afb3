// Calls of callers at one leaf.
ghost use Rattle.std.specs.Prelude.{◌≡◌, ◌<◌, length};
ghost use Rattle.turnstile.specs.Seats.{IsSeatOf};
ghost use Rattle.leaf_table.specs.Calls.{Answered, SameSeat, base_seen};
ghost use Rattle.leaf_table.specs.Lists.{lists_in, row};
ghost use Rattle.script_text.specs.Commands.{leaf_count};
ghost use Rattle.script_text.specs.Orders.{IsRequest};
ghost use Rattle.player.specs.Crew.{AllPass, HasSeats, StillHas};
ghost use Rattle.player.specs.Rows.{CallsTable, HasSeat, IsCallersAt, IsColumn, OnlyColumn, called_at};
ghost use Rattle.player.specs.Lines.{CallsWith};
ghost use Rattle.player.specs.Members.{AreMembers, SameFleet, fleet_in, holds_in};
ghost use Rattle.player.specs.Commands.{CallsAt, IsSeatCall, call_in};
ghost use Rattle.player.specs.Asked.{AsksLeaf};

use crate::entries::{call_line, call_lines};
use crate::members::Members;
use berth_face::{Berth, Gate};
use leaf_model::Query;
use leaf_table::{Reply, Seat, SharedTable};
use printed_lines::Line;
use script_text::TableRequest;
use std::alloc::{AllocError, Global};
use std::sync::Wait;
use std::thread::Threads;

/// A caller's call: a request of a script, or a query that is only lent.
#[derive(Drop)]
pub enum SeatCall<'q> {
    Request(TableRequest),
    Lent(&'q Query),
}

impl<'t, B: Berth> Members<'t, B> {
    /// Makes a caller's call at that leaf's table. Gives its line; Err if memory for it ran out.
    pub fn call<R: Wait + Threads + Sync, G: Gate>(
        &mut self,
        rt: &R,
        alloc: Global,
        gate: &G,
        leaf: u32,
        table: u32,
        request: TableRequest,
    ) -> Result<Vec<Line>, AllocError>
        requires members { AreMembers self.old }
        requires leaf { leaf < leaf_count (fleet_in self.old) }
        requires table { table < length self.old.names }
        requires has { HasSeats (holds_in self.old) table }
        requires request { IsRequest request }
        ensures members { AreMembers self.new }
        ensures same { SameFleet self.old self.new }
        ensures calls { CallsAt B.meaning leaf table request self.old result self.new }
    {
        let tables = self.tables.leaf(leaf);
        let call = SeatCall::Request(request);
        let reply = call_one(rt, gate, tables, &mut self.rows, leaf, table, call);
        call_lines(alloc, leaf, table, &reply)
    }

    /// Asks that leaf's table alone. Gives its line, and the reply.
    pub fn ask_leaf<R: Wait + Threads + Sync, G: Gate>(
        &mut self,
        rt: &R,
        gate: &G,
        leaf: u32,
        table: u32,
        query: &Query,
    ) -> (Line, Reply)
        requires members { AreMembers self.old }
        requires leaf { leaf < leaf_count (fleet_in self.old) }
        requires table { table < length self.old.names }
        requires has { HasSeats (holds_in self.old) table }
        ensures members { AreMembers self.new }
        ensures same { SameFleet self.old self.new }
        ensures asks { AsksLeaf B.meaning self.old.names leaf table query.now (holds_in self.old) result.0 result.1
            (holds_in self.new) }
        ensures still { StillHas (holds_in self.old) (holds_in self.new) }
        ensures time { AllPass B.meaning (holds_in self.old) (holds_in self.new) }
    {
        let tables = self.tables.leaf(leaf);
        let call = SeatCall::Lent(query);
        let reply = call_one(rt, gate, tables, &mut self.rows, leaf, table, call);
        (call_line(leaf, table, &reply), reply)
    }
}

// Calls the leaf's table `table`, by the callers' seat there.
fn call_one<R: Wait + Threads + Sync, G: Gate>(
    rt: &R,
    gate: &G,
    tables: &[SharedTable],
    rows: &mut Vec<Vec<Seat>>,
    leaf: u32,
    table: u32,
    call: SeatCall,
) -> Reply
    requires column { IsColumn leaf tables.now (lists_in rows.old.items) }
    requires table { table < length tables.now }
    requires has { HasSeat leaf table (lists_in rows.old.items) }
    requires call { IsSeatCall call }
    ensures calls { CallsTable table (call_in call.entry) (called_at leaf tables.now (lists_in rows.old.items)) result
        (called_at leaf tables.now (lists_in rows.new.items)) }
    ensures column { IsColumn leaf tables.now (lists_in rows.new.items) }
    ensures only { OnlyColumn leaf (lists_in rows.old.items) (lists_in rows.new.items) }
{
    let shared = &tables[table as usize];
    let row = &mut rows[table as usize];
    let seat = &mut row[leaf as usize];
    call_by(rt, gate, shared, seat, call)
}

// Calls a table by a seat.
fn call_by<R: Wait + Threads + Sync, G: Gate>(
    rt: &R,
    gate: &G,
    shared: &SharedTable,
    seat: &mut Seat,
    call: SeatCall,
) -> Reply
    requires seat { IsCallersAt shared.now seat.old }
    requires call { IsSeatCall call }
    ensures seat { IsSeatOf seat.new shared.now.site }
    ensures same { SameSeat seat.old seat.new }
    ensures made { Answered (base_seen shared.now) seat.old (call_in call.entry) result seat.new }
{
    match call {
        SeatCall::Request(TableRequest::Add(rows)) => shared.add(rt, seat, rows, gate),
        SeatCall::Request(TableRequest::Expire(horizon)) => shared.expire(rt, seat, horizon, gate),
        SeatCall::Request(TableRequest::Keep(n)) => shared.keep(rt, seat, n, gate),
        SeatCall::Request(TableRequest::Ask(query)) => shared.ask(rt, seat, &query, gate),
        SeatCall::Lent(query) => shared.ask(rt, seat, query, gate),
    }
}
