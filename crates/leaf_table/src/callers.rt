// The calls of callers.
ghost use Rattle.std.specs.Prelude.{◌≡◌};
ghost use Rattle.std.specs.List.{AllByRecursion};
ghost use Rattle.turnstile.specs.Seats.{IsSeatOf};
ghost use Rattle.row_model.specs.Values.{IsRow, IsTime};
ghost use Rattle.leaf_history.specs.Calls as call;
ghost use Rattle.leaf_table.specs.Turns.{IsAddOf};
ghost use Rattle.leaf_table.specs.Calls.{base_seen, IsCaller, SameSeat, Answered};

use crate::lent_query::LentQuery;
use crate::replies::{Reply, numbered};
use crate::shared::{Seat, SharedTable};
use crate::turns::Turn;
use berth_face::Gate;
use leaf_model::{Query, Rows};
use std::marker::Brand;
use std::snapshot::Snapshot;
use std::sync::Wait;
use std::thread::Threads;

/// A seat that has seen this many entries is worn: it makes no more.
pub const WORN: u64 = 1 << 62;

impl SharedTable {
    /// Adds rows, if the table is open.
    pub fn add<R: Wait + Threads + Sync, G: Gate>(
        &self,
        rt: &R,
        seat: &mut Seat,
        rows: Rows,
        gate: &G,
    ) -> Reply
        requires seat { IsSeatOf seat.old self.now.site }
        requires caller { IsCaller seat.old }
        requires rows { AllByRecursion IsRow rows }
        ensures seat { IsSeatOf seat.new self.now.site }
        ensures same { SameSeat seat.old seat.new }
        ensures made { Answered (base_seen self.now) seat.old (call.Add rows) result seat.new }
    {
        if seat.seen() >= WORN {
            return Reply::Worn;
        }
        let answer = self.turn::<Brand, R, G>(rt, seat, Turn::Add(rows), gate);
        numbered(seat.seen(), answer)
    }

    /// Adds a copy of the rows, if the table is open. If memory for the copy runs out, the call still makes an entry,
    /// with NoMemory.
    pub fn add_copy<R: Wait + Threads + Sync, G: Gate>(
        &self,
        rt: &R,
        seat: &mut Seat,
        rows: &Rows,
        gate: &G,
    ) -> Reply
        requires seat { IsSeatOf seat.old self.now.site }
        requires caller { IsCaller seat.old }
        requires rows { AllByRecursion IsRow rows.now }
        ensures seat { IsSeatOf seat.new self.now.site }
        ensures same { SameSeat seat.old seat.new }
        ensures made { Answered (base_seen self.now) seat.old (call.Add rows.now) result seat.new }
    {
        if seat.seen() >= WORN {
            return Reply::Worn;
        }
        let adding = add_turn(rows);
        let answer = self.turn::<Brand, R, G>(rt, seat, adding, gate);
        numbered(seat.seen(), answer)
    }

    /// Raises the horizon, if the table is open.
    pub fn expire<R: Wait + Threads + Sync, G: Gate>(
        &self,
        rt: &R,
        seat: &mut Seat,
        horizon: i64,
        gate: &G,
    ) -> Reply
        requires seat { IsSeatOf seat.old self.now.site }
        requires caller { IsCaller seat.old }
        requires horizon { IsTime horizon }
        ensures seat { IsSeatOf seat.new self.now.site }
        ensures same { SameSeat seat.old seat.new }
        ensures made { Answered (base_seen self.now) seat.old (call.Expire horizon) result seat.new }
    {
        if seat.seen() >= WORN {
            return Reply::Worn;
        }
        let answer = self.turn::<Brand, R, G>(rt, seat, Turn::Expire(horizon), gate);
        numbered(seat.seen(), answer)
    }

    /// Keeps the last n rows, if the table is open.
    pub fn keep<R: Wait + Threads + Sync, G: Gate>(
        &self,
        rt: &R,
        seat: &mut Seat,
        n: u64,
        gate: &G,
    ) -> Reply
        requires seat { IsSeatOf seat.old self.now.site }
        requires caller { IsCaller seat.old }
        ensures seat { IsSeatOf seat.new self.now.site }
        ensures same { SameSeat seat.old seat.new }
        ensures made { Answered (base_seen self.now) seat.old (call.Keep n) result seat.new }
    {
        if seat.seen() >= WORN {
            return Reply::Worn;
        }
        let answer = self.turn::<Brand, R, G>(rt, seat, Turn::Keep(n), gate);
        numbered(seat.seen(), answer)
    }

    /// Asks for the groups of a query, if the table is open. If memory for a copy of the query runs out, the call still
    /// makes an entry.
    pub fn ask<R: Wait + Threads + Sync, G: Gate>(
        &self,
        rt: &R,
        seat: &mut Seat,
        query: &Query,
        gate: &G,
    ) -> Reply
        requires seat { IsSeatOf seat.old self.now.site }
        requires caller { IsCaller seat.old }
        ensures seat { IsSeatOf seat.new self.now.site }
        ensures same { SameSeat seat.old seat.new }
        ensures made { Answered (base_seen self.now) seat.old (call.Ask query.now) result seat.new }
    {
        let lent = self.lend(query);
        self.ask_lent(rt, seat, &lent, gate)
    }

    /// Asks the table a query that other tables are asked too, where it is open.
    pub fn ask_lent<R: Wait + Threads + Sync, G: Gate>(
        &self,
        rt: &R,
        seat: &mut Seat,
        query: &LentQuery<'_>,
        gate: &G,
    ) -> Reply
        requires seat { IsSeatOf seat.old self.now.site }
        requires caller { IsCaller seat.old }
        ensures seat { IsSeatOf seat.new self.now.site }
        ensures same { SameSeat seat.old seat.new }
        ensures made { Answered (base_seen self.now) seat.old (call.Ask query.now) result seat.new }
    {
        if seat.seen() >= WORN {
            return Reply::Worn;
        }
        let asking = query.asking();
        let answer = self.turn::<Brand, R, G>(rt, seat, asking, gate);
        numbered(seat.seen(), answer)
    }
}

// The turn that adds a copy of rows.
fn add_turn(rows: &Rows) -> Turn
    ensures { IsAddOf rows.now result }
{
    let copy = match rows.copy() {
        Ok(copy) => Some(copy),
        Err(_) => None,
    };
    Turn::AddCopy {
        rows: Snapshot::of(rows),
        copy,
    }
}
