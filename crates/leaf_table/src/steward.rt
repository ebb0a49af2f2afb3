// The calls of the steward. None takes memory. Each entry carries the berth's clock at the call.
ghost use Rattle.std.specs.Prelude.{◌≡◌, ◌≤◌, length, OnOk};
ghost use Rattle.turnstile.specs.Seats.{IsSeatOf};
ghost use Rattle.leaf_history.specs.Calls as call;
ghost use Rattle.leaf_history.specs.Replies as reply;
ghost use Rattle.leaf_table.specs.Turns.{is_founded, MayHandIn};
ghost use Rattle.leaf_table.specs.Calls.{base_seen, name_of, state_seen, IsSteward, SameSeat, SeesOpen, SeesShut, HasTaken, Made, TookBy, ClosedBy, ReopenedBy};

use crate::callers::WORN;
use crate::replies::{ClosedTable, Taken};
use crate::shared::{Seat, SharedTable};
use crate::turns::{Turn, TurnAnswer};
use berth_face::{Berth, Gate};
use std::sync::Wait;
use std::thread::Threads;
use table_state::TableState;

impl SharedTable {
    /// Takes the record of the writes that were not taken yet. The steward has to know that the table is open.
    pub fn take<R: Wait + Threads + Sync, B: Berth, G: Gate>(
        &self,
        rt: &R,
        steward: &mut Seat,
        berth: &B,
        gate: &G,
    ) -> Taken
        requires seat { IsSeatOf steward.old self.now.site }
        requires steward { IsSteward steward.old }
        requires open { SeesOpen self.now steward.old }
        ensures seat { IsSeatOf steward.new self.now.site }
        ensures same { SameSeat steward.old steward.new }
        ensures open { SeesOpen self.now steward.new }
        ensures taken { HasTaken self.now result steward.new }
        ensures made { TookBy (name_of self.now) (base_seen self.now) (B.meaning berth.now).clock steward.old result
            steward.new }
    {
        if steward.seen() >= WORN {
            return Taken::Worn;
        }
        match self.steward_turn(rt, steward, Turn::Take, berth, gate) {
            TurnAnswer::Took { writes, pending } => Taken::Took {
                number: steward.seen(),
                writes,
                pending,
            },
            TurnAnswer::Added { .. }
            | TurnAnswer::Removed(_)
            | TurnAnswer::Groups(_)
            | TurnAnswer::Shut
            | TurnAnswer::Full
            | TurnAnswer::NoMemory
            | TurnAnswer::Closed(_)
            | TurnAnswer::Noted => unreachable!(),
        }
    }

    /// Notes that the disk has the first `writes` writes. The steward has to have taken as many.
    pub fn flushed<R: Wait + Threads + Sync, B: Berth, G: Gate>(
        &self,
        rt: &R,
        steward: &mut Seat,
        writes: u64,
        berth: &B,
        gate: &G,
    ) -> u64
        requires seat { IsSeatOf steward.old self.now.site }
        requires steward { IsSteward steward.old }
        requires taken { writes ≤ (state_seen (base_seen self.now) steward.old).taken }
        ensures seat { IsSeatOf steward.new self.now.site }
        ensures same { SameSeat steward.old steward.new }
        ensures number { result ≡ length steward.new.seen }
        ensures live { (state_seen (base_seen self.now) steward.new).live
            ≡ (state_seen (base_seen self.now) steward.old).live }
        ensures made { Made (base_seen self.now) (B.meaning berth.now).clock steward.old (call.Flushed writes)
            reply.Noted steward.new }
    {
        self.steward_turn(rt, steward, Turn::Flushed(writes), berth, gate);
        steward.seen()
    }

    /// Shuts the table, and takes its content out. The steward has to know that it is open.
    pub fn shut<R: Wait + Threads + Sync, B: Berth, G: Gate>(
        &self,
        rt: &R,
        steward: &mut Seat,
        berth: &B,
        gate: &G,
    ) -> ClosedTable
        requires seat { IsSeatOf steward.old self.now.site }
        requires steward { IsSteward steward.old }
        requires open { SeesOpen self.now steward.old }
        ensures seat { IsSeatOf steward.new self.now.site }
        ensures same { SameSeat steward.old steward.new }
        ensures shut { SeesShut self.now steward.new }
        ensures closed { ClosedBy (name_of self.now) (base_seen self.now) (B.meaning berth.now).clock steward.old result
            steward.new }
    {
        match self.steward_turn(rt, steward, Turn::Shut, berth, gate) {
            TurnAnswer::Closed(table) => ClosedTable {
                number: steward.seen(),
                writes: table.writes(),
                table,
            },
            TurnAnswer::Added { .. }
            | TurnAnswer::Removed(_)
            | TurnAnswer::Groups(_)
            | TurnAnswer::Shut
            | TurnAnswer::Full
            | TurnAnswer::NoMemory
            | TurnAnswer::Took { .. }
            | TurnAnswer::Noted => unreachable!(),
        }
    }

    /// Notes that the table was handed over. The steward has to know that it is shut.
    pub fn done<R: Wait + Threads + Sync, B: Berth, G: Gate>(
        &self,
        rt: &R,
        steward: &mut Seat,
        berth: &B,
        gate: &G,
    ) -> u64
        requires seat { IsSeatOf steward.old self.now.site }
        requires steward { IsSteward steward.old }
        requires shut { SeesShut self.now steward.old }
        ensures seat { IsSeatOf steward.new self.now.site }
        ensures same { SameSeat steward.old steward.new }
        ensures number { result ≡ length steward.new.seen }
        ensures shut { SeesShut self.now steward.new }
        ensures made { Made (base_seen self.now) (B.meaning berth.now).clock steward.old call.Done reply.Noted
            steward.new }
    {
        self.steward_turn(rt, steward, Turn::Done, berth, gate);
        steward.seen()
    }

    /// Opens the table with this content. The steward has to know that it is shut, and if the table is founded, that
    /// this is the content of its first writes. If the seat is worn, the content is given back.
    pub fn reopen<R: Wait + Threads + Sync, B: Berth, G: Gate>(
        &self,
        rt: &R,
        steward: &mut Seat,
        table: TableState,
        writes: u64,
        berth: &B,
        gate: &G,
    ) -> Result<u64, TableState>
        requires seat { IsSeatOf steward.old self.now.site }
        requires steward { IsSteward steward.old }
        requires shut { SeesShut self.now steward.old }
        requires content { MayHandIn (is_founded (base_seen self.now)) (state_seen (base_seen self.now) steward.old)
            writes table }
        ensures seat { IsSeatOf steward.new self.now.site }
        ensures same { SameSeat steward.old steward.new }
        ensures open { OnOk result (SeesOpen self.now steward.new) }
        ensures made { ReopenedBy (base_seen self.now) (B.meaning berth.now).clock steward.old writes table result
            steward.new }
    {
        if steward.seen() >= WORN {
            return Err(table);
        }
        self.steward_turn(rt, steward, Turn::Open { writes, table }, berth, gate);
        Ok(steward.seen())
    }
}
