// The calls.
ghost use Rattle.std.specs.Prelude.{◌≡◌, ◌<◌, ◌≤◌, [], IfOk, IsOk};
ghost use Rattle.turnstile.specs.Seats.{IsSeatOf, unused_seat, MayCall, HasRoom, Called, keeps_all_but, given, Joined, LearnsOthers, SeesAlso};

use crate::object::{Clock, Object};
use crate::seat::Seat;
use crate::steps::{cut_off, lay, take_over, take_turn, tell};
use crate::view::{Start, TurnTable};
use berth_face::Gate;
use std::alloc::{AllocError, Global};
use std::marker::Model;
use std::sync::Wait;
use std::thread::Threads;

/// An object shared by turns. Each call draws a ticket, waits until it is served, makes one step of the object, and
/// posts one entry of its history. Memory holds the length of the history, and not the history.
///
/// A thread that waits spins for a few looks, and then sleeps until a turn is passed on. No clause promises progress,
/// fairness, or a bound on the time of a turn.
#[derive(Drop)]
pub struct Turnstile<O: Object> {
    table: TurnTable<O>,
}

impl<O: Object> Model for Turnstile<O> {
    ghost use Rattle.std.specs.Prelude.{◌≡◌};
    ghost use Rattle.turnstile.specs.Seats.{Site};

    ghost Value = { Site O.Base };

    ghost view = { λ t. record { at = t.table.shared.table_id; base = t.table.shared.key.base } };

    ghost invariant = { λ t. t.table.shared.table_id.words ≡ 3 };
}

impl<O: Object> Turnstile<O> {
    /// Makes a turnstile, with the steward's seat, whose id is 0, and the first caller's, which owns `share` ids from 1
    /// on.
    pub fn new(
        alloc: Global,
        value: O,
        share: u64,
        base: O::Base,
    ) -> Result<(Turnstile<O>, Seat<O>, Seat<O>), AllocError>
        requires share { (1 ≤ share) × (share ≤ 65536) }
        requires value { O.legal base [] × O.stands base [] value }
        ensures base { IfOk result (λ t. t.0.base ≡ base) }
        ensures steward { IfOk result (λ t. t.1 ≡ unused_seat t.0 0 1 1024) }
        ensures caller { IfOk result (λ t. t.2 ≡ unused_seat t.0 1 share share) }
        ensures seats { IfOk result (λ t. IsSeatOf t.1 t.0 × IsSeatOf t.2 t.0) }
    {
        let (table, mut place) = lay(alloc, value, Start { base, share })?;
        let first = cut_off(&table.shared, &mut place, share);
        let steward = Seat {
            place,
            id: 0,
            share: 1,
            seen: 0,
        };
        let caller = Seat {
            place: first,
            id: 1,
            share,
            seen: 0,
        };
        Ok((Turnstile { table }, steward, caller))
    }

    /// Takes a turn, makes one step of the object and posts its entry. The number of the entry is then the seat's
    /// `seen`. The gate is called inside the turn; the numbers of leaf and table are for it alone.
    pub fn call<C: Clock, R: Wait + Threads + Sync, G: Gate>(
        &self,
        rt: &R,
        seat: &mut Seat<O>,
        call: O::Call,
        gate: &G,
        leaf: u32,
        table: u32,
    ) -> O::Reply
        requires seat { IsSeatOf seat.old self.now }
        requires room { HasRoom seat.old }
        requires may { MayCall O.legal O.may self.now.base seat.old call }
        ensures seat { IsSeatOf seat.new self.now }
        ensures call { Called O.legal self.now.base C.now seat.old call result seat.new }
    {
        let turns = &self.table.shared;
        let (reply, number) = take_turn::<O, C, R, G>(
            rt,
            turns,
            &mut seat.place,
            seat.id,
            call,
            gate,
            leaf,
            table,
        );
        seat.seen = number;
        reply
    }

    /// Moves the seat's last `share` ids to a new seat, which has seen the same prefix. It makes no entry and takes no
    /// memory.
    pub fn split(&self, seat: &mut Seat<O>, share: u64) -> Result<Seat<O>, AllocError>
        requires seat { IsSeatOf seat.old self.now }
        requires share { (1 ≤ share) × (share < seat.old.share) }
        ensures seats { IsSeatOf seat.new self.now × IfOk result (λ s. IsSeatOf s self.now) }
        ensures left { seat.new ≡ keeps_all_but share seat.old }
        ensures right { IfOk result (λ s. s ≡ given share seat.old) }
        ensures done { IsOk result }
    {
        let place = cut_off(&self.table.shared, &mut seat.place, share);
        seat.share -= share;
        Ok(Seat {
            place,
            id: seat.id + seat.share,
            share,
            seen: seat.seen,
        })
    }

    /// Takes over the ids of another seat, and what it has seen. It makes no entry.
    pub fn join(&self, seat: &mut Seat<O>, other: Seat<O>)
        requires seats { IsSeatOf seat.old self.now × IsSeatOf other self.now }
        ensures seat { IsSeatOf seat.new self.now }
        ensures joined { Joined seat.old other seat.new }
    {
        let Seat {
            place,
            id: _,
            share: _,
            seen,
        } = other;
        take_over(&self.table.shared, &mut seat.place, place);
        seat.seen = seat.seen.max(seen);
    }

    /// Lets each of two seats see what the other has seen. It makes no entry and takes no memory.
    pub fn meet(&self, a: &mut Seat<O>, b: &mut Seat<O>) -> Result<(), AllocError>
        requires seats { IsSeatOf a.old self.now × IsSeatOf b.old self.now }
        ensures seats { IsSeatOf a.new self.now × IsSeatOf b.new self.now }
        ensures a { SeesAlso a.old b.old a.new }
        ensures b { SeesAlso b.old a.old b.new }
        ensures others { LearnsOthers a.old a.new × LearnsOthers b.old b.new }
        ensures same { a.new.seen ≡ b.new.seen }
        ensures done { IsOk result }
    {
        let turns = &self.table.shared;
        tell(turns, &mut a.place, &mut b.place);
        tell(turns, &mut b.place, &mut a.place);
        let seen = a.seen.max(b.seen);
        a.seen = seen;
        b.seen = seen;
        Ok(())
    }
}
