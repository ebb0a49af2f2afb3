// A shared table: its seats, and one turn at it.
ghost use Rattle.std.specs.Prelude.{◌≡◌, ◌<◌, ◌≤◌, length, IfOk, IsOk};
ghost use Rattle.turnstile.specs.Seats.{IsSeatOf, HasRoom, Joined, LearnsOthers, SeesAlso, keeps_all_but, given, unused_seat};
ghost use Rattle.leaf_table.specs.Turns.{is_founded, MayNow};
ghost use Rattle.leaf_table.specs.Calls.{base_seen, name_of, state_seen, IsSteward, SeesShut, MadeTurn};

use crate::base::{Founds, origin_of};
use crate::lent_query::LentQuery;
use crate::turns::{Turn, TurnAnswer};
use crate::value::LeafTable;
use berth_face::{Berth, Gate};
use leaf_model::{Query, Text};
use std::alloc::{AllocError, Global};
use std::marker::{Brand, Model};
use std::sync::Wait;
use std::sync::atomic::{AtomicU64, Ordering};
use std::thread::Threads;
use table_state::TableState;
use turnstile::{Clock, Turnstile};

/// A seat at a table, of callers or of the steward.
pub type Seat = turnstile::Seat<LeafTable>;

/// A table of a leaf. Callers add, expire, keep and ask. The steward, whose seat has the id 0, takes, notes what was
/// flushed, shuts, hands over and opens.
#[derive(Drop)]
pub struct SharedTable {
    alloc: Global,
    pub(crate) leaf: u32,
    pub(crate) table: u32,
    pub(crate) name: Text,
    pub(crate) turns: Turnstile<LeafTable>,
    /// An estimate of its rows. It is a hint only.
    pub(crate) weight: AtomicU64,
}

impl Model for SharedTable {
    ghost use Rattle.std.specs.Prelude.{◌≡◌};
    ghost use Rattle.leaf_table.specs.Turns.{Shared};

    ghost Value = { Shared };

    ghost view = { λ t. record { leaf = t.leaf; table = t.table; site = t.turns } };

    ghost invariant = { λ t. t.name ≡ t.turns.base.name.value };
}

impl SharedTable {
    /// Makes a shut table of that name, the steward's seat, and a callers' seat of `share` ids. N picks the base. Err
    /// if memory runs out.
    pub fn new<N: Founds>(
        alloc: Global,
        leaf: u32,
        table: u32,
        name: &Text,
        share: u64,
    ) -> Result<(SharedTable, Seat, Seat), AllocError>
        requires name { length name.now ≤ 255 }
        requires share { (1 ≤ share) × (share ≤ 65536) }
        ensures numbers { IfOk result (λ t. (t.0.leaf ≡ leaf) × (t.0.table ≡ table)) }
        ensures named { IfOk result (λ t. name_of t.0 ≡ name.now) }
        ensures base { IfOk result (λ t. base_seen t.0 ≡ N.base leaf table) }
        ensures steward { IfOk result (λ t. t.1 ≡ unused_seat t.0.site 0 1 1024) }
        ensures caller { IfOk result (λ t. t.2 ≡ unused_seat t.0.site 1 share share) }
        ensures shut { IfOk result (λ t. SeesShut t.0 t.1) }
        ensures seats { IfOk result (λ t. IsSeatOf t.1 t.0.site × IsSeatOf t.2 t.0.site) }
    {
        let origin = origin_of::<N>(alloc, leaf, table, name)?;
        let value = LeafTable {
            alloc,
            name: name.copy()?,
            live: false,
            table: TableState::new(alloc),
        };
        let (turns, steward, caller) = Turnstile::new(alloc, value, share, origin)?;
        let shared = SharedTable {
            alloc,
            leaf,
            table,
            name: name.copy()?,
            turns,
            weight: AtomicU64::new(0),
        };
        Ok((shared, steward, caller))
    }

    /// The name of the table.
    pub fn name(&self) -> &Text
        ensures { result.now ≡ name_of self.now }
    {
        &self.name
    }

    /// Splits the seat: the last `share` ids go to a new seat, which has seen the same. It takes no memory.
    pub fn split(&self, seat: &mut Seat, share: u64) -> Result<Seat, AllocError>
        requires seat { IsSeatOf seat.old self.now.site }
        requires share { (1 ≤ share) × (share < seat.old.share) }
        ensures seats { IsSeatOf seat.new self.now.site × IfOk result (λ s. IsSeatOf s self.now.site) }
        ensures left { seat.new ≡ keeps_all_but share seat.old }
        ensures right { IfOk result (λ s. s ≡ given share seat.old) }
        ensures done { IsOk result }
    {
        self.turns.split(seat, share)
    }

    /// Merges another seat into this one: its ids, and what it has seen.
    pub fn join(&self, seat: &mut Seat, other: Seat)
        requires seats { IsSeatOf seat.old self.now.site × IsSeatOf other self.now.site }
        ensures seat { IsSeatOf seat.new self.now.site }
        ensures joined { Joined seat.old other seat.new }
    {
        self.turns.join(seat, other)
    }

    /// Lets each of two seats learn what the other has seen. It makes no entry and takes no memory.
    pub fn meet(&self, a: &mut Seat, b: &mut Seat) -> Result<(), AllocError>
        requires seats { IsSeatOf a.old self.now.site × IsSeatOf b.old self.now.site }
        ensures seats { IsSeatOf a.new self.now.site × IsSeatOf b.new self.now.site }
        ensures a { SeesAlso a.old b.old a.new }
        ensures b { SeesAlso b.old a.old b.new }
        ensures others { LearnsOthers a.old a.new × LearnsOthers b.old b.new }
        ensures same { a.new.seen ≡ b.new.seen }
        ensures done { IsOk result }
    {
        self.turns.meet(a, b)
    }

    // The query, lent to this table alone.
    pub(crate) fn lend<'q>(&self, query: &'q Query) -> LentQuery<'q>
        ensures { result ≡ query.now }
    {
        LentQuery::of(self.alloc, query)
    }

    // Takes one turn, and makes its entry.
    pub(crate) fn turn<C: Clock, R: Wait + Threads + Sync, G: Gate>(
        &self,
        rt: &R,
        seat: &mut Seat,
        turn: Turn,
        gate: &G,
    ) -> TurnAnswer
        requires seat { IsSeatOf seat.old self.now.site }
        requires room { HasRoom seat.old }
        requires may { MayNow (is_founded (base_seen self.now)) (state_seen (base_seen self.now) seat.old) seat.old.id
            turn }
        ensures seat { IsSeatOf seat.new self.now.site }
        ensures made { MadeTurn (name_of self.now) (base_seen self.now) C.now seat.old turn result seat.new }
    {
        let opened = rows_opened(&turn);
        let answer = self
            .turns
            .call::<C, R, G>(rt, seat, turn, gate, self.leaf, self.table);
        self.weigh(opened, &answer);
        answer
    }

    /// An estimate of the rows of the table. It is a hint only.
    pub fn weight(&self) -> u64 {
        self.weight.load(Ordering::SeqCst)
    }

    // Updates the estimate after a turn.
    fn weigh(&self, opened: u64, answer: &TurnAnswer) {
        match answer {
            TurnAnswer::Added { kept, .. } => {
                self.weight.fetch_add(*kept, Ordering::SeqCst);
            }
            TurnAnswer::Removed(rows) => {
                self.weight.fetch_sub(*rows, Ordering::SeqCst);
            }
            TurnAnswer::Closed(_) => self.weight.store(0, Ordering::SeqCst),
            TurnAnswer::Noted if opened > 0 => self.weight.store(opened, Ordering::SeqCst),
            _ => {}
        }
    }

    // Takes one turn. Its entry carries the time of the clock C, which is the berth's.
    fn turn_at<C: Clock, R: Wait + Threads + Sync, B: Berth, G: Gate>(
        &self,
        rt: &R,
        steward: &mut Seat,
        turn: Turn,
        _berth: &B,
        gate: &G,
    ) -> TurnAnswer
        requires seat { IsSeatOf steward.old self.now.site }
        requires steward { IsSteward steward.old }
        requires may { MayNow (is_founded (base_seen self.now)) (state_seen (base_seen self.now) steward.old)
            steward.old.id turn }
        requires clock { C.now ≡ (B.meaning _berth.now).clock }
        ensures seat { IsSeatOf steward.new self.now.site }
        ensures made { MadeTurn (name_of self.now) (base_seen self.now) (B.meaning _berth.now).clock steward.old turn
            result steward.new }
    {
        self.turn::<C, R, G>(rt, steward, turn, gate)
    }

    // Takes one turn of the steward. Its entry carries the berth's clock.
    pub(crate) fn steward_turn<R: Wait + Threads + Sync, B: Berth, G: Gate>(
        &self,
        rt: &R,
        steward: &mut Seat,
        turn: Turn,
        berth: &B,
        gate: &G,
    ) -> TurnAnswer
        requires seat { IsSeatOf steward.old self.now.site }
        requires steward { IsSteward steward.old }
        requires may { MayNow (is_founded (base_seen self.now)) (state_seen (base_seen self.now) steward.old)
            steward.old.id turn }
        ensures seat { IsSeatOf steward.new self.now.site }
        ensures made { MadeTurn (name_of self.now) (base_seen self.now) (B.meaning berth.now).clock steward.old turn
            result steward.new }
    {
        self.turn_at::<Brand, R, B, G>(rt, steward, turn, berth, gate)
    }
}

// The rows of the table that a turn opens; 0 for any other turn.
fn rows_opened(turn: &Turn) -> u64 {
    match turn {
        Turn::Open { table, .. } => table.rows(),
        _ => 0,
    }
}
