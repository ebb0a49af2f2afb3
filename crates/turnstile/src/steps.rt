// The steps of a turn, and of seats that split and meet, on the table itself.
ghost use Rattle.std.specs.Prelude.{◌≡◌, ◌≢◌, ℕ, ◌+◌, ◌<◌, ◌≤◌, ◌^◌, [], ◌∷◌, ◌++◌, length, Some, None, IfOk};
ghost use Rattle.turnstile.specs.declared.object.TurnEntry.{TurnEntry};
ghost use Rattle.turnstile.specs.declared.view.Stage.TheVariants.{Rests, Waits, Inside, Posted};
ghost use Rattle.turnstile.specs.Views.{staged, view_keeps_all_but, view_given, first_view};
ghost use Rattle.turnstile.specs.Plays.{Comes};
ghost use Rattle.turnstile.specs.Objects.{entry_of};
ghost use Rattle.turnstile.specs.Seats.{AreIds, MayCall, HasRoom, Called, Joined, LearnsOthers, SeesAlso};
ghost use Rattle.turnstile.specs.Places.{Fits, standing_of, Rested, Entered};

use crate::object::{Clock, Object};
use crate::plays::{Amount, Cut, Draw, Leave, Look, Meet, Post, Said, TakeOver};
use crate::view::{SeatToken, Start, TurnTable, Turns};
use atomic_table::Table;
use berth_face::Gate;
use crossbeam_utils::Backoff;
use std::alloc::{AllocError, Global};
use std::marker::Brand;
use std::snapshot::Snapshot;
use std::sync::Wait;
use std::thread::Threads;

// Draws a ticket.
fn draw<O: Object>(turns: &Turns<O>, place: &mut SeatToken<O>) -> u64
    requires table { Fits place.old.table_id turns.now.table_id }
    requires rests { (place.old.me.0.stage ≡ Rests) × (0 < place.old.me.0.share) }
    ensures same { place.new.table_id ≡ place.old.table_id }
    ensures view { place.new.me ≡ (staged place.old.me.0 (Waits result), place.old.me.1) }
    ensures room { place.old.me.0.id ≢ 0 → length place.old.me.0.seen < 2 ^ 62
        → place.old.me.0.share ≤ place.old.me.0.room }
    ensures small { result < 2 ^ 63 }
{
    turns.fetch_add::<Draw>(place, 1, 1)
}

// The number of times that a thread spins between two looks, before it sleeps. It does not yield: if others want the
// processor, each yield costs the time that they take, and every later turn waits for that.
const SPINS: u32 = 7;

// Looks until the turn has come, and takes the value. After some looks it sleeps until a turn is passed on.
fn wait<O: Object, R: Wait>(rt: &R, turns: &Turns<O>, place: &mut SeatToken<O>, ticket: u64)
    requires table { Fits place.old.table_id turns.now.table_id }
    requires waits { (place.old.me.0.stage ≡ Waits ticket) × (place.old.me.1 ≡ []) × (place.old.me.0.other ≡ []) }
    ensures same { place.new.table_id ≡ place.old.table_id }
    ensures turn { (b : O.Base) → place.old.me.0.base ≡ Some b
        → Comes O.legal O.stands b place.old.me ticket place.new.me }
{
    let backoff = Backoff::new();
    let mut spins = 0;
    for _ in rt.forever() {
        let serving = turns.load::<Look<O>>(place, 2);
        if serving == ticket {
            return;
        }
        if spins < SPINS {
            backoff.spin();
            spins += 1;
        } else {
            turns.park(rt, 2, (serving % (1 << 32)) as u32);
        }
    }
    unreachable!()
}

// Takes a turn and the value.
fn enter<O: Object, R: Wait>(rt: &R, turns: &Turns<O>, place: &mut SeatToken<O>) -> (u64, O)
    requires table { Fits place.old.table_id turns.now.table_id }
    requires rests { Rested place.old.me }
    requires base { place.old.me.0.base ≡ Some turns.now.key.base }
    requires room { (0 < place.old.me.0.share) × HasRoom (standing_of place.old) }
    ensures same { place.new.table_id ≡ place.old.table_id }
    ensures small { result.0 < 2 ^ 63 }
    ensures turn { Entered O.legal O.stands turns.now.key.base place.old.me.0 result.0 result.1 place.new.me }
{
    let ticket = draw(turns, place);
    wait(rt, turns, place, ticket);
    (ticket, turns.exchange(place, 0, None).unwrap())
}

// Posts the entry that N says. Its parts are for the pick alone.
fn post<O: Object, N: Said<O::Call, O::Reply>>(
    turns: &Turns<O>,
    place: &mut SeatToken<O>,
    ticket: u64,
    _id: u64,
    _call: &Snapshot<O::Call>,
    _reply: &O::Reply,
)
    requires table { Fits place.old.table_id turns.now.table_id }
    requires turn { (place.old.me.0.stage ≡ Inside ticket) × (place.old.me.0.share ≤ place.old.me.0.room)
        × (place.old.me.0.base ≡ Some turns.now.key.base) }
    requires said { (e : TurnEntry O.Call O.Reply) × (N.entry ≡ Some e) × (e.by ≡ place.old.me.0.id)
        × O.legal turns.now.key.base (place.old.me.0.seen ++ e ∷ []) }
    ensures same { place.new.table_id ≡ place.old.table_id }
    ensures posted { (e : TurnEntry O.Call O.Reply) → N.entry ≡ Some e → (room : ℕ)
        × (place.new.me
        ≡ (
          record place.old.me.0 { seen = place.old.me.0.seen ++ e ∷ []; room = room; stage = Posted ticket },
          place.old.me.1,
        ))
        × (room ≤ place.old.me.0.room) × (place.old.me.0.room ≤ room + 1)
        × (length place.old.me.0.seen < 2 ^ 62 → room ≡ place.old.me.0.room) }
    ensures ids { AreIds place.new.me.0.seen }
{
    turns.fetch_add::<Post<N>>(place, 0, 1);
}

// Posts the entry of this call.
fn post_call<O: Object, C: Clock>(
    turns: &Turns<O>,
    place: &mut SeatToken<O>,
    ticket: u64,
    call: &Snapshot<O::Call>,
    reply: &O::Reply,
    id: u64,
)
    requires table { Fits place.old.table_id turns.now.table_id }
    requires turn { (place.old.me.0.stage ≡ Inside ticket) × (place.old.me.0.share ≤ place.old.me.0.room)
        × (place.old.me.0.base ≡ Some turns.now.key.base) }
    requires said { (id ≡ place.old.me.0.id)
        × O.legal turns.now.key.base (place.old.me.0.seen ++ entry_of id C.now call.now.value reply.now ∷ []) }
    ensures same { place.new.table_id ≡ place.old.table_id }
    ensures posted { (room : ℕ)
        × (place.new.me
        ≡ (
          record place.old.me.0 {
            seen = place.old.me.0.seen ++ entry_of id C.now call.now.value reply.now ∷ [];
            room = room;
            stage = Posted ticket;
          },
          place.old.me.1,
        ))
        × (room ≤ place.old.me.0.room) × (place.old.me.0.room ≤ room + 1)
        × (length place.old.me.0.seen < 2 ^ 62 → room ≡ place.old.me.0.room) }
    ensures ids { AreIds place.new.me.0.seen }
{
    post::<O, Brand>(turns, place, ticket, id, call, reply);
}

// Gives the value back, and the turn on.
fn leave<O: Object>(turns: &Turns<O>, place: &mut SeatToken<O>, ticket: u64, value: O)
    requires table { Fits place.old.table_id turns.now.table_id }
    requires turn { (place.old.me.0.stage ≡ Posted ticket) × (place.old.me.0.base ≡ Some turns.now.key.base)
        × (place.old.me.1 ≡ (0, None) ∷ []) }
    requires value { O.stands turns.now.key.base place.old.me.0.seen value }
    requires small { ticket < 2 ^ 63 }
    ensures same { place.new.table_id ≡ place.old.table_id }
    ensures view { place.new.me ≡ (staged place.old.me.0 Rests, []) }
{
    turns.exchange(place, 0, Some(value));
    turns.fetch_add::<Leave>(place, 2, 1);
    // A thread that draws after this look finds the new number, and does not sleep on the old one.
    if turns.peek(1) != ticket + 1 {
        turns.wake_all(2);
    }
}

// Takes one turn: the value comes out, makes its step, its entry is posted, and it goes back.
pub(crate) fn take_turn<O: Object, C: Clock, R: Wait + Threads + Sync, G: Gate>(
    rt: &R,
    turns: &Turns<O>,
    place: &mut SeatToken<O>,
    id: u64,
    call: O::Call,
    gate: &G,
    leaf: u32,
    table: u32,
) -> (O::Reply, u64)
    requires table { Fits place.old.table_id turns.now.table_id }
    requires rests { Rested place.old.me × (id ≡ place.old.me.0.id) }
    requires base { place.old.me.0.base ≡ Some turns.now.key.base }
    requires room { (0 < place.old.me.0.share) × HasRoom (standing_of place.old) }
    requires may { MayCall O.legal O.may turns.now.key.base (standing_of place.old) call }
    ensures rests { Rested place.new.me }
    ensures call { Called O.legal turns.now.key.base C.now
        (standing_of place.old) call result.0 (standing_of place.new) }
    ensures number { result.1 ≡ length place.new.me.0.seen }
    ensures ids { AreIds place.new.me.0.seen }
{
    let (ticket, mut value) = enter(rt, turns, place);
    gate.within(leaf, table);
    let said = Snapshot::of(&call);
    let reply = value.step(rt, call, ticket + 1);
    post_call::<O, C>(turns, place, ticket, &said, &reply, id);
    leave(turns, place, ticket, value);
    (reply, ticket + 1)
}

fn one_slot<O: Object>(alloc: Global, value: O) -> Result<Vec<Option<O>>, AllocError>
    ensures { IfOk result (λ v. v.items ≡ Some value ∷ []) }
{
    let mut slots = Vec::new(alloc);
    slots.push(Some(value))?;
    Ok(slots)
}

// The table with the value at home, and its first seat.
pub(crate) fn lay<O: Object>(
    alloc: Global,
    value: O,
    start: Start<O::Base>,
) -> Result<(TurnTable<O>, SeatToken<O>), AllocError>
    requires share { start.share ≤ 65536 }
    requires value { O.legal start.base [] × O.stands start.base [] value }
    ensures table { IfOk result (λ t.
        (t.0.shared.key ≡ start) × (t.0.shared.table_id.words ≡ 3) × (t.1.table_id ≡ t.0.shared.table_id)) }
    ensures seat { IfOk result (λ t. t.1.me ≡ (first_view start, [])) }
{
    let slots = one_slot(alloc, value)?;
    match Table::new(alloc, &[0, 0, 0], slots, &start) {
        Ok(made) => Ok(made),
        Err(_) => Err(AllocError),
    }
}

// Moves as many of the seat's last ids as N says to a new seat.
fn cut<O: Object, N: Amount>(
    turns: &Turns<O>,
    place: &mut SeatToken<O>,
    _share: u64,
) -> SeatToken<O>
    requires table { Fits place.old.table_id turns.now.table_id }
    requires rests { (place.old.me.0.stage ≡ Rests) × (place.old.me.0.other ≡ []) }
    requires share { N.amount < place.old.me.0.share }
    ensures same { (place.new.table_id ≡ place.old.table_id) × (result.table_id ≡ place.old.table_id) }
    ensures left { place.new.me ≡ (view_keeps_all_but N.amount place.old.me.0, place.old.me.1) }
    ensures right { result.me ≡ (view_given N.amount place.old.me.0, []) }
{
    turns.split_seat::<Cut<N>>(place)
}

// Moves the seat's last `share` ids to a new seat.
pub(crate) fn cut_off<O: Object>(
    turns: &Turns<O>,
    place: &mut SeatToken<O>,
    share: u64,
) -> SeatToken<O>
    requires table { Fits place.old.table_id turns.now.table_id }
    requires rests { (place.old.me.0.stage ≡ Rests) × (place.old.me.0.other ≡ []) }
    requires share { share < place.old.me.0.share }
    ensures same { (place.new.table_id ≡ place.old.table_id) × (result.table_id ≡ place.old.table_id) }
    ensures left { place.new.me ≡ (view_keeps_all_but share place.old.me.0, place.old.me.1) }
    ensures right { result.me ≡ (view_given share place.old.me.0, []) }
{
    cut::<O, Brand>(turns, place, share)
}

// Takes over the ids of another seat, and what it has seen.
pub(crate) fn take_over<O: Object>(turns: &Turns<O>, place: &mut SeatToken<O>, other: SeatToken<O>)
    requires table { Fits place.old.table_id turns.now.table_id × Fits other.table_id turns.now.table_id }
    requires rests { Rested place.old.me × Rested other.me }
    ensures rests { Rested place.new.me }
    ensures joined { Joined (standing_of place.old) (standing_of other) (standing_of place.new) }
    ensures learned { LearnsOthers (standing_of place.old) (standing_of place.new) }
    ensures ids { AreIds place.new.me.0.seen }
{
    turns.join_seat::<TakeOver>(place, other);
    turns.load::<Meet>(place, 0);
}

// Lets the seat `to` see what the seat `from` has seen.
pub(crate) fn tell<O: Object>(turns: &Turns<O>, from: &mut SeatToken<O>, to: &mut SeatToken<O>)
    requires table { Fits from.old.table_id turns.now.table_id × Fits to.old.table_id turns.now.table_id }
    requires rests { Rested from.old.me × Rested to.old.me }
    requires share { 0 < from.old.me.0.share }
    ensures from { (from.new.table_id ≡ from.old.table_id) × (from.new.me ≡ from.old.me) }
    ensures rests { Rested to.new.me }
    ensures told { SeesAlso (standing_of to.old) (standing_of from.old) (standing_of to.new) }
    ensures learned { LearnsOthers (standing_of to.old) (standing_of to.new) }
    ensures ids { AreIds to.new.me.0.seen }
{
    let note = cut_off(turns, from, 0);
    take_over(turns, to, note);
}
