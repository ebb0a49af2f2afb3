// What each seat knows, and the rule of the table. Word 0 is the number of entries, word 1 the next ticket, and word 2
// the ticket that is served. The slot has the value. These types are specification only: of them `Start` alone is ever
// constructed.
use crate::object::{Object, TurnEntry};
use atomic_table::{Seat, Shared, Table, TableRule};
use std::alloc::Global;
use std::collections::LinkedList;
use std::marker::PhantomData;

/// How far a seat's turn has come, with its ticket.
pub enum Stage {
    Rests,
    Waits(u64),
    Inside(u64),
    Posted(u64),
}

/// The knowledge of a seat.
pub struct View<B, C, R> {
    pub base: Option<B>,
    /// The prefix of the history that the seat has seen.
    pub seen: LinkedList<TurnEntry<C, R>>,
    /// The prefix that a seat had seen which was joined to this one, until the next look at the number of entries.
    pub other: LinkedList<TurnEntry<C, R>>,
    pub id: u64,
    pub share: u64,
    /// The ids that it took over. A clause reads an array as a list, of any length.
    pub taken: [u64; 0],
    /// Those of them that it had before the last time that it took over another seat's.
    pub older: [u64; 0],
    /// The number of entries after the 2^62nd that it may still make.
    pub room: u64,
    pub stage: Stage,
}

/// The arguments that a table is made with.
#[derive(Drop)]
pub struct Start<B> {
    pub base: B,
    pub share: u64,
}

/// The rule.
pub struct InTurn<O> {
    object: PhantomData<O>,
}

impl<O: Object> TableRule<Option<O>, View<O::Base, O::Call, O::Reply>, Start<O::Base>>
    for InTurn<O> {
    ghost use Rattle.turnstile.specs.Rule.{Turned};
    ghost use Rattle.turnstile.specs.Views.{first_view};

    ghost holds = { λ key s. Turned O.legal O.stands key.base s };

    ghost first = { first_view };
}

/// The table as threads see it.
pub type Turns<O: Object> = Shared<
    Option<O>,
    View<O::Base, O::Call, O::Reply>,
    Start<O::Base>,
    InTurn<O>,
>;

/// A seat's token in it.
pub type SeatToken<O: Object> = Seat<Option<O>, View<O::Base, O::Call, O::Reply>>;

/// The table as its owner has it.
pub type TurnTable<O: Object> = Table<
    Option<O>,
    View<O::Base, O::Call, O::Reply>,
    Start<O::Base>,
    InTurn<O>,
    Global,
>;
