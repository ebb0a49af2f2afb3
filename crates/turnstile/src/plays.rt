// What each atomic step tells, and how views split and meet.
use crate::object::Object;
use crate::view::View;
use atomic_table::{Join, Play, Split};
use std::marker::{Brand, PhantomData};

/// The entry that a post makes. Each call picks it.
pub(crate) trait Said<C, R> {
    ghost use Rattle.std.specs.Prelude.{Option};
    ghost use Rattle.turnstile.specs.declared.object.TurnEntry.{TurnEntry};

    ghost entry: { Option (TurnEntry C R) };
}

impl<C, R> Said<C, R> for Brand {
    ghost use Rattle.std.specs.Prelude.{None};

    ghost entry = { None };
}

pub(crate) struct Draw;

impl<O, B, C, R> Play<Option<O>, View<B, C, R>> for Draw {
    ghost use Rattle.turnstile.specs.Plays.{drew};

    ghost then = { drew };
}

pub(crate) struct Look<O> {
    object: PhantomData<O>,
}

impl<O: Object> Play<Option<O>, View<O::Base, O::Call, O::Reply>> for Look<O> {
    ghost use Rattle.turnstile.specs.Plays.{looked};

    ghost then = { looked O.legal O.stands };
}

pub(crate) struct Post<N> {
    said: PhantomData<N>,
}

impl<O, B, C, R, N: Said<C, R>> Play<Option<O>, View<B, C, R>> for Post<N> {
    ghost use Rattle.turnstile.specs.Plays.{posted};

    ghost then = { posted N.entry };
}

pub(crate) struct Leave;

impl<O, B, C, R> Play<Option<O>, View<B, C, R>> for Leave {
    ghost use Rattle.turnstile.specs.Plays.{left};

    ghost then = { left };
}

pub(crate) struct Meet;

impl<O, B, C, R> Play<Option<O>, View<B, C, R>> for Meet {
    ghost use Rattle.turnstile.specs.Plays.{met};

    ghost then = { met };
}

/// The number of ids that a split gives. Each call picks it.
pub(crate) trait Amount {
    ghost use Rattle.std.specs.Prelude.{ℕ};

    ghost amount: { ℕ };
}

impl Amount for Brand {
    ghost amount = { 0 };
}

pub(crate) struct Cut<N> {
    amount: PhantomData<N>,
}

impl<B, C, R, N: Amount> Split<View<B, C, R>> for Cut<N> {
    ghost use Rattle.turnstile.specs.Views.{view_keeps_all_but, view_given};

    ghost left = { view_keeps_all_but N.amount };

    ghost right = { view_given N.amount };
}

pub(crate) struct TakeOver;

impl<B, C, R> Join<View<B, C, R>> for TakeOver {
    ghost use Rattle.turnstile.specs.Views.{view_joined, spent};

    ghost both = { view_joined };

    ghost spent = { spent };
}
