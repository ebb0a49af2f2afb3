// A seat at a turnstile.
ghost use Rattle.std.specs.Prelude.{◌≡◌, ◌+◌, ◌<◌, ◌≤◌, length};
ghost use Rattle.turnstile.specs.Seats.{AreIds};

use crate::object::Object;
use crate::view::SeatToken;
use std::marker::Model;

/// A caller's place at a turnstile: the ids that it owns, and the prefix of the history that it has seen.
#[derive(Drop)]
pub struct Seat<O: Object> {
    pub(crate) place: SeatToken<O>,
    pub(crate) id: u64,
    pub(crate) share: u64,
    pub(crate) seen: u64,
}

impl<O: Object> Model for Seat<O> {
    ghost use Rattle.turnstile.specs.Seats.{SeatStanding};
    ghost use Rattle.turnstile.specs.Places.{standing_of, Kept};

    ghost Value = { SeatStanding O.Base O.Call O.Reply };

    ghost view = { λ s. standing_of s.place };

    ghost invariant = { λ s. Kept s.place s.id s.share s.seen };
}

impl<O: Object> Seat<O> {
    /// The first of the seat's ids, which its calls carry. The steward's is 0.
    pub fn id(&self) -> u64
        ensures { result ≡ self.now.id }
    {
        self.id
    }

    /// The number of ids that the seat owns, from its own on; at least 1.
    pub fn share(&self) -> u64
        ensures all { result ≡ self.now.share }
        ensures has_id { 0 < result }
        ensures within { self.now.id + result ≤ 65537 }
    {
        self.share
    }

    /// The number of the last entry that the seat has seen.
    pub fn seen(&self) -> u64
        ensures number { result ≡ length self.now.seen }
        ensures ids { AreIds self.now.seen }
    {
        self.seen
    }
}
