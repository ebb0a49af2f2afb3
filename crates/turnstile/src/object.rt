// An object that is shared by turns, and the entries of its history.
ghost use Rattle.std.specs.Prelude.{ℕ};

use std::marker::Brand;
use std::thread::Threads;

/// One call and its reply. Its number is its place in the history, from 1.
pub struct TurnEntry<C, R> {
    /// The id of the seat that made the call.
    pub by: u64,
    /// The moment that the call's `Clock` names. Contracts alone see it.
    pub clock: u64,
    pub call: C,
    pub reply: R,
}

/// An object that makes one step for each call. Contracts see its calls as the entries of a history.
pub trait Object: Send + Drop {
    type Call;

    type Reply;

    /// The base of each history, fixed when the turnstile is made.
    type Base: Drop;

    ghost use Rattle.turnstile.specs.declared.object.TurnEntry.{TurnEntry};

    /// Which histories are legal from a base.
    ghost legal: { Self.Base → List (TurnEntry Self.Call Self.Reply) → Type 0 };
    /// Which histories a value stands for.
    ghost stands: { Self.Base → List (TurnEntry Self.Call Self.Reply) → Self → Type 0 };
    /// Which call may be made after a history, and by which id.
    ghost may: { Self.Base → List (TurnEntry Self.Call Self.Reply) → ℕ → Self.Call → Type 0 };

    ghost use Rattle.std.specs.Prelude.{ℕ, List};
    ghost use Rattle.std.specs.Thread.{IsSync};
    ghost use Rattle.turnstile.specs.Objects.{MayStep, StepsOnce};

    /// Makes the call, whose entry has this number.
    fn step<R: Threads + Sync>(&mut self, rt: &R, call: Self::Call, number: u64) -> Self::Reply
        requires sync { IsSync R.row }
        requires ready { MayStep legal stands may self.old call number }
        ensures { StepsOnce legal stands may self.old call number result self.new };
}

/// The moment that an entry carries. Contracts alone see it, and each call may pick it.
pub trait Clock {
    ghost now: { ℕ };
}

impl Clock for Brand {
    ghost now = { 0 };
}
