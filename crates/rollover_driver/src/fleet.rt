// The leaves that a rollover restarts.
ghost use Rattle.std.specs.Prelude.{ℕ, List, [], ◌∷◌, ◌++◌};
ghost use Rattle.rollover_driver.specs.Calls.{FleetCall, Drains, Starts};

use rollover_watch::{Drained, Started};

/// Leaves by number, which can be drained and started. The answer of a call says what it did.
pub trait Fleet {
    /// The precondition of a drain or a start: the fleet has the leaf.
    ghost has: { Self → ℕ → Type 0 };

    /// The relation between the fleet before and after these calls.
    ghost stands: { Self → List FleetCall → Self → Type 0 };

    /// Drains a leaf.
    fn drain(&mut self, leaf: u32) -> Drained
        requires { has self.old leaf }
        ensures same { (other : ℕ) → has self.old other → has self.new other }
        ensures goes { (first : Self) (calls : List FleetCall)
            → stands first calls self.old → stands first (calls ++ Drains leaf result ∷ []) self.new };

    /// Starts a leaf.
    fn start(&mut self, leaf: u32) -> Started
        requires { has self.old leaf }
        ensures same { (other : ℕ) → has self.old other → has self.new other }
        ensures goes { (first : Self) (calls : List FleetCall)
            → stands first calls self.old → stands first (calls ++ Starts leaf result ∷ []) self.new };

    /// After no call it stands so to itself.
    ghost stays: { (fleet : Self) → stands fleet [] fleet };
}
