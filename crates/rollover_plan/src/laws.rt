// The laws of every plan.
ghost use Rattle.std.specs.Prelude.{◌≡◌, ◌<◌, ℕ, List};
ghost use Rattle.rollover_plan.specs.Plan.{IsPlan, RollsEachOnce};

/// There is one plan: the same numbers have the same waves.
pub fn one_plan()
    ensures { (machines per_machine percent : ℕ) (waves others : List (List ℕ))
        → IsPlan machines per_machine percent waves → IsPlan machines per_machine percent others → waves ≡ others }
{}

/// A plan takes each leaf once, no more than the share at a time, and no two of a machine.
pub fn plan_rolls_each_once()
    ensures { (machines per_machine percent : ℕ) (waves : List (List ℕ)) → 0 < machines → 0 < per_machine
        → IsPlan machines per_machine percent waves → RollsEachOnce machines per_machine percent waves }
{}
