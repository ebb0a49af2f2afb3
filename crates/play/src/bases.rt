// What is known of the berths of a run, by leaf. Only contracts see it.
use std::marker::Brand;

/// The base of each leaf's berth, if it is known: for each table's name the writes that a crash may leave in its log,
/// and how many of them every crash leaves. A leaf with that base may begin over the berth. No program can compute a
/// base: no read tells what a crash would leave.
pub trait Bases {
    ghost use Rattle.std.specs.Prelude.{ℕ, Option};
    ghost use Rattle.crash_moments.specs.Left.{NamedStates};

    ghost base: { ℕ → Option NamedStates };
}

/// No base is known.
impl Bases for Brand {
    ghost use Rattle.std.specs.Prelude.{None};

    ghost base = { λ leaf. None };
}

/// Each berth is empty and was never written: no name has a write.
pub struct EmptyBerths;

impl Bases for EmptyBerths {
    ghost use Rattle.std.specs.Prelude.{Some};
    ghost use Rattle.play.specs.Empty.{nothing_kept};

    ghost base = { λ leaf. Some nothing_kept };
}
