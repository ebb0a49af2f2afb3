// A token of what is known of berths. Only contracts see what; a proof chooses it when the token is made.
ghost use Rattle.std.specs.Prelude.{◌≡◌, List, Option, IfOk};
ghost use Rattle.play_again.specs.Keeping.{KeptName};

use atomic_table::{Play, Seat, Table, TableRule};
use std::alloc::{AllocError, Global};
use std::marker::{Brand, Model, PhantomData};

/// For each leaf's berth its base, if that is known: for each name its writes, and how many of them every crash leaves.
/// Specification only, never constructed.
pub struct KeptTables {
    nothing: u8,
}

impl Model for KeptTables {
    ghost use Rattle.std.specs.Prelude.{List, Option, []};
    ghost use Rattle.play_again.specs.Keeping.{KeptName};

    ghost Value = { List (Option (List KeptName)) };

    ghost view = { λ _. [] };
}

/// The values that a token may stand for.
pub trait Choice {
    ghost use Rattle.std.specs.Prelude.{List, Option};
    ghost use Rattle.play_again.specs.Keeping.{KeptName};

    ghost fits: { List (Option (List KeptName)) → Type 0 };
}

impl Choice for Brand {
    ghost fits = { λ _. Unit {0} };
}

// A word that may hold any value. Its first seat knows nothing.
struct Anything;

impl TableRule<(), KeptTables, ()> for Anything {
    ghost use Rattle.std.specs.Prelude.{[]};

    ghost holds = { λ _ _. Unit {0} };

    ghost first = { λ _. [] };
}

// The load by which a seat learns a value that fits.
struct Chooses<N> {
    of: PhantomData<N>,
}

impl<N: Choice> Play<(), KeptTables> for Chooses<N> {
    ghost then = { λ st m found m'. N.fits m'.0 };
}

/// A token of what is known of berths: for each of the first ones its base, as a list, or nothing. To drop it is a
/// no-op.
#[derive(Drop)]
pub struct KnownBerths {
    seat: Seat<(), KeptTables>,
}

impl Model for KnownBerths {
    ghost use Rattle.std.specs.Prelude.{List, Option};
    ghost use Rattle.play_again.specs.Keeping.{KeptName};

    ghost Value = { List (Option (List KeptName)) };

    ghost view = { λ known. known.seat.me.0 };
}

impl KnownBerths {
    /// Makes a token of a value that fits, if there is one. It takes the memory of one word, and gives it back at once.
    /// Err if there is none.
    pub fn choose<N: Choice>(alloc: Global) -> Result<KnownBerths, AllocError>
        requires { (known : List (Option (List KeptName))) × N.fits known }
        ensures { IfOk result (λ known. N.fits known) }
    {
        let (table, mut seat) = Table::<(), KeptTables, (), Anything, Global>::of_words(
            alloc,
            &[0],
            &(),
        )?;
        table.shared.load::<Chooses<N>>(&mut seat, 0);
        Ok(KnownBerths { seat })
    }
}
