// A value that only contracts see. It is picked when it is made, and takes no bytes.

ghost use Rattle.std.specs.Prelude.{◌≡◌, IfOk};

use atomic_table::{Play, Seat, Table, TableRule};
use std::alloc::{AllocError, Global};
use std::marker::{Brand, Model, PhantomData};

/// The value that is picked.
pub trait Pick<B> {
    ghost use Rattle.std.specs.Prelude.{Option};

    ghost value: { Option B };
}

impl<B> Pick<B> for Brand {
    ghost use Rattle.std.specs.Prelude.{None};

    ghost value = { None };
}

// A word that may hold any value. Its first seat knows nothing.
struct Anything;

impl<B> TableRule<(), Option<B>, ()> for Anything {
    ghost use Rattle.std.specs.Prelude.{None};

    ghost holds = { λ _ _. Unit {0} };

    ghost first = { λ _. None };
}

// The load by which a seat learns N's value.
struct Picks<N> {
    of: PhantomData<N>,
}

impl<B, N: Pick<B>> Play<(), Option<B>> for Picks<N> {
    ghost use Rattle.std.specs.Prelude.{◌≡◌};

    ghost then = { λ st m found m'. m'.0 ≡ N.value };
}

/// A token of the value that was picked. It may cross threads, and to drop it is a no-op.
#[derive(Drop)]
pub struct Founding<B> {
    seat: Seat<(), Option<B>>,
}

impl<B> Model for Founding<B> {
    ghost use Rattle.std.specs.Prelude.{Option};

    ghost Value = { Option B };

    ghost view = { λ f. f.seat.me.0 };
}

impl<B> Founding<B> {
    /// The token of N's value. It takes the memory of one word, and gives it back at once. Err if there is none.
    pub fn pick<N: Pick<B>>(alloc: Global) -> Result<Founding<B>, AllocError>
        ensures { IfOk result (λ f. f ≡ N.value) }
    {
        let (table, mut seat) = Table::<(), Option<B>, (), Anything, Global>::of_words(
            alloc,
            &[0],
            &(),
        )?;
        table.shared.load::<Picks<N>>(&mut seat, 0);
        Ok(Founding { seat })
    }
}
