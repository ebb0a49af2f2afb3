// The leaves of a fleet that a crew holds, and the callers' seats.
ghost use Rattle.std.specs.Prelude.{◌≡◌, ◌+◌, ◌<◌, ◌≤◌, vec_len, vec_capacity};
ghost use Rattle.std.specs.List.{insert};

use crate::restarts::RestartLeaves;
use berth_face::Berth;
use leaf_deeds::OneLeaf;
use leaf_model::Names;
use leaf_table::{FleetTables, Seat};

/// The leaves of a fleet that this player holds, and for each table a row with a callers' seat, or nothing, at each
/// leaf. It borrows the tables.
#[derive(Drop)]
pub struct Members<'t, B: Berth> {
    pub names: Names,
    pub machines: u32,
    pub per_machine: u32,
    pub tables: &'t FleetTables,
    pub leaves: Vec<Option<OneLeaf<'t, B>>>,
    pub rows: Vec<Vec<Seat>>,
}

impl<'t, B: Berth> RestartLeaves for Members<'t, B> {
    ghost use Rattle.player.specs.Restarts.{DeedIsDone, MayDo};

    ghost may = { λ x leaf. MayDo x leaf };

    ghost did = { λ x leaf deed result y. DeedIsDone B.meaning leaf deed x result y };
}

/// Inserts an item at `place`. There is room for it.
pub fn put_in<T>(items: &mut Vec<T>, place: usize, item: T)
    requires place { place ≤ vec_len items.old }
    requires room { vec_len items.old < vec_capacity items.old }
    ensures items { items.new.items ≡ insert items.old.items place item }
    ensures len { vec_len items.new ≡ vec_len items.old + 1 }
    ensures room { vec_capacity items.new ≡ vec_capacity items.old }
{
    match items.insert(place, item) {
        Ok(()) => {}
        Err(_) => unreachable!(),
    }
}
