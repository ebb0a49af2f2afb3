// The end of a crew.
ghost use Rattle.std.specs.Prelude.{◌≡◌, ◌+◌, ◌<◌, ◌≤◌, ◌++◌, ◌∷◌, ℕ, List, Option, Some, true, is_some, length, map, slice_get, vec_len, vec_capacity};
ghost use Rattle.leaf_table.specs.Turns.{Shared};
ghost use Rattle.leaf_table.specs.Lists.{lists_in};
ghost use Rattle.leaf_moves.specs.Holds.{Hold, HasMet, berth_in};
ghost use Rattle.leaf_moves.specs.Stage.{Leaf, MeetAll};
ghost use Rattle.leaf_deeds.specs.declared.leaf.OneLeaf.{OneLeaf};
ghost use Rattle.player.specs.Crew.{HasLeaf, column};
ghost use Rattle.player.specs.Rows.{MayMeet, OnlyColumn};
ghost use Rattle.leaf_deeds.specs.Held.{berth_of, seats_of, leaf_state};
ghost use Rattle.player.specs.Stage.{hold_at, own_berth};
ghost use Rattle.player.specs.Members.{AreMembers, holds_in};

use crate::meet::meet;
use crate::members::{Members, put_in};
use berth_face::Berth;
use leaf_deeds::OneLeaf;
use leaf_table::Seat;

impl<'t, B: Berth> Members<'t, B> {
    /// Lets all seats meet a last time, and puts the berths before the others, in the order of the leaves.
    pub fn abandon(self, berths: &mut Vec<B>)
        requires members { AreMembers self }
        requires held { (leaf : ℕ) → HasLeaf (holds_in self) leaf }
        requires room { length (holds_in self) + vec_len berths.old ≤ vec_capacity berths.old }
        ensures met { (leaf : ℕ) (x : Hold B) → slice_get (holds_in self.entry) leaf ≡ Some x → HasMet B.meaning x }
        ensures berths { (own : List B) × (map Some own ≡ map (λ (x : Hold B). berth_in x) (holds_in self.entry))
            × (berths.new.items ≡ own ++ berths.old.items) }
    {
        abandon_all(self.leaves, self.rows, berths);
    }
}

// Gives up one leaf after another, from the last to the first.
fn abandon_all<'t, B: Berth>(
    leaves: Vec<Option<OneLeaf<'t, B>>>,
    rows: Vec<Vec<Seat>>,
    berths: &mut Vec<B>,
)
    requires few { length leaves.items ≤ 256 }
    requires held { (leaf : ℕ) (x : Option (OneLeaf B)) → slice_get leaves.items leaf ≡ Some x → is_some x ≡ true }
    requires may { (leaf : ℕ) (x : OneLeaf B) → slice_get leaves.items leaf ≡ Some (Some x)
        → MayMeet leaf (seats_of x) (lists_in rows.items) }
    requires room { length leaves.items + vec_len berths.old ≤ vec_capacity berths.old }
    ensures met { (tables : List (List Shared)) (leaf : ℕ) (x : OneLeaf B)
        → slice_get leaves.entry.items leaf ≡ Some (Some x)
        → HasMet B.meaning (hold_at leaf tables (lists_in rows.items) (Some x)) }
    ensures berths { (own : List B) × (map Some own ≡ map own_berth leaves.entry.items)
        × (berths.new.items ≡ own ++ berths.old.items) }
{
    let mut leaves = leaves;
    let mut rows = rows;
    while let Some(slot) = leaves.pop() {
        match slot {
            None => unreachable!(),
            Some(leaf) => abandon_one(&mut rows, leaves.len() as u32, leaf, berths),
        }
    }
    leaves.destroy_empty();
}

// Lets the seats of leaf `number` meet, and puts its berth before the others.
fn abandon_one<'t, B: Berth>(
    rows: &mut Vec<Vec<Seat>>,
    number: u32,
    leaf: OneLeaf<'t, B>,
    berths: &mut Vec<B>,
)
    requires may { MayMeet number (seats_of leaf) (lists_in rows.old.items) }
    requires room { vec_len berths.old < vec_capacity berths.old }
    ensures met { (then : Leaf) × MeetAll (leaf_state leaf.entry) (column number (lists_in rows.old.items)) then
        (column number (lists_in rows.new.items)) (B.meaning (berth_of leaf.entry)) }
    ensures only { OnlyColumn number (lists_in rows.old.items) (lists_in rows.new.items) }
    ensures berths { berths.new.items ≡ berth_of leaf.entry ∷ berths.old.items }
    ensures len { vec_len berths.new ≡ vec_len berths.old + 1 }
    ensures room { vec_capacity berths.new ≡ vec_capacity berths.old }
{
    let mut leaf = leaf;
    meet(rows, number, &mut leaf);
    put_in(berths, 0, leaf.abandon());
}
