// Meetings of all seats of leaves, and the ids that seats have left.
ghost use Rattle.std.specs.Prelude.{◌≡◌, ◌<◌, ◌≤◌, ℕ, Some, length, slice_get};
ghost use Rattle.leaf_table.specs.Calls.{SeatView};
ghost use Rattle.script_text.specs.Commands.{leaf_count};
ghost use Rattle.leaf_moves.specs.Holds.{AllMeet};
ghost use Rattle.player.specs.Crew.{AllPass, HasLeaf, Spares, StillHas};
ghost use Rattle.player.specs.Members.{AreMembers, SameFleet, fleet_in, holds_in};
ghost use Rattle.player.specs.Lending.{MeetsLeaf};

use crate::meet::meet;
use crate::members::Members;
use crate::slots::put;
use berth_face::Berth;
use leaf_table::Seat;

impl<'t, B: Berth> Members<'t, B> {
    /// Lets the seats of each leaf meet.
    pub fn meet_all(&mut self)
        requires members { AreMembers self.old }
        requires held { (leaf : ℕ) → HasLeaf (holds_in self.old) leaf }
        ensures members { AreMembers self.new }
        ensures same { SameFleet self.old self.new }
        ensures met { AllMeet B.meaning (holds_in self.old) (holds_in self.new) }
        ensures still { StillHas (holds_in self.old) (holds_in self.new) }
        ensures time { AllPass B.meaning (holds_in self.old) (holds_in self.new) }
        ensures spares { (table n : ℕ) → Spares (holds_in self.old) table n → Spares (holds_in self.new) table n }
    {
        for number in 0..self.leaves.len() {
            self.meet_leaf(number as u32);
        }
    }

    /// Lets the seats of leaf `number` meet.
    pub fn meet_leaf(&mut self, number: u32)
        requires members { AreMembers self.old }
        requires leaf { number < leaf_count (fleet_in self.old) }
        requires held { HasLeaf (holds_in self.old) number }
        ensures members { AreMembers self.new }
        ensures same { SameFleet self.old self.new }
        ensures met { MeetsLeaf B.meaning number (holds_in self.old) (holds_in self.new) }
        ensures still { StillHas (holds_in self.old) (holds_in self.new) }
        ensures spares { (table n : ℕ) → Spares (holds_in self.old) table n → Spares (holds_in self.new) table n }
    {
        match self.leaves[number as usize].take() {
            None => unreachable!(),
            Some(leaf) => {
                let mut met = leaf;
                meet(&mut self.rows, number, &mut met);
                put(&mut self.leaves[number as usize], met);
            }
        }
    }

    /// The least number of own ids of the callers' seats at that table.
    pub fn spare(&self, table: u32) -> u64
        ensures { Spares (holds_in self.now) table result }
    {
        if (table as usize) < self.rows.len() {
            least_share(&self.rows[table as usize])
        } else {
            0
        }
    }
}

// The least share of these seats; 0 if there are none.
fn least_share(seats: &[Seat]) -> u64
    ensures { (leaf : ℕ) (s : SeatView) → slice_get seats.now leaf ≡ Some s → result ≤ s.share }
{
    if seats.is_empty() {
        return 0;
    }
    let mut least = u64::MAX;
    for seat in seats {
        least = lesser(least, seat.share());
    }
    least
}

fn lesser(a: u64, b: u64) -> u64
    ensures { (result ≤ a) × (result ≤ b) }
{
    if a < b { a } else { b }
}
