// Deeds of the leaves' stewards.
ghost use Rattle.std.specs.Prelude.{◌≡◌, ◌<◌, ℕ, length};
ghost use Rattle.berth_face.specs.Berth.{Passes};
ghost use Rattle.leaf_table.specs.Lists.{lists_in};
ghost use Rattle.script_text.specs.Commands.{leaf_count};
ghost use Rattle.script_text.specs.Orders.{IsOfTables};
ghost use Rattle.player.specs.Crew.{HasLeaf, column};
ghost use Rattle.player.specs.Rows.{OnlyColumn};
ghost use Rattle.leaf_deeds.specs.Held.{KeepsSeats, berth_of, seats_of, leaf_state};
ghost use Rattle.player.specs.Stage.{IsMember};
ghost use Rattle.player.specs.Members.{AreMembers, SameFleet, fleet_in, holds_in};
ghost use Rattle.player.specs.Commands.{ActsAt, ActsWith, DeedAt, StartsFirst};

use crate::answer::DeedOutcome;
use crate::entries::{deed_lines, joined};
use crate::meet::meet;
use crate::members::Members;
use crate::slots::put;
use berth_face::{Berth, Gate};
use leaf_deeds::OneLeaf;
use leaf_machine::Notes;
use leaf_model::Names;
use leaf_table::Seat;
use printed_lines::{Deed, Line};
use std::alloc::{AllocError, Global};
use std::sync::Wait;
use std::thread::Threads;

impl<'t, B: Berth> Members<'t, B> {
    /// Starts each leaf, one after another.
    pub fn start_all<R: Wait + Threads + Sync, G: Gate>(
        &mut self,
        rt: &R,
        alloc: Global,
        gate: &G,
    ) -> Result<Vec<Line>, AllocError>
        requires members { AreMembers self.old }
        requires held { (leaf : ℕ) → HasLeaf (holds_in self.old) leaf }
        ensures members { AreMembers self.new }
        ensures same { SameFleet self.old self.new }
        ensures starts { StartsFirst B.meaning (leaf_count (fleet_in self.old)) self.old result self.new }
    {
        let mut lines = Ok(Vec::new(alloc));
        for number in 0..self.leaves.len() {
            let more = self.act(rt, alloc, gate, number as u32, Deed::Start);
            lines = joined(lines, None, more);
        }
        lines
    }

    /// Lets a leaf's steward do a deed. Gives its lines; Err if memory for them ran out.
    pub fn act<R: Wait + Threads + Sync, G: Gate>(
        &mut self,
        rt: &R,
        alloc: Global,
        gate: &G,
        number: u32,
        deed: Deed,
    ) -> Result<Vec<Line>, AllocError>
        requires members { AreMembers self.old }
        requires leaf { number < leaf_count (fleet_in self.old) }
        requires held { HasLeaf (holds_in self.old) number }
        requires table { IsOfTables (length self.old.names) deed }
        ensures members { AreMembers self.new }
        ensures same { SameFleet self.old self.new }
        ensures acts { ActsAt B.meaning number deed self.old result self.new }
    {
        let (_answer, lines) = self.deed(rt, alloc, gate, number, deed);
        lines
    }

    /// Lets a leaf's steward do a deed. Gives how it ended, and its lines; Err if memory for them ran out.
    pub fn deed<R: Wait + Threads + Sync, G: Gate>(
        &mut self,
        rt: &R,
        alloc: Global,
        gate: &G,
        number: u32,
        deed: Deed,
    ) -> (DeedOutcome, Result<Vec<Line>, AllocError>)
        requires members { AreMembers self.old }
        requires leaf { number < leaf_count (fleet_in self.old) }
        requires held { HasLeaf (holds_in self.old) number }
        requires table { IsOfTables (length self.old.names) deed }
        ensures members { AreMembers self.new }
        ensures same { SameFleet self.old self.new }
        ensures deed { DeedAt B.meaning number deed self.old result.0 result.1 self.new }
    {
        match self.leaves[number as usize].take() {
            None => unreachable!(),
            Some(leaf) => {
                let (moved, answer, lines) = act_on(
                    rt,
                    alloc,
                    gate,
                    &self.names,
                    number,
                    &mut self.rows,
                    leaf,
                    deed,
                );
                put(&mut self.leaves[number as usize], moved);
                (answer, lines)
            }
        }
    }
}

// Lets a leaf's steward do a deed. All seats of the leaf meet before it and after it.
fn act_on<'t, R: Wait + Threads + Sync, B: Berth, G: Gate>(
    rt: &R,
    alloc: Global,
    gate: &G,
    names: &Names,
    number: u32,
    rows: &mut Vec<Vec<Seat>>,
    leaf: OneLeaf<'t, B>,
    deed: Deed,
) -> (OneLeaf<'t, B>, DeedOutcome, Result<Vec<Line>, AllocError>)
    requires member { IsMember names.now number (seats_of leaf) (lists_in rows.old.items) }
    requires table { IsOfTables (length names.now) deed }
    ensures member { IsMember names.now number (seats_of result.0) (lists_in rows.new.items) }
    ensures keeps { KeepsSeats (seats_of leaf.entry) (seats_of result.0) }
    ensures only { OnlyColumn number (lists_in rows.old.items) (lists_in rows.new.items) }
    ensures acts { ActsWith B.meaning names.now number deed (leaf_state leaf.entry)
        (column number (lists_in rows.old.items)) (berth_of leaf.entry)
        result.1 result.2 (leaf_state result.0) (column number (lists_in rows.new.items)) (berth_of result.0) }
    ensures time { Passes (B.meaning (berth_of leaf.entry)) (B.meaning (berth_of result.0)) }
{
    let mut leaf = leaf;
    meet(rows, number, &mut leaf);
    let mut notes = Notes::new();
    let (mut moved, ending) = leaf.deed(rt, alloc, gate, deed, &mut notes);
    meet(rows, number, &mut moved);
    let answer = DeedOutcome::of(&ending);
    let lines = deed_lines(alloc, number, &notes, deed, ending);
    (moved, answer, lines)
}
