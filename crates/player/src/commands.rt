// Each order of a fleet's leaves.
ghost use Rattle.std.specs.Prelude.{◌≡◌, ◌⊎◌, map, IsErr};
ghost use Rattle.script_text.specs.Commands.{leaf_count};
ghost use Rattle.script_text.specs.Orders.{IsOrder};
ghost use Rattle.player.specs.Crew.{AllPass, HasOrder, PlaysOrder, StillHas};
ghost use Rattle.player.specs.Members.{AreMembers, SameFleet, fleet_in, holds_in};

use crate::members::Members;
use berth_face::{Berth, Gate};
use printed_lines::Line;
use rollover_watch::Watch;
use script_text::Order;
use std::alloc::{AllocError, Global};
use std::sync::Wait;
use std::thread::Threads;

impl<'t, B: Berth> Members<'t, B> {
    /// Plays an order. Gives the lines that it prints; Err if memory ran out.
    pub fn play<R: Wait + Threads + Sync, G: Gate>(
        &mut self,
        rt: &R,
        alloc: Global,
        gate: &G,
        watches: &mut Vec<Box<dyn Watch>>,
        order: Order,
    ) -> Result<Vec<Line>, AllocError>
        requires members { AreMembers self.old }
        requires may { IsOrder (leaf_count (fleet_in self.old)) self.old.names order }
        requires has { HasOrder (fleet_in self.old) (holds_in self.old) order }
        ensures members { AreMembers self.new }
        ensures same { SameFleet self.old self.new }
        ensures plays { PlaysOrder B.meaning (fleet_in self.old) order (holds_in self.old)
            (map (λ watch. held watch) watches.old.items) result (holds_in self.new)
            (map (λ watch. held watch) watches.new.items)
            ⊎ (IsErr result × (holds_in self.new ≡ holds_in self.old)
            × (map (λ watch. held watch) watches.new.items ≡ map (λ watch. held watch) watches.old.items)) }
        ensures still { StillHas (holds_in self.old) (holds_in self.new) }
        ensures time { AllPass B.meaning (holds_in self.old) (holds_in self.new) }
    {
        match order {
            Order::Start => self.start_all(rt, alloc, gate),
            Order::Call {
                leaf,
                table,
                request,
            } => self.call(rt, alloc, gate, leaf, table, request),
            Order::Deed { leaf, deed } => self.act(rt, alloc, gate, leaf, deed),
            Order::Query(query) => self.ask(rt, alloc, gate, &query),
            Order::Tail { key, table, rows } => self.tail(rt, alloc, gate, key, table, &rows),
            Order::Rollover(percent) => self.rollover(rt, alloc, gate, watches, percent),
        }
    }
}
