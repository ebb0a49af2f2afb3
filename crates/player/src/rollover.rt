// A rollover of the leaves of a crew.
ghost use Rattle.std.specs.Prelude.{◌≡◌, ◌⊎◌, ◌<◌, ◌≤◌, ℕ, [], length, map, IsErr};
ghost use Rattle.script_text.specs.declared.order.Order.TheVariants.{Rollover};
ghost use Rattle.std.specs.List.{AllByRecursion};
ghost use Rattle.script_text.specs.Commands.{leaf_count};
ghost use Rattle.player.specs.Crew.{AllPass, HasLeaf, PlaysOrder, StillHas};
ghost use Rattle.player.specs.Members.{AreMembers, SameFleet, fleet_in, holds_in};
ghost use Rattle.player.specs.Restarts.{DeedIsDone, IsRestart, MayDo};
ghost use Rattle.player.specs.Rolled.{RollsThrough, wave_lines};

use crate::members::Members;
use crate::restarts::Restarts;
use crate::rolled::{ended, wave_lines};
use berth_face::{Berth, Gate};
use leaf_model::Names;
use printed_lines::{Deed, Line};
use rollover_driver::{Rolled, drive};
use rollover_plan::{Waves, waves};
use rollover_watch::Watch;
use std::alloc::{AllocError, Global};
use std::mem::replace;
use std::sync::Wait;
use std::thread::Threads;

impl<'t, B: Berth> Members<'t, B> {
    /// Drains and starts the leaves, wave by wave, and tells the watches. Err if memory runs out: for the plan, before
    /// any leaf is drained; or only for the lines.
    pub fn rollover<R: Wait + Threads + Sync, G: Gate>(
        &mut self,
        rt: &R,
        alloc: Global,
        gate: &G,
        watches: &mut Vec<Box<dyn Watch>>,
        percent: u32,
    ) -> Result<Vec<Line>, AllocError>
        requires members { AreMembers self.old }
        requires held { (leaf : ℕ) → HasLeaf (holds_in self.old) leaf }
        requires low { 0 < percent }
        requires high { percent ≤ 100 }
        ensures members { AreMembers self.new }
        ensures same { SameFleet self.old self.new }
        ensures plays { PlaysOrder B.meaning (fleet_in self.old) (Rollover percent) (holds_in self.old)
            (map (λ watch. held watch) watches.old.items) result (holds_in self.new)
            (map (λ watch. held watch) watches.new.items)
            ⊎ (IsErr result × (holds_in self.new ≡ holds_in self.old)
            × (map (λ watch. held watch) watches.new.items ≡ map (λ watch. held watch) watches.old.items)) }
        ensures still { StillHas (holds_in self.old) (holds_in self.new) }
        ensures time { AllPass B.meaning (holds_in self.old) (holds_in self.new) }
    {
        let plan = waves(alloc, self.machines, self.per_machine, percent)?;
        let heads = wave_lines(alloc, &plan)?;
        let (rolled, lines) = self.roll(rt, alloc, gate, &plan, heads, watches);
        ended(lines, rolled, &plan, watches.as_slice())
    }

    // Goes through the waves, and gives the lines: those of each wave are its own, `heads`, and those of its deeds.
    fn roll<R: Wait + Threads + Sync, G: Gate>(
        &mut self,
        rt: &R,
        alloc: Global,
        gate: &G,
        plan: &Waves,
        heads: Vec<Line>,
        watches: &mut Vec<Box<dyn Watch>>,
    ) -> (Rolled, Result<Vec<Line>, AllocError>)
        requires members { AreMembers self.old }
        requires held { (leaf : ℕ) → HasLeaf (holds_in self.old) leaf }
        requires few { length plan.now ≤ leaf_count (fleet_in self.old) }
        requires known { AllByRecursion (λ wave. AllByRecursion (λ leaf. leaf < leaf_count (fleet_in self.old)) wave)
            plan.now }
        requires heads { heads.items ≡ wave_lines 1 (length plan.now) plan.now }
        ensures { RollsThrough B.meaning plan.now self.old (map (λ watch. held watch) watches.old.items) result.0
            result.1 self.new (map (λ watch. held watch) watches.new.items) }
    {
        let act = |members: &mut Members<B>, number: u32, deed: Deed|
            requires { MayDo members.old number × IsRestart deed }
            ensures { DeedIsDone B.meaning number deed members.old result members.new }
        { members.deed(rt, alloc, gate, number, deed) };
        let mut fleet = Restarts::of(alloc, self.taken(alloc), heads, &act);
        let rolled = drive(&mut fleet, plan, watches);
        let Restarts {
            leaves,
            lines,
            heads: _,
            draining: _,
            act: _,
        } = fleet;
        self.put_back(leaves);
        (rolled, lines)
    }

    // Takes the leaves out, and leaves none.
    fn taken(&mut self, alloc: Global) -> Members<'t, B>
        ensures taken { result ≡ self.old }
        ensures left { self.new.leaves.items ≡ [] }
    {
        let bare = Members {
            names: Names::of(Vec::new(alloc)),
            machines: 0,
            per_machine: 0,
            tables: self.tables,
            leaves: Vec::new(alloc),
            rows: Vec::new(alloc),
        };
        replace(self, bare)
    }

    // Puts the leaves back.
    fn put_back(&mut self, members: Members<'t, B>)
        requires { self.old.leaves.items ≡ [] }
        ensures { self.new ≡ members.entry }
    {
        let Members {
            names: _,
            machines: _,
            per_machine: _,
            tables: _,
            leaves,
            rows: _,
        } = replace(self, members);
        leaves.destroy_empty();
    }
}
