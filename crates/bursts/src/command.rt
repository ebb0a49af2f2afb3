// An order outside bursts.
ghost use Rattle.std.specs.Prelude.{◌≡◌, IfOk, map};
ghost use Rattle.std.specs.List.{AllByRecursion};
ghost use Rattle.script_text.specs.declared.command.Command.{Command};
ghost use Rattle.script_text.specs.declared.item.Item.TheVariants.{One};
ghost use Rattle.script_text.specs.declared.order.Part.TheVariants.{Leaves};
ghost use Rattle.script_text.specs.Commands.{leaf_count};
ghost use Rattle.script_text.specs.Orders.{IsOrder, part_of};
ghost use Rattle.printed_lines.specs.Lines.{IsOf};
ghost use Rattle.player.specs.Crew.{AllPass, HasAll};
ghost use Rattle.lane_play.specs.Went.{ItemWent, OrNothing, told_lines};

use berth_face::{Berth, Gate};
use player::Crew;
use printed_lines::Line;
use rollover_watch::Watch;
use script_text::Order;
use std::alloc::{AllocError, Global};
use std::sync::Wait;
use std::thread::Threads;

/// Plays an order that is in no burst. Gives its lines; the watches are told of its rollovers. After Err, which is want
/// of memory, all leaves, seats and watches are still back.
pub fn play_one<'t, R: Wait + Threads + Sync, B: Berth, G: Gate>(
    rt: &R,
    alloc: Global,
    gate: &G,
    crew: &mut Crew<'t, B>,
    watches: &mut Vec<Box<dyn Watch>>,
    order: Order,
) -> Result<Vec<Line>, AllocError>
    requires may { IsOrder (leaf_count crew.old.fleet) crew.old.fleet.names order }
    requires all { HasAll crew.old.fleet crew.old.holds }
    ensures went { (c : Command) → part_of c ≡ Leaves order
        → OrNothing (ItemWent B.meaning crew.old.fleet (One c) crew.old.holds
        (map (λ watch. held watch) watches.old.items) (told_lines result) crew.new.holds
        (map (λ watch. held watch) watches.new.items)) crew.old.holds (map (λ watch. held watch) watches.old.items)
        (told_lines result) crew.new.holds (map (λ watch. held watch) watches.new.items) }
    ensures fleet { (crew.new.fleet ≡ crew.old.fleet) × (crew.new.tables ≡ crew.old.tables) }
    ensures all { HasAll crew.new.fleet crew.new.holds }
    ensures time { AllPass B.meaning crew.old.holds crew.new.holds }
    ensures lines_fit { IfOk result (λ lines. AllByRecursion (IsOf crew.old.fleet.names) lines.items) }
{
    crew.play(rt, alloc, gate, watches, order)
}
