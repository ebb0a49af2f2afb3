// Makes the groups of places, slot by slot.
ghost use Rattle.std.specs.Prelude.{◌≡◌, ℕ, ◌<◌, ◌≤◌, List, [], ◌∷◌, length, map, IfOk};
ghost use Rattle.std.specs.List.{AllByRecursion};
ghost use Rattle.row_model.specs.declared.rows.Row.{Row};
ghost use Rattle.leaf_model.specs.Groups.{groups};
ghost use Rattle.group_table.specs.Joined.{IsWithin};
ghost use Rattle.block_scan.specs.Decoded.{IsSized};
ghost use Rattle.block_scan.specs.Slots.{AreInSlots, AreOfAggs, IsHeld, IsKeyed, fold_at, gathered, keys_at, lists_in, slot_at, slots_in};

use crate::decoded::Decoded;
use crate::folding::fold_all;
use crate::joining::join;
use crate::laying::{lay_out, slots_in_order};
use crate::slots::{Slots, keys_of_slot};
use leaf_model::{Group, Groups, Query};
use std::alloc::{AllocError, Global};

fn only(alloc: Global, group: Group) -> Result<Groups, AllocError>
    ensures { IfOk result (λ groups. groups ≡ group ∷ []) }
{
    let mut groups = Vec::with_capacity(alloc, 1)?;
    groups.push(group)?;
    Ok(Groups::of(groups))
}

/// The group of the places in one slot.
fn fold_slot(
    alloc: Global,
    query: &Query,
    rows: u32,
    slots: &Slots,
    decoded: &[Decoded],
    slot: u64,
    places: &[u32],
) -> Result<Groups, AllocError>
    requires held { IsHeld rows slots.now }
    requires sized { AllByRecursion (IsSized rows) decoded.now }
    requires slot { slot < slots_in slots.now }
    requires inside { AllByRecursion (λ place. place < rows) places.now }
    requires few { length places.now ≤ 65536 }
    ensures groups { IfOk result (λ gs. gs
        ≡ record {
          keys = keys_at query.now slots.now slot;
          count = length places.now;
          folds = map (fold_at places.now) decoded.now;
        }
        ∷ []) }
    ensures within { IfOk result (λ gs. AllByRecursion (IsWithin (length places.now)) gs) }
{
    let keys = keys_of_slot(alloc, query, rows, slots, slot)?;
    let folds = fold_all(alloc, rows, decoded, places)?;
    let count = places.len() as u64;
    only(alloc, Group { keys, count, folds })
}

/// The groups of the places in one slot: one, or none if there are no places.
fn fold_list(
    alloc: Global,
    query: &Query,
    rows: u32,
    slots: &Slots,
    decoded: &[Decoded],
    slot: u64,
    places: &[u32],
) -> Result<Groups, AllocError>
    requires held { IsHeld rows slots.now }
    requires sized { AllByRecursion (IsSized rows) decoded.now }
    requires slot { slot < slots_in slots.now }
    requires inside { AllByRecursion (λ place. place < rows) places.now }
    requires same { AllByRecursion (λ place. slot_at slots.now place ≡ slot) places.now }
    requires few { length places.now ≤ 65536 }
    ensures groups { (row : ℕ → Row) → AreOfAggs rows row query.now.aggs decoded.now
        → AllByRecursion (IsKeyed query.now row slots.now) places.now
        → IfOk result (λ gs. gs ≡ groups query.now (map row places.now)) }
    ensures within { IfOk result (λ gs. AllByRecursion (IsWithin (length places.now)) gs) }
{
    if places.is_empty() {
        return Ok(Groups::of(Vec::new(alloc)));
    }
    fold_slot(alloc, query, rows, slots, decoded, slot, places)
}

/// The groups of the places in some slots, in the order of these slots.
fn fold_lists(
    alloc: Global,
    query: &Query,
    rows: u32,
    slots: &Slots,
    decoded: &[Decoded],
    lists: &[Vec<u32>],
    order: &[usize],
) -> Result<Groups, AllocError>
    requires held { IsHeld rows slots.now }
    requires sized { AllByRecursion (IsSized rows) decoded.now }
    requires laid { AreInSlots rows slots.now (lists_in lists.now) }
    requires order { AllByRecursion (λ slot. slot < slots_in slots.now) order.now }
    requires few { length (gathered (lists_in lists.now) order.now) ≤ 65536 }
    ensures groups { (row : ℕ → Row) → AreOfAggs rows row query.now.aggs decoded.now
        → AllByRecursion (IsKeyed query.now row slots.now) (gathered (lists_in lists.now) order.now)
        → IfOk result (λ gs. gs ≡ groups query.now (map row (gathered (lists_in lists.now) order.now))) }
    ensures within { IfOk result (λ gs.
        AllByRecursion (IsWithin (length (gathered (lists_in lists.now) order.now))) gs) }
{
    match order {
        [] => Ok(Groups::of(Vec::new(alloc))),
        [slot] => {
            let places = lists[*slot].as_slice();
            fold_list(alloc, query, rows, slots, decoded, *slot as u64, places)
        }
        _ => {
            let (low, high) = order.split_at(order.len() / 2);
            let front = fold_lists(alloc, query, rows, slots, decoded, lists, low)?;
            let back = fold_lists(alloc, query, rows, slots, decoded, lists, high)?;
            join(alloc, front, back)
        }
    }
}

/// The groups of places, slot by slot.
pub(crate) fn fold_by_slot(
    alloc: Global,
    query: &Query,
    rows: u32,
    slots: &Slots,
    decoded: &[Decoded],
    places: &[u32],
) -> Result<Groups, AllocError>
    requires held { IsHeld rows slots.now }
    requires decoded { AllByRecursion (IsSized rows) decoded.now }
    requires sized { AllByRecursion (λ place. slot_at slots.now place < slots_in slots.now) places.now }
    requires inside { AllByRecursion (λ place. place < rows) places.now }
    requires few { length places.now ≤ 65536 }
    ensures groups { (row : ℕ → Row) → AreOfAggs rows row query.now.aggs decoded.now
        → AllByRecursion (IsKeyed query.now row slots.now) places.now
        → IfOk result (λ gs. gs ≡ groups query.now (map row places.now)) }
    ensures within { IfOk result (λ gs. AllByRecursion (IsWithin (length places.now)) gs) }
{
    let lists = lay_out(alloc, rows, slots, places)?;
    let order = slots_in_order(alloc, rows, slots, lists.as_slice())?;
    fold_lists(
        alloc,
        query,
        rows,
        slots,
        decoded,
        lists.as_slice(),
        order.as_slice(),
    )
}
