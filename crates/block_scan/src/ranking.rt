// Sorts slots by their keys. Only speed depends on it: groups out of order are merged.
ghost use Rattle.std.specs.Prelude.{◌≡◌, ◌<◌, map, IfOk};
ghost use Rattle.std.specs.List.{AllByRecursion};
ghost use Rattle.std.specs.List.Sorted.{IsPermutation};
ghost use Rattle.block_scan.specs.declared.slots.Slots.TheVariants.{Found};
ghost use Rattle.block_scan.specs.Decoded.{IsSized};
ghost use Rattle.block_scan.specs.Slots.{IsHeld};

use crate::decoded::Decoded;
use crate::keys_seen::rank_at;
use crate::slots::FoundSlots;
use std::alloc::{AllocError, Global};

/// The most keys that slots are sorted by. Each costs a sort.
const SORTED_KEYS: usize = 4;

/// The rank of a slot's key. A number that no slot has gets the rank of a missing key.
fn rank_of<'a>(
    rows: u32,
    key: &Decoded<'_, 'a>,
    firsts: &[u32],
    slot: usize,
) -> (bool, i64, &'a str)
    requires sized { IsSized rows key.now }
    requires firsts { AllByRecursion (λ first. first < rows) firsts.now }
{
    match firsts.get(slot) {
        Some(first) => rank_at(rows, key, *first),
        None => (false, 0, ""),
    }
}

/// Each slot with the rank of its key and its position.
fn ranked<'a>(
    alloc: Global,
    rows: u32,
    key: &Decoded<'_, 'a>,
    firsts: &[u32],
    slots: &[usize],
) -> Result<Vec<(bool, i64, &'a str, usize, usize)>, AllocError>
    requires sized { IsSized rows key.now }
    requires firsts { AllByRecursion (λ first. first < rows) firsts.now }
    ensures { IfOk result (λ all. map (λ u. u.4) all.items ≡ slots.now) }
{
    let mut all = Vec::with_capacity(alloc, slots.len())?;
    for place in 0..slots.len() {
        let slot = slots[place];
        let (is_there, number, text) = rank_of(rows, key, firsts, slot);
        all.push((is_there, number, text, place, slot))?;
    }
    Ok(all)
}

fn slots_alone(
    alloc: Global,
    all: &[(bool, i64, &str, usize, usize)],
) -> Result<Vec<usize>, AllocError>
    ensures { IfOk result (λ slots. slots.items ≡ map (λ u. u.4) all.now) }
{
    let mut slots = Vec::with_capacity(alloc, all.len())?;
    for one in all {
        slots.push(one.4)?;
    }
    Ok(slots)
}

/// The slots sorted by one key. The sort is stable.
fn slots_by_key(
    alloc: Global,
    rows: u32,
    key: &Decoded,
    firsts: &[u32],
    slots: &[usize],
) -> Result<Vec<usize>, AllocError>
    requires sized { IsSized rows key.now }
    requires firsts { AllByRecursion (λ first. first < rows) firsts.now }
    ensures { IfOk result (λ order. IsPermutation slots.now order.items) }
{
    let mut all = ranked(alloc, rows, key, firsts, slots)?;
    all.sort_unstable();
    slots_alone(alloc, all.as_slice())
}

/// The slots sorted by the first keys, at most 4: a radix sort from the last of these to the first.
pub(crate) fn slots_by_keys(
    alloc: Global,
    rows: u32,
    found: &FoundSlots,
    slots: Vec<usize>,
) -> Result<Vec<usize>, AllocError>
    requires { IsHeld rows (Found found.now) }
    ensures { IfOk result (λ order. IsPermutation slots.items order.items) }
{
    let mut order = slots;
    let count = found.keys.len().min(SORTED_KEYS);
    for i in 0..count {
        let key = &found.keys[count - 1 - i];
        order = slots_by_key(alloc, rows, key, found.firsts.as_slice(), order.as_slice())?;
    }
    Ok(order)
}
