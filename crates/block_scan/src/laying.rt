// Lays places out by slot, and puts the slots that have places into the order of their keys.
ghost use Rattle.std.specs.Prelude.{◌≡◌, ℕ, ◌<◌, ◌^◌, ◌++◌, [], ◌∷◌, length, map, set, if◌then◌else◌, IfOk};
ghost use Rattle.std.specs.List.{AllByRecursion};
ghost use Rattle.std.specs.List.Sorted.{IsPermutation};
ghost use Rattle.block_scan.specs.Slots.{AreLaid, IsHeld, is_used, lists_in, list_at, slot_at, slots_in, used_slots};

use crate::narrowing::entry_of;
use crate::ranking::slots_by_keys;
use crate::slots::{Slots, slots_in};
use column_bytes::ValueRef;
use std::alloc::{AllocError, Global};

/// The slot of a place.
fn slot_of(rows: u32, slots: &Slots, place: u32) -> u64
    requires held { IsHeld rows slots.now }
    requires place { place < rows }
    requires small { slot_at slots.now place < 2 ^ 64 }
    ensures { result ≡ slot_at slots.now place }
{
    match slots {
        Slots::Alone => 0,
        Slots::Coded(found) => {
            if found.present[place as usize] {
                found.codes[place as usize] + 1
            } else {
                0
            }
        }
        Slots::Found(found) => u64::from(found.at[place as usize]),
    }
}

fn empty_lists(alloc: Global, count: u64) -> Result<Vec<Vec<u32>>, AllocError>
    ensures { IfOk result (λ lists. AreLaid (λ i. 0) count [] (lists_in lists.items)) }
{
    let mut lists = Vec::with_capacity(alloc, count as usize)?;
    for _made in 0..count {
        lists.push(Vec::new(alloc))?;
    }
    Ok(lists)
}

fn put(lists: &mut Vec<Vec<u32>>, slot: usize, place: u32) -> Result<(), AllocError>
    requires { slot < length (lists_in lists.old.items) }
    ensures { IfOk result (λ _. lists_in lists.new.items
        ≡ set (lists_in lists.old.items) slot (list_at (lists_in lists.old.items) slot ++ place ∷ [])) }
{
    lists[slot].push(place)?;
    Ok(())
}

/// For each slot its places, ascending.
pub(crate) fn lay_out(
    alloc: Global,
    rows: u32,
    slots: &Slots,
    places: &[u32],
) -> Result<Vec<Vec<u32>>, AllocError>
    requires held { IsHeld rows slots.now }
    requires inside { AllByRecursion (λ place. place < rows) places.now }
    requires sized { AllByRecursion (λ place. slot_at slots.now place < slots_in slots.now) places.now }
    ensures { IfOk result (λ lists.
        AreLaid (slot_at slots.now) (slots_in slots.now) places.now (lists_in lists.items)) }
{
    let mut lists = empty_lists(alloc, slots_in(slots))?;
    for place in places {
        let slot = slot_of(rows, slots, *place);
        put(&mut lists, slot as usize, *place)?;
    }
    Ok(lists)
}

/// The text of a slot's key, or an empty one if it is no text. It decides only the order of the slots, not what they
/// hold.
fn text_of<'a>(slots: &Slots<'_, 'a>, slot: u64) -> &'a str
    requires { slot < slots_in slots.now }
{
    match slots {
        Slots::Alone | Slots::Found(_) => "",
        Slots::Coded(found) => {
            if slot == 0 {
                return "";
            }
            match entry_of(found.view, slot - 1) {
                ValueRef::Text(text) => text,
                ValueRef::Int(_) | ValueRef::Set(_) => "",
            }
        }
    }
}

/// Appends the slot with its text, if it has places.
fn push_used<'a>(
    slots: &Slots<'_, 'a>,
    slot: usize,
    places: &[u32],
    used: &mut Vec<(&'a str, usize)>,
) -> Result<(), AllocError>
    requires { slot < slots_in slots.now }
    ensures { IfOk result (λ _. map (λ u. u.1) used.new.items
        ≡ map (λ u. u.1) used.old.items ++ (if is_used places.now then slot ∷ [] else [])) }
{
    if !places.is_empty() {
        used.push((text_of(slots, slot as u64), slot))?;
    }
    Ok(())
}

/// The slots that have places, each with its text.
fn used_slots<'a>(
    alloc: Global,
    slots: &Slots<'_, 'a>,
    lists: &[Vec<u32>],
) -> Result<Vec<(&'a str, usize)>, AllocError>
    requires { length lists.now ≡ slots_in slots.now }
    ensures { IfOk result (λ used. map (λ u. u.1) used.items ≡ used_slots (lists_in lists.now)) }
{
    let mut used = Vec::new(alloc);
    for slot in 0..lists.len() {
        push_used(slots, slot, lists[slot].as_slice(), &mut used)?;
    }
    Ok(used)
}

fn slots_alone(alloc: Global, used: &[(&str, usize)]) -> Result<Vec<usize>, AllocError>
    ensures { IfOk result (λ slots. slots.items ≡ map (λ u. u.1) used.now) }
{
    let mut slots = Vec::with_capacity(alloc, used.len())?;
    for one in used {
        slots.push(one.1)?;
    }
    Ok(slots)
}

/// The slots that have places, in the order of their texts.
fn slots_by_text(alloc: Global, slots: &Slots, lists: &[Vec<u32>]) -> Result<Vec<usize>, AllocError>
    requires { length lists.now ≡ slots_in slots.now }
    ensures { IfOk result (λ order. IsPermutation (used_slots (lists_in lists.now)) order.items) }
{
    let mut used = used_slots(alloc, slots, lists)?;
    used.sort_unstable();
    slots_alone(alloc, used.as_slice())
}

/// The slots that have places, in the order of their keys.
pub(crate) fn slots_in_order(
    alloc: Global,
    rows: u32,
    slots: &Slots,
    lists: &[Vec<u32>],
) -> Result<Vec<usize>, AllocError>
    requires held { IsHeld rows slots.now }
    requires count { length lists.now ≡ slots_in slots.now }
    ensures { IfOk result (λ order. IsPermutation (used_slots (lists_in lists.now)) order.items) }
{
    let order = slots_by_text(alloc, slots, lists)?;
    match slots {
        Slots::Alone | Slots::Coded(_) => Ok(order),
        Slots::Found(found) => slots_by_keys(alloc, rows, found, order),
    }
}
