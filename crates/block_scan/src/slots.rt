// Puts places into slots by their keys.
ghost use Rattle.std.specs.Prelude.{◌≡◌, ℕ, ◌<◌, ◌≤◌, List, [], ◌∷◌, length, map, slice_index, slice_index_or, IfOk, IfSome, Some};
ghost use Rattle.std.specs.List.{AllByRecursion};
ghost use Rattle.block_scan.specs.Reads.{IsRead, columns_of, row_of};
ghost use Rattle.leaf_model.specs.declared.groups.Key.TheVariants as key;
ghost use Rattle.leaf_model.specs.Groups.{key_of};
ghost use Rattle.column_bytes.specs.Cells.{entries, no_value};
ghost use Rattle.block_scan.specs.declared.slots.Slots.TheVariants.{Found};
ghost use Rattle.block_scan.specs.Decoded.{IsSized};
ghost use Rattle.block_scan.specs.Keyed.{IsPlaced, keys_seen};
ghost use Rattle.block_scan.specs.Slots.{AreSlots, IsHeld, keys_at, slots_in};

use crate::decoded::{Decoded, EntryCodes, decode};
use crate::guesses::{find_slots, no_guesses};
use crate::keys_seen::{decode_keys, keys_at, own_key};
use crate::narrowing::entry_of;
use crate::reading::ReadColumn;
use column_bytes::ColumnView;
use leaf_model::{Key, Keys, Query, Text};
use std::alloc::{AllocError, Global};

/// The decoded keys, the slot of each place, and the first place of each slot, whose keys all its places have.
#[derive(Drop)]
pub struct FoundSlots<'b, 'a> {
    pub keys: Vec<Decoded<'b, 'a>>,
    pub at: Vec<u32>,
    pub firsts: Vec<u32>,
}

/// How places stand in slots: all in one; each by the code of its text or set; or each in the slot that was found for
/// its keys.
#[derive(Drop)]
pub enum Slots<'b, 'a> {
    Alone,
    Coded(EntryCodes<'b, 'a>),
    Found(FoundSlots<'b, 'a>),
}

/// Finds slots for places by their keys.
fn found_slots<'b, 'a>(
    alloc: Global,
    rows: u32,
    keys: Vec<Decoded<'b, 'a>>,
    places: &[u32],
) -> Result<FoundSlots<'b, 'a>, AllocError>
    requires sized { AllByRecursion (IsSized rows) keys.items }
    requires inside { AllByRecursion (λ place. place < rows) places.now }
    requires few { length places.now ≤ 65536 }
    ensures keys { IfOk result (λ found. found.keys.items ≡ keys.entry.items) }
    ensures held { IfOk result (λ found. IsHeld rows (Found found)) }
    ensures placed { IfOk result (λ found.
        AllByRecursion (IsPlaced keys.entry.items found.firsts.items found.at.items) places.now) }
{
    let mut at = vec![in alloc; 0u32; rows as usize]?;
    let mut guesses = no_guesses(alloc)?;
    let firsts = find_slots(
        alloc,
        rows,
        keys.as_slice(),
        places,
        guesses.as_mut_slice(),
        at.as_mut_slice(),
    )?;
    Ok(FoundSlots { keys, at, firsts })
}

fn only<'b, 'a>(alloc: Global, key: Decoded<'b, 'a>) -> Result<Vec<Decoded<'b, 'a>>, AllocError>
    ensures { IfOk result (λ keys. keys.items ≡ key.entry ∷ []) }
{
    let mut keys = Vec::with_capacity(alloc, 1)?;
    keys.push(key)?;
    Ok(keys)
}

/// Slots for places by the keys of a query. None if there are more than 16 keys, or two columns have the name of one.
pub(crate) fn slots_of<'b, 'a>(
    alloc: Global,
    query: &Query,
    times: &[i64],
    read: &'b [ReadColumn<'a>],
    places: &[u32],
) -> Result<Option<Slots<'b, 'a>>, AllocError>
    requires few { length times.now ≤ 65536 }
    requires read { AllByRecursion (IsRead (length times.now)) read.now }
    requires inside { AllByRecursion (λ place. place < length times.now) places.now }
    requires short { length places.now ≤ 65536 }
    ensures { IfOk result (λ found. IfSome found (λ slots.
        AreSlots query.now (length times.now) (row_of times.now (columns_of read.now)) slots places.now)) }
{
    match query.keys.as_slice() {
        [] => Ok(Some(Slots::Alone)),
        [name] => match decode(alloc, name, times, read)? {
            Some(Decoded::Missing) => Ok(Some(Slots::Alone)),
            Some(Decoded::Codes(codes)) => Ok(Some(Slots::Coded(codes))),
            Some(Decoded::Ints(integers)) => {
                let keys = only(alloc, Decoded::Ints(integers))?;
                let found = found_slots(alloc, times.len() as u32, keys, places)?;
                Ok(Some(Slots::Found(found)))
            }
            None => Ok(None),
        },
        names => match decode_keys(alloc, names, times, read)? {
            Some(keys) => {
                let found = found_slots(alloc, times.len() as u32, keys, places)?;
                Ok(Some(Slots::Found(found)))
            }
            None => Ok(None),
        },
    }
}

fn missing_keys(alloc: Global, names: &[Text]) -> Result<Keys, AllocError>
    ensures { IfOk result (λ keys. keys ≡ map (λ (name : List ℕ). key.Missing) names.now) }
{
    let mut keys = Vec::with_capacity(alloc, names.len())?;
    for _name in names {
        keys.push(Key::Missing)?;
    }
    Ok(Keys::of(keys))
}

fn entry_key(alloc: Global, view: &ColumnView, code: u64) -> Result<Keys, AllocError>
    requires { code < length (entries view.now.book) }
    ensures { IfOk result (λ keys. keys ≡ key_of (Some (slice_index_or (entries view.now.book) code no_value)) ∷ []) }
{
    let key = own_key(alloc, &entry_of(view, code))?;
    let mut keys = Vec::with_capacity(alloc, 1)?;
    keys.push(key)?;
    Ok(Keys::of(keys))
}

fn found_keys(alloc: Global, rows: u32, found: &FoundSlots, slot: u64) -> Result<Keys, AllocError>
    requires held { IsHeld rows (Found found.now) }
    requires slot { slot < slots_in (Found found.now) }
    ensures { IfOk result (λ keys. keys ≡ keys_seen found.now.keys.items (slice_index found.now.firsts.items slot)) }
{
    keys_at(
        alloc,
        rows,
        found.keys.as_slice(),
        found.firsts[slot as usize],
    )
}

/// The keys of a slot.
pub(crate) fn keys_of_slot(
    alloc: Global,
    query: &Query,
    rows: u32,
    slots: &Slots,
    slot: u64,
) -> Result<Keys, AllocError>
    requires held { IsHeld rows slots.now }
    requires slot { slot < slots_in slots.now }
    ensures { IfOk result (λ keys. keys ≡ keys_at query.now slots.now slot) }
{
    match slots {
        Slots::Alone => missing_keys(alloc, query.keys.as_slice()),
        Slots::Coded(found) => {
            if slot == 0 {
                return missing_keys(alloc, query.keys.as_slice());
            }
            entry_key(alloc, found.view, slot - 1)
        }
        Slots::Found(found) => found_keys(alloc, rows, found, slot),
    }
}

/// The number of slots.
pub(crate) fn slots_in(slots: &Slots) -> u64
    ensures { result ≡ slots_in slots.now }
{
    match slots {
        Slots::Alone => 1,
        Slots::Coded(found) => u64::from(found.view.entries()) + 1,
        Slots::Found(found) => found.firsts.len() as u64,
    }
}
