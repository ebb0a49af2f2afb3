// Finds slots for places by a hash table of guesses: places with the same keys share a slot, if a guess finds it.
ghost use Rattle.std.specs.Prelude.{◌≡◌, ◌<◌, ◌≤◌, length, slice_index, IfOk, IfSome};
ghost use Rattle.std.specs.List.{AllByRecursion};
ghost use Rattle.block_scan.specs.Decoded.{IsSized};
ghost use Rattle.block_scan.specs.Keyed.{HasSlot, IsPlaced, keys_seen};

use crate::decoded::Decoded;
use crate::keys_seen::{are_same_keys, mark_at};
use std::alloc::{AllocError, Global};

/// The number of guesses. A guess is a slot, or a number that no slot has.
const GUESSES: u64 = 65_536;

/// The number of guesses that are tried for a place.
const TRIES: u64 = 16;

/// The index of a guess: the first one of the mark, plus `behind`.
fn guess_place(mark: u64, behind: u64) -> usize
    ensures { result < 65536 }
{
    ((mark >> 48).wrapping_add(behind) % GUESSES) as usize
}

/// A slot whose first place has the same keys as this place. None if no guess finds one.
fn guessed(
    rows: u32,
    keys: &[Decoded],
    firsts: &[u32],
    guesses: &[u32],
    mark: u64,
    place: u32,
) -> Option<u32>
    requires sized { AllByRecursion (IsSized rows) keys.now }
    requires firsts { AllByRecursion (λ first. first < rows) firsts.now }
    requires guesses { length guesses.now ≡ 65536 }
    requires place { place < rows }
    ensures { IfSome result (λ slot.
        (slot < length firsts.now) × (keys_seen keys.now place ≡ keys_seen keys.now (slice_index firsts.now slot))) }
{
    for behind in 0..TRIES {
        let slot = guesses[guess_place(mark, behind)];
        match firsts.get(slot as usize) {
            None => return None,
            Some(first) => {
                if are_same_keys(rows, keys, place, *first) {
                    return Some(slot);
                }
            }
        }
    }
    None
}

/// Notes a slot where a guess for this mark looks.
fn note(guesses: &mut [u32], mark: u64, slot: u32)
    requires { length guesses.old ≡ 65536 }
{
    for behind in 0..TRIES {
        let at = guess_place(mark, behind);
        if guesses[at] == u32::MAX {
            guesses[at] = slot;
            return;
        }
    }
    guesses[guess_place(mark, 0)] = slot;
}

/// The slot of a place: one that is there, or a new one.
fn slot_for(
    rows: u32,
    keys: &[Decoded],
    firsts: &mut Vec<u32>,
    guesses: &mut [u32],
    place: u32,
) -> Result<u32, AllocError>
    requires sized { AllByRecursion (IsSized rows) keys.now }
    requires firsts { AllByRecursion (λ first. first < rows) firsts.old.items }
    requires few { length firsts.old.items < 65536 }
    requires guesses { length guesses.old ≡ 65536 }
    requires place { place < rows }
    ensures slot { IfOk result (HasSlot keys.now place firsts.old.items firsts.new.items) }
    ensures firsts { IfOk result (λ _. AllByRecursion (λ first. first < rows) firsts.new.items) }
{
    let mark = mark_at(rows, keys, place);
    if let Some(slot) = guessed(rows, keys, firsts.as_slice(), guesses, mark, place) {
        return Ok(slot);
    }
    let slot = firsts.len() as u32;
    firsts.push(place)?;
    note(guesses, mark, slot);
    Ok(slot)
}

/// An empty table of guesses.
pub(crate) fn no_guesses(alloc: Global) -> Result<Vec<u32>, AllocError>
    ensures { IfOk result (λ guesses. length guesses.items ≡ 65536) }
{
    vec![in alloc; u32::MAX; GUESSES as usize]
}

/// Writes the slot of each of the places into `at`. Gives the first place of each slot.
pub(crate) fn find_slots(
    alloc: Global,
    rows: u32,
    keys: &[Decoded],
    places: &[u32],
    guesses: &mut [u32],
    at: &mut [u32],
) -> Result<Vec<u32>, AllocError>
    requires sized { AllByRecursion (IsSized rows) keys.now }
    requires inside { AllByRecursion (λ place. place < rows) places.now }
    requires few { length places.now ≤ 65536 }
    requires guesses { length guesses.old ≡ 65536 }
    requires at { length at.old ≡ rows }
    ensures firsts { IfOk result (λ firsts. AllByRecursion (λ first. first < rows) firsts.items) }
    ensures placed { IfOk result (λ firsts. AllByRecursion (IsPlaced keys.now firsts.items at.new) places.now) }
{
    let mut firsts = Vec::new(alloc);
    for place in places {
        let slot = slot_for(rows, keys, &mut firsts, guesses, *place)?;
        at[*place as usize] = slot;
    }
    Ok(firsts)
}
