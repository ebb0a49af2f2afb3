// The leaf that a command names, and the table.
ghost use Rattle.std.specs.Prelude.{◌≡◌, ◌<◌, IfOk, length, option_map};
ghost use Rattle.script_text.specs.Words.{words_of};
ghost use Rattle.script_text.specs.Commands.{IsFleet, TargetForm, capped_target, leaf_in, leaf_count, table_in, target_in, target_words};
ghost use Rattle.script_text.specs.Script.{ParsesAs};

use crate::fleet::FleetShape;
use crate::words::{next_word, number_of, place_of};
use leaf_model::is_table_name;
use row_model::{ScriptFault, Why, fault_at};

/// A leaf, and a table by its place.
#[derive(Clone, Copy)]
pub struct Target {
    pub leaf: u32,
    pub table: u32,
}

/// The words of a command that names a leaf, a table and one more thing. The leaf's number saturates at the greatest
/// `u64`.
#[derive(Clone, Copy)]
pub struct TargetWords<'a> {
    pub leaf: u64,
    pub table: &'a [u8],
    pub last: &'a [u8],
}

/// The words `L T W`.
pub fn target_words(words: &[u8]) -> Option<TargetWords>
    ensures { option_map {U = TargetForm} (λ form. record {
      leaf = form.leaf;
      table = form.table.now;
      last = form.last.now;
    }) result
        ≡ option_map capped_target (target_words (words_of words.now)) }
{
    let (leaf, rest) = next_word(words)?;
    let (table, rest) = next_word(rest)?;
    let (last, rest) = next_word(rest)?;
    if next_word(rest).is_some() {
        return None;
    }
    let leaf = number_of(leaf)?;
    if is_table_name(table) {
        Some(TargetWords { leaf, table, last })
    } else {
        None
    }
}

/// The leaf of this number. An Err says that the fleet does not have it.
pub fn leaf_in(fleet: &FleetShape, leaf: u64, number: u64) -> Result<u32, ScriptFault>
    requires { IsFleet fleet.now }
    ensures exact { ParsesAs (λ leaf. leaf) result (leaf_in number fleet.now leaf) }
    ensures below { IfOk result (λ leaf. leaf < leaf_count fleet.now) }
{
    if leaf >= fleet.leaf_count() as u64 {
        return Err(fault_at(number, Why::Leaf));
    }
    Ok(leaf as u32)
}

/// The leaf of this number and the table of this name. An Err says that the fleet does not have one of them, the leaf
/// first.
pub fn target_in(
    fleet: &FleetShape,
    leaf: u64,
    table: &[u8],
    number: u64,
) -> Result<Target, ScriptFault>
    requires { IsFleet fleet.now }
    ensures exact { ParsesAs (λ target. target) result (target_in number fleet.now leaf table.now) }
    ensures leaf { IfOk result (λ target. target.leaf < leaf_count fleet.now) }
    ensures table { IfOk result (λ target. target.table < length fleet.now.names) }
{
    let leaf = leaf_in(fleet, leaf, number)?;
    let table = table_in(fleet, table, number)?;
    Ok(Target { leaf, table })
}

/// The place of the table of this name. An Err says that the fleet does not have it.
pub fn table_in(fleet: &FleetShape, table: &[u8], number: u64) -> Result<u32, ScriptFault>
    requires { IsFleet fleet.now }
    ensures exact { ParsesAs (λ place. place) result (table_in number fleet.now table.now) }
    ensures below { IfOk result (λ place. place < length fleet.now.names) }
{
    match place_of(fleet.names.as_slice(), table) {
        Some(place) => Ok(place),
        None => Err(fault_at(number, Why::Table)),
    }
}
