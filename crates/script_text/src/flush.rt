// A flush.
ghost use Rattle.std.specs.Prelude.{◌≡◌, [], IfOk, option_map};
ghost use Rattle.script_text.specs.Words.{words_of};
ghost use Rattle.script_text.specs.Commands.{IsFleet, TargetForm, capped_target, flush_of, flush_words, leaf_count, row_count};
ghost use Rattle.script_text.specs.Fits.{IsCommand};
ghost use Rattle.script_text.specs.Script.{ParsesAs};

use crate::command::Command;
use crate::fleet::FleetShape;
use crate::target::target_in;
use crate::words::{next_word, number_of};
use leaf_model::is_table_name;
use row_model::{ScriptFault, Why, fault_at};

/// The words of a flush. The leaf's number saturates at the greatest `u64`.
#[derive(Clone, Copy)]
struct FlushWords<'a> {
    leaf: u64,
    table: &'a [u8],
}

/// Reads the words of a flush on line `number`.
pub fn flush(fleet: &FleetShape, words: &[u8], number: u64) -> Result<Command, ScriptFault>
    requires { IsFleet fleet.now }
    ensures exact { ParsesAs (λ c. c) result (flush_of number fleet.now (flush_words (words_of words.now))) }
    ensures is_command { IfOk result (IsCommand (leaf_count fleet.now) fleet.now.names) }
    ensures no_rows { IfOk result (λ c. row_count c ≡ 0) }
{
    let Some(flush) = flush_words(words) else {
        return Err(fault_at(number, Why::Words));
    };
    let target = target_in(fleet, flush.leaf, flush.table, number)?;
    Ok(Command::Flush {
        leaf: target.leaf,
        table: target.table,
    })
}

/// The words of `flush L T`.
fn flush_words(words: &[u8]) -> Option<FlushWords>
    ensures exact { option_map {U = TargetForm} (λ flush. record {
      leaf = flush.leaf;
      table = flush.table.now;
      last = [];
    }) result
        ≡ option_map capped_target (flush_words (words_of words.now)) }
{
    let (leaf, rest) = next_word(words)?;
    let (table, rest) = next_word(rest)?;
    if next_word(rest).is_some() {
        return None;
    }
    let leaf = number_of(leaf)?;
    if is_table_name(table) {
        Some(FlushWords { leaf, table })
    } else {
        None
    }
}
