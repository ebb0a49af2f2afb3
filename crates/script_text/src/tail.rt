// A tail, and its rows.
ghost use Rattle.std.specs.Prelude.{◌≡◌, ◌+◌, ◌≤◌, ◌<◌, ◌^◌, IfOk, IfSome, length, option_map};
ghost use Rattle.row_model.specs.declared.limits.TheConstants.{MAX_ROWS};
ghost use Rattle.text_lines.specs.Lines.{lines_of};
ghost use Rattle.script_text.specs.Words.{words_of};
ghost use Rattle.script_text.specs.Commands.{IsFleet, TailForm, leaf_count, row_count, tail_of, tail_words};
ghost use Rattle.script_text.specs.Fits.{IsCommand};
ghost use Rattle.script_text.specs.Script.{ParsesAs};

use crate::add::{row_number, rows_behind};
use crate::command::Command;
use crate::fleet::FleetShape;
use crate::target::table_in;
use crate::words::{count_of, next_word};
use leaf_model::is_table_name;
use row_model::{ScriptFault, Why, fault_at};
use std::alloc::Global;
use std::thread::Threads;

/// The words of a tail: its key, the name of its table, and its number of rows.
#[derive(Clone, Copy)]
struct TailWords<'a> {
    key: u64,
    table: &'a [u8],
    rows: u64,
}

/// Reads the words `K T N` of a tail on line `number`. Its rows are the next lines of the text.
pub fn tail<R: Threads + Sync>(
    rt: &R,
    alloc: Global,
    fleet: &FleetShape,
    words: &[u8],
    number: u64,
    after: &[u8],
) -> Result<Command, ScriptFault>
    requires fleet { IsFleet fleet.now }
    requires place { number + length after.now < 2 ^ 64 }
    ensures exact { ParsesAs (λ c. c) result
        (tail_of number fleet.now (tail_words (words_of words.now)) (lines_of after.now)) }
    ensures is_command { IfOk result (IsCommand (leaf_count fleet.now) fleet.now.names) }
    ensures enough { IfOk result (λ c. row_count c ≤ length (lines_of after.now)) }
{
    let Some(words) = tail_words(words) else {
        return Err(fault_at(number, Why::Words));
    };
    let table = table_in(fleet, words.table, number)?;
    let rows = rows_behind(rt, alloc, after, number, words.rows)?;
    Ok(Command::Tail {
        key: words.key,
        table,
        rows,
    })
}

/// The words `K T N`.
fn tail_words(words: &[u8]) -> Option<TailWords>
    ensures exact { option_map {U = TailForm} (λ form. record {
      key = form.key;
      table = form.table.now;
      rows = form.rows;
    }) result ≡ tail_words (words_of words.now) }
    ensures few { IfSome result (λ form. form.rows ≤ MAX_ROWS) }
{
    let (key, rest) = next_word(words)?;
    let (table, rest) = next_word(rest)?;
    let (rows, rest) = next_word(rest)?;
    if next_word(rest).is_some() {
        return None;
    }
    let key = count_of(key)?;
    let rows = row_number(rows)?;
    if is_table_name(table) {
        Some(TailWords { key, table, rows })
    } else {
        None
    }
}
