// An add, and its rows.
ghost use Rattle.std.specs.Prelude.{◌≡◌, ◌+◌, ◌≤◌, ◌<◌, ◌^◌, IfOk, IfSome, length};
ghost use Rattle.std.specs.List.{AllByRecursion};
ghost use Rattle.row_model.specs.Values.{IsRow};
ghost use Rattle.row_model.specs.declared.limits.TheConstants.{MAX_ROWS};
ghost use Rattle.text_lines.specs.Lines.{lines_of};
ghost use Rattle.script_text.specs.Words.{words_of};
ghost use Rattle.text_lines.specs.Numbers.{number_of};
ghost use Rattle.script_text.specs.Commands.{IsFleet, add_of, leaf_count, row_count, rows_behind, target_words, within};
ghost use Rattle.script_text.specs.Fits.{IsCommand};
ghost use Rattle.script_text.specs.Script.{ParsesAs};

use crate::command::Command;
use crate::fleet::FleetShape;
use crate::row_parts::read_rows;
use crate::target::{target_in, target_words};
use crate::words::number_of;
use leaf_model::{MAX_ROWS, Rows};
use row_model::{ScriptFault, Why, fault_at};
use std::alloc::Global;
use std::thread::Threads;
use text_lines::cut_lines;

/// Reads the words `L T N` of an add on line `number`. Its rows are the next lines of the text.
pub fn add<R: Threads + Sync>(
    rt: &R,
    alloc: Global,
    fleet: &FleetShape,
    words: &[u8],
    number: u64,
    after: &[u8],
) -> Result<Command, ScriptFault>
    requires fleet { IsFleet fleet.now }
    requires place { number + length after.now < 2 ^ 64 }
    ensures exact { ParsesAs (λ c. c) result
        (add_of number fleet.now (target_words (words_of words.now)) (lines_of after.now)) }
    ensures is_command { IfOk result (IsCommand (leaf_count fleet.now) fleet.now.names) }
    ensures enough { IfOk result (λ c. row_count c ≤ length (lines_of after.now)) }
{
    let Some(words) = target_words(words) else {
        return Err(fault_at(number, Why::Words));
    };
    let Some(count) = row_number(words.last) else {
        return Err(fault_at(number, Why::Words));
    };
    let target = target_in(fleet, words.leaf, words.table, number)?;
    let rows = rows_behind(rt, alloc, after, number, count)?;
    Ok(Command::Add {
        leaf: target.leaf,
        table: target.table,
        rows,
    })
}

/// Reads the first `count` lines of a text as rows. `number` is the number of the line before the text.
pub fn rows_behind<R: Threads + Sync>(
    rt: &R,
    alloc: Global,
    after: &[u8],
    number: u64,
    count: u64,
) -> Result<Rows, ScriptFault>
    requires few { count ≤ MAX_ROWS }
    requires place { number + length after.now < 2 ^ 64 }
    ensures exact { ParsesAs (λ rows. rows) result (rows_behind number (lines_of after.now) count) }
    ensures are_rows { IfOk result (AllByRecursion IsRow) }
    ensures count { IfOk result (λ rows. length rows ≡ count) }
    ensures enough { IfOk result (λ _. count ≤ length (lines_of after.now)) }
{
    let Some((lines, _)) = cut_lines(after, count) else {
        return Err(fault_at(number, Why::Short));
    };
    read_rows(rt, alloc, lines, number, count)
}

/// The number of rows that a word gives.
pub fn row_number(word: &[u8]) -> Option<u64>
    ensures exact { result ≡ within 0 100000 (number_of word.now) }
    ensures few { IfSome result (λ count. count ≤ MAX_ROWS) }
{
    let count = number_of(word)?;
    if count <= MAX_ROWS { Some(count) } else { None }
}
