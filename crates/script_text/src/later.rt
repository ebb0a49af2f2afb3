// The commands after the fleet.
ghost use Rattle.std.specs.Prelude.{◌≡◌, ◌≤◌, ◌<◌, ◌+◌, ◌^◌, Some, IfOk, length, option_map};
ghost use Rattle.text_lines.specs.Lines.{lines_of};
ghost use Rattle.script_text.specs.Words.{words_of};
ghost use Rattle.text_lines.specs.Numbers.{capped};
ghost use Rattle.script_text.specs.Commands.{IsFleet, command_of, leaf_of, leaf_count, one_number, row_count};
ghost use Rattle.script_text.specs.Fits.{IsCommand};
ghost use Rattle.script_text.specs.Script.{ParsesAs};

use crate::add::add;
use crate::command::Command;
use crate::drain::drain;
use crate::expire::expire;
use crate::fleet::FleetShape;
use crate::flush::flush;
use crate::keep::keep;
use crate::line_word::CommandWord;
use crate::query::query;
use crate::rollover::rollover;
use crate::tail::tail;
use crate::target::leaf_in;
use crate::words::{next_word, number_of, trimmed};
use row_model::{ScriptFault, Why, fault_at};
use std::alloc::Global;
use std::thread::Threads;

/// Reads a command on line `number`: its first word, the words after it, and its rows, if it has some, from the text
/// that follows.
pub fn command<R: Threads + Sync>(
    rt: &R,
    alloc: Global,
    fleet: &FleetShape,
    word: CommandWord,
    words: &[u8],
    number: u64,
    after: &[u8],
) -> Result<Command, ScriptFault>
    requires fleet { IsFleet fleet.now }
    requires place { number + length after.now < 2 ^ 64 }
    ensures exact { ParsesAs (λ c. c) result (command_of number fleet.now word words.now (lines_of after.now)) }
    ensures is_command { IfOk result (IsCommand (leaf_count fleet.now) fleet.now.names) }
    ensures enough { IfOk result (λ c. row_count c ≤ length (lines_of after.now)) }
{
    match word {
        CommandWord::Add => add(rt, alloc, fleet, words, number, after),
        CommandWord::Expire => expire(fleet, words, number),
        CommandWord::Keep => keep(fleet, words, number),
        CommandWord::Query => query(alloc, fleet, trimmed(words), number),
        CommandWord::Tail => tail(rt, alloc, fleet, words, number, after),
        CommandWord::Flush => flush(fleet, words, number),
        CommandWord::Drain => drain(fleet, words, number),
        CommandWord::Kill => {
            let leaf = leaf_of(fleet, words, number)?;
            Ok(Command::Kill(leaf))
        }
        CommandWord::Start => {
            let leaf = leaf_of(fleet, words, number)?;
            Ok(Command::Start(leaf))
        }
        CommandWord::Rollover => rollover(words, number),
    }
}

/// The leaf of the fleet that the words name. They have to be one word.
fn leaf_of(fleet: &FleetShape, words: &[u8], number: u64) -> Result<u32, ScriptFault>
    requires { IsFleet fleet.now }
    ensures exact { ParsesAs (λ leaf. leaf) result (leaf_of number fleet.now (one_number (words_of words.now))) }
    ensures below { IfOk result (λ leaf. leaf < leaf_count fleet.now) }
{
    match one_number(words) {
        Some(leaf) => leaf_in(fleet, leaf, number),
        None => Err(fault_at(number, Why::Words)),
    }
}

/// The number that the words are. They have to be one word.
pub fn one_number(words: &[u8]) -> Option<u64>
    ensures { result ≡ option_map capped (one_number (words_of words.now)) }
{
    let (word, rest) = next_word(words)?;
    if next_word(rest).is_some() {
        return None;
    }
    number_of(word)
}
