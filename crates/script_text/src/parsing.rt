// A script from its text.
ghost use Rattle.std.specs.Prelude.{◌≡◌, ◌+◌, ◌<◌, ◌≤◌, ◌^◌, Ok, Err, IfOk, IfErr, IfSome, option_map, length, drop};
ghost use Rattle.text_lines.specs.Lines.{lines_of};
ghost use Rattle.script_text.specs.Commands.{IsFleet};
ghost use Rattle.script_text.specs.Fits.{IsScript};
ghost use Rattle.script_text.specs.Script.{NumberedLine, begun, closed, read_from, script_of, IfAt, ParsesAs, next_line};

use crate::command::Command;
use crate::fleet::{FleetShape, first_command};
use crate::item::{Item, Items};
use crate::reading::{Position, Reading, read_line};
use crate::script::Script;
use row_model::{ScriptFault, Why, fault_at};
use std::alloc::{AllocError, Global};
use std::thread::Threads;
use text_lines::{cut_line, cut_lines, is_skipped, line_count, without_return};

/// A line that may be a command, its number from 1, and the text after it.
#[derive(Clone, Copy)]
struct ScriptLine<'a> {
    number: u64,
    bytes: &'a [u8],
    after: &'a [u8],
}

/// Reads a text as a script, or gives the first line that has a fault. NoMemory may come at any line.
pub fn parse<R: Threads + Sync>(rt: &R, alloc: Global, text: &[u8]) -> Result<Script, ScriptFault>
    ensures parsed { IfOk result (λ script. script_of text.now ≡ Ok script) }
    ensures refused { IfErr result (λ fault. IfAt fault (λ line why. script_of text.now ≡ Err (line, why))) }
    // The script that was read is valid.
    ensures fits { IfOk result IsScript }
{
    let Some(first) = next_line(text, 0) else {
        return Ok(Script {
            fleet_line: 0,
            items: Items::of(Vec::new(alloc)),
            standings: 0,
        });
    };
    let fleet = first_command(alloc, first.bytes, first.number)?;
    script_behind(
        rt,
        alloc,
        &fleet,
        line_count(text),
        first.number,
        first.after,
    )
}

/// Reads the script that begins with this fleet, on line `fleet_line`. The text follows the fleet, and its last line
/// has the number `last`.
fn script_behind<R: Threads + Sync>(
    rt: &R,
    alloc: Global,
    fleet: &FleetShape,
    last: u64,
    fleet_line: u64,
    text: &[u8],
) -> Result<Script, ScriptFault>
    requires fleet { IsFleet fleet.now }
    requires place { fleet_line + length text.now < 2 ^ 64 }
    ensures exact { ParsesAs (λ script. script) result
        (read_from last fleet.now 0 (fleet_line + 1) (begun fleet_line fleet.now) (lines_of text.now)) }
    ensures fits { IfOk result IsScript }
{
    let mut reading = begun(alloc, fleet, fleet_line)?;
    let mut rest = text;
    let mut last_line = fleet_line;
    while let Some(line) = next_line(rest, last_line) {
        let step = read_line(
            rt,
            alloc,
            fleet,
            last,
            reading,
            line.bytes,
            line.number,
            line.after,
        )?;
        rest = behind_rows(line.after, step.rows);
        last_line = line.number + step.rows;
        reading = step.reading;
    }
    closed(last, reading)
}

/// The reading after the fleet's line, before the lines after it.
fn begun(alloc: Global, fleet: &FleetShape, fleet_line: u64) -> Result<Reading, AllocError>
    ensures { IfOk result (λ reading. reading ≡ begun fleet_line fleet.now) }
{
    let mut items = Vec::new(alloc);
    items.push(Item::One(Command::Fleet {
        machines: fleet.machines,
        per_machine: fleet.per_machine,
        tables: fleet.names.copy()?,
    }))?;
    let script = Script {
        fleet_line,
        items: Items::of(items),
        standings: 0,
    };
    Ok(Reading {
        script,
        position: Position::Outside,
    })
}

/// The script, if the last line leaves no burst open.
fn closed(last: u64, reading: Reading) -> Result<Script, ScriptFault>
    ensures exact { ParsesAs (λ script. script) result (closed last reading.script reading.position) }
{
    match reading.position {
        Position::Outside => Ok(reading.script),
        Position::Opened | Position::Lane { .. } => Err(fault_at(last, Why::Place)),
    }
}

/// The text after its first `count` lines.
fn behind_rows(text: &[u8], count: u64) -> &[u8]
    requires { count ≤ length (lines_of text.now) }
    ensures lines { lines_of result.now ≡ drop count (lines_of text.now) }
    ensures shorter { count + length result.now ≤ length text.now }
{
    match cut_lines(text, count) {
        Some((_, rest)) => rest,
        None => unreachable!(),
    }
}

/// The first line that may be a command. `lines_before` is the number of lines before the text.
fn next_line(text: &[u8], lines_before: u64) -> Option<ScriptLine>
    requires { lines_before + length text.now < 2 ^ 64 }
    ensures exact { option_map {U = NumberedLine} (λ line. record {
      number = line.number;
      bytes = line.bytes.now;
      after = lines_of line.after.now;
    }) result
        ≡ next_line (lines_before + 1) (lines_of text.now) }
    ensures place { IfSome result (λ line. line.number + length line.after.now ≤ lines_before + length text.now) }
    ensures shorter { IfSome result (λ line. length line.after.now < length text.now) }
{
    let mut rest = text;
    let mut number = lines_before;
    while !rest.is_empty() {
        let (piece, after) = cut_line(rest);
        number += 1;
        rest = after;
        let bytes = without_return(piece);
        if !is_skipped(bytes) {
            return Some(ScriptLine {
                number,
                bytes,
                after,
            });
        }
    }
    None
}
