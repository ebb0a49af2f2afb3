// What was read of a script, and what the next line does to it.
ghost use Rattle.std.specs.Prelude.{◌≡◌, ◌+◌, ◌++◌, ◌<◌, ◌≤◌, ◌^◌, [], ◌∷◌, IfOk, length};
ghost use Rattle.script_text.specs.declared.fleet.FleetShape.{FleetShape};
ghost use Rattle.script_text.specs.declared.reading.Position.TheVariants as position;
ghost use Rattle.text_lines.specs.Lines.{lines_of};
ghost use Rattle.script_text.specs.Commands.{IsFleet, command_of, row_count, standing_of};
ghost use Rattle.script_text.specs.Bursts.{fault_inside, next_burst, next_lane, end_burst, lane_more, standing_more, step_of, stepped, line_at, with_item, with_standing};
ghost use Rattle.script_text.specs.Readings.{IsReading};
ghost use Rattle.script_text.specs.Script.{ParsesAs};

use crate::command::{Command, Commands};
use crate::earlier::EarlierLanes;
use crate::fleet::FleetShape;
use crate::item::{Item, Items};
use crate::later::command;
use crate::line_word::{CommandWord, LineWord, line_word_of};
use crate::script::Script;
use crate::standing::{standing, tell};
use crate::words::cut_word;
use row_model::{ScriptFault, Why, fault_at};
use std::alloc::{AllocError, Global};
use std::thread::Threads;
use text_lines::is_blank;

/// The most lanes of a burst.
const MAX_LANES: usize = 16;

/// The place of a line: outside bursts or in one.
#[derive(Drop)]
pub enum Position {
    Outside,
    /// In a burst, before its first lane.
    Opened,
    /// In the latest lane of a burst.
    Lane {
        earlier: EarlierLanes,
        lane: Commands,
    },
}

/// The script that was read so far, and the place of the next line.
#[derive(Drop)]
pub struct Reading {
    pub script: Script,
    pub position: Position,
}

/// The reading after a line, and the number of lines after it that are its rows.
#[derive(Drop)]
pub struct LineRead {
    pub reading: Reading,
    pub rows: u64,
}

/// A line with a command: its number, its first word, the words after that, and the text after the line.
#[derive(Clone, Copy)]
struct LineWords<'a> {
    number: u64,
    word: LineWord,
    words: &'a [u8],
    after: &'a [u8],
}

/// Reads line `number`, which the text follows. The text's last line has the number `last`.
pub fn read_line<'a, R: Threads + Sync>(
    rt: &R,
    alloc: Global,
    fleet: &FleetShape,
    last: u64,
    reading: Reading,
    bytes: &'a [u8],
    number: u64,
    after: &'a [u8],
) -> Result<LineRead, ScriptFault>
    requires fleet { IsFleet fleet.now }
    requires place { number + length after.now < 2 ^ 64 }
    requires reading { IsReading fleet.now reading }
    ensures exact { ParsesAs (λ step. step) result
        (step_of last number fleet.now reading bytes.now (lines_of after.now)) }
    ensures is_reading { IfOk result (λ step. IsReading fleet.now step.reading) }
    ensures enough { IfOk result (λ step. step.rows ≤ length (lines_of after.now)) }
{
    let (first, words) = cut_word(bytes);
    let Some(word) = line_word_of(first) else {
        return Err(fault_at(number, Why::Command));
    };
    let line = LineWords {
        number,
        word,
        words,
        after,
    };
    let Reading { script, position } = reading;
    match position {
        Position::Outside => outside(rt, alloc, fleet, last, script, &line),
        Position::Opened => opened(alloc, last, script, &line),
        Position::Lane { earlier, lane } => in_lane(
            rt, alloc, fleet, last, script, earlier, lane, &line,
        ),
    }
}

/// Reads a line outside bursts.
fn outside<R: Threads + Sync>(
    rt: &R,
    alloc: Global,
    fleet: &FleetShape,
    last: u64,
    script: Script,
    line: &LineWords,
) -> Result<LineRead, ScriptFault>
    requires fleet { IsFleet fleet.now }
    requires place { line.now.number + length line.now.after.now < 2 ^ 64 }
    requires reading { IsReading fleet.now (record { script = script; position = position.Outside }) }
    ensures exact { ParsesAs (λ step. step) result (line_at last line.now.number fleet.now script position.Outside
        line.now.words.now (lines_of line.now.after.now) line.now.word) }
    ensures is_reading { IfOk result (λ step. IsReading fleet.now step.reading) }
    ensures enough { IfOk result (λ step. step.rows ≤ length (lines_of line.now.after.now)) }
{
    match line.word {
        LineWord::Fleet | LineWord::Lane | LineWord::End => Err(fault_at(line.number, Why::Place)),
        LineWord::Burst => match next_burst(line.number, script, line.words) {
            Ok(step) => Ok(step),
            Err(fault) => Err(fault_inside(last, fault)),
        },
        LineWord::Standing => standing_outside(alloc, fleet, script, line),
        LineWord::Tell => {
            let command = tell(script.standings, line.words, line.number)?;
            let script = with_item(script, Item::One(command))?;
            Ok(stepped(script, Position::Outside, 0))
        }
        LineWord::Command(word) => {
            let command = command(rt, alloc, fleet, word, line.words, line.number, line.after)?;
            let rows = row_count(&command);
            let script = with_item(script, Item::One(command))?;
            Ok(stepped(script, Position::Outside, rows))
        }
    }
}

/// Reads a standing query outside bursts.
#[tactic(auto, using(crate::proofs::Keeps::standing_outside_keeps))]
fn standing_outside(
    alloc: Global,
    fleet: &FleetShape,
    script: Script,
    line: &LineWords,
) -> Result<LineRead, ScriptFault>
    requires fleet { IsFleet fleet.now }
    requires reading { IsReading fleet.now (record { script = script; position = position.Outside }) }
    ensures exact { ParsesAs (λ step. step) result
        (standing_more script (standing_of line.now.number fleet.now script.standings line.now.words.now)) }
    ensures is_reading { IfOk result (λ step. IsReading fleet.now step.reading) }
    ensures no_rows { IfOk result (λ step. step.rows ≡ 0) }
{
    let command = standing(alloc, fleet, script.standings, line.words, line.number)?;
    let script = with_standing(script, command)?;
    Ok(stepped(script, Position::Outside, 0))
}

/// Reads a line of a burst before its first lane.
fn opened(
    alloc: Global,
    last: u64,
    script: Script,
    line: &LineWords,
) -> Result<LineRead, ScriptFault>
    ensures exact { (fleet : FleetShape)
        → ParsesAs (λ step. step) result (line_at last line.now.number fleet script position.Opened line.now.words.now
        (lines_of line.now.after.now) line.now.word) }
    ensures no_rows { IfOk result (λ step. step.rows ≡ 0) }
{
    match line.word {
        LineWord::Fleet
        | LineWord::Burst
        | LineWord::End
        | LineWord::Standing
        | LineWord::Tell
        | LineWord::Command(_) => Err(fault_at(line.number, Why::Place)),
        LineWord::Lane => {
            let lanes = EarlierLanes::new(alloc);
            match next_lane(alloc, line.number, script, lanes, line.words) {
                Ok(step) => Ok(step),
                Err(fault) => Err(fault_inside(last, fault)),
            }
        }
    }
}

/// Reads a line of a burst's lane, after the earlier lanes.
fn in_lane<R: Threads + Sync>(
    rt: &R,
    alloc: Global,
    fleet: &FleetShape,
    last: u64,
    script: Script,
    earlier: EarlierLanes,
    lane: Commands,
    line: &LineWords,
) -> Result<LineRead, ScriptFault>
    requires fleet { IsFleet fleet.now }
    requires place { line.now.number + length line.now.after.now < 2 ^ 64 }
    requires reading { IsReading fleet.now (record { script = script; position = position.Lane earlier lane }) }
    ensures exact { ParsesAs (λ step. step) result
        (line_at last line.now.number fleet.now script (position.Lane earlier lane) line.now.words.now
        (lines_of line.now.after.now) line.now.word) }
    ensures is_reading { IfOk result (λ step. IsReading fleet.now step.reading) }
    ensures enough { IfOk result (λ step. step.rows ≤ length (lines_of line.now.after.now)) }
{
    match line.word {
        LineWord::Fleet | LineWord::Burst | LineWord::Standing | LineWord::Tell => {
            Err(fault_at(line.number, Why::Place))
        }
        LineWord::Lane => {
            let lanes = earlier.with_lane(lane)?;
            match next_lane(alloc, line.number, script, lanes, line.words) {
                Ok(step) => Ok(step),
                Err(fault) => Err(fault_inside(last, fault)),
            }
        }
        LineWord::End => {
            let lanes = earlier.with_lane(lane)?;
            end_burst(line.number, script, lanes, line.words)
        }
        LineWord::Command(word) => {
            match command_in_lane(rt, alloc, fleet, script, earlier, lane, word, line) {
                Ok(step) => Ok(step),
                Err(fault) => Err(fault_inside(last, fault)),
            }
        }
    }
}

/// Reads a command of a burst's lane.
fn command_in_lane<R: Threads + Sync>(
    rt: &R,
    alloc: Global,
    fleet: &FleetShape,
    script: Script,
    earlier: EarlierLanes,
    lane: Commands,
    word: CommandWord,
    line: &LineWords,
) -> Result<LineRead, ScriptFault>
    requires fleet { IsFleet fleet.now }
    requires place { line.now.number + length line.now.after.now < 2 ^ 64 }
    requires reading { IsReading fleet.now (record { script = script; position = position.Lane earlier lane }) }
    ensures exact { ParsesAs (λ step. step) result
        (lane_more line.now.number script earlier lane
        (command_of line.now.number fleet.now word line.now.words.now (lines_of line.now.after.now))) }
    ensures is_reading { IfOk result (λ step. IsReading fleet.now step.reading) }
    ensures enough { IfOk result (λ step. step.rows ≤ length (lines_of line.now.after.now)) }
{
    let command = command(rt, alloc, fleet, word, line.words, line.number, line.after)?;
    if earlier.has_second(&command) {
        return Err(fault_at(line.number, Why::TwoStewards));
    }
    let rows = row_count(&command);
    let lane = with_command(lane, command)?;
    Ok(stepped(script, Position::Lane { earlier, lane }, rows))
}

/// Begins a burst on line `number`.
fn next_burst(number: u64, script: Script, words: &[u8]) -> Result<LineRead, ScriptFault>
    ensures exact { ParsesAs (λ step. step) result (next_burst number script words.now) }
    ensures no_rows { IfOk result (λ step. step.rows ≡ 0) }
{
    if !is_blank(words) {
        return Err(fault_at(number, Why::Words));
    }
    Ok(stepped(script, Position::Opened, 0))
}

/// Begins another lane after these.
fn next_lane(
    alloc: Global,
    number: u64,
    script: Script,
    lanes: EarlierLanes,
    words: &[u8],
) -> Result<LineRead, ScriptFault>
    ensures exact { ParsesAs (λ step. step) result (next_lane number script lanes words.now) }
    ensures no_rows { IfOk result (λ step. step.rows ≡ 0) }
{
    if !is_blank(words) {
        return Err(fault_at(number, Why::Words));
    }
    if lanes.as_slice().len() >= MAX_LANES {
        return Err(fault_at(number, Why::Lanes));
    }
    let lane = Commands::of(Vec::new(alloc));
    let earlier = lanes;
    Ok(stepped(script, Position::Lane { earlier, lane }, 0))
}

/// Ends a burst of these lanes.
fn end_burst(
    number: u64,
    script: Script,
    lanes: EarlierLanes,
    words: &[u8],
) -> Result<LineRead, ScriptFault>
    ensures exact { ParsesAs (λ step. step) result (end_burst number script lanes words.now) }
    ensures no_rows { IfOk result (λ step. step.rows ≡ 0) }
{
    if !is_blank(words) {
        return Err(fault_at(number, Why::Words));
    }
    let script = with_item(script, Item::Burst(lanes.into_lanes()))?;
    Ok(stepped(script, Position::Outside, 0))
}

/// What was read, with the place of the next line, after `rows` lines of rows.
fn stepped(script: Script, position: Position, rows: u64) -> LineRead
    ensures { result ≡ stepped script position rows }
{
    LineRead {
        reading: Reading { script, position },
        rows,
    }
}

/// The script with one item more.
fn with_item(script: Script, item: Item) -> Result<Script, AllocError>
    ensures { IfOk result (λ more. more ≡ with_item script item) }
{
    let mut items = script.items.into_inner();
    items.push(item)?;
    Ok(Script {
        fleet_line: script.fleet_line,
        items: Items::of(items),
        standings: script.standings,
    })
}

/// The script with one standing query more.
fn with_standing(script: Script, standing: Command) -> Result<Script, AllocError>
    requires { script.standings < 16 }
    ensures { IfOk result (λ more. more ≡ with_standing script standing) }
{
    let more = with_item(script, Item::One(standing))?;
    Ok(Script {
        fleet_line: more.fleet_line,
        items: more.items,
        standings: more.standings + 1,
    })
}

/// The commands of a lane, and one more.
fn with_command(lane: Commands, command: Command) -> Result<Commands, AllocError>
    ensures { IfOk result (λ more. more ≡ lane ++ command ∷ []) }
{
    let mut commands = lane.into_inner();
    commands.push(command)?;
    Ok(Commands::of(commands))
}

/// The fault of a line after which a burst is open. On the text's last line it is Place, whatever it was.
fn fault_inside(last: u64, fault: ScriptFault) -> ScriptFault
    ensures { result ≡ fault_inside last fault }
{
    match fault {
        ScriptFault::At { line, why } => {
            if line == last {
                fault_at(line, Why::Place)
            } else {
                fault_at(line, why)
            }
        }
        ScriptFault::NoMemory => ScriptFault::NoMemory,
    }
}

/// The number of lines after its own that a command takes as its rows.
fn row_count(command: &Command) -> u64
    ensures { result ≡ row_count command.now }
{
    match command {
        Command::Add { rows, .. } => rows.len() as u64,
        Command::Tail { rows, .. } => rows.len() as u64,
        Command::Fleet { .. }
        | Command::Expire { .. }
        | Command::Keep { .. }
        | Command::Query(_)
        | Command::Flush { .. }
        | Command::Drain { .. }
        | Command::Kill(_)
        | Command::Start(_)
        | Command::Rollover(_)
        | Command::Standing { .. }
        | Command::Tell(_) => 0,
    }
}
