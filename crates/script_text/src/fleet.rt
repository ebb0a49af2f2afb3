// The command that begins a script.
ghost use Rattle.std.specs.Prelude.{◌≡◌, ◌&&◌, ◌<◌, ◌^◌, length, true, not, Some, None, IfOk, IfSome, option_and_then, if◌then◌else◌};
ghost use Rattle.std.specs.Str.{IsUtf8};
ghost use Rattle.row_model.specs.Names.{is_table_name, is_among};
ghost use Rattle.script_text.specs.Words.{words_of, first_word, may_follow, are_tables};
ghost use Rattle.script_text.specs.Commands.{IsFleet, first_command, fleet_of, leaf_count, leaves_in_range, or_words, line_word_of};
ghost use Rattle.script_text.specs.Fits.{AreLeaves, AreTables};
ghost use Rattle.script_text.specs.Script.{ParsesAs};

use crate::line_word::{LineWord, line_word_of};
use crate::words::{cut_word, next_word, number_of, place_of};
use leaf_model::{Names, Text, is_table_name};
use row_model::{ScriptFault, Why, fault_at};
use std::alloc::{AllocError, Global};

/// The most tables of a fleet.
const MAX_TABLES: usize = 16;

/// The most leaves of a fleet.
const MAX_LEAVES: u64 = 256;

/// `machines` machines with `per_machine` leaves each. Each leaf has these tables.
#[derive(Drop)]
pub struct FleetShape {
    pub machines: u32,
    pub per_machine: u32,
    pub names: Names,
}

impl FleetShape {
    /// The number of leaves of all machines.
    pub fn leaf_count(&self) -> u32
        requires { IsFleet self.now }
        ensures { result ≡ leaf_count self.now }
    {
        self.machines * self.per_machine
    }
}

/// The numbers that the first two words after `fleet` give, and the words after them.
#[derive(Clone, Copy)]
struct FleetSizes<'a> {
    machines: u32,
    per_machine: u32,
    names: &'a [u8],
}

/// Reads a line as a fleet, if no fleet was read before it.
pub fn first_command(alloc: Global, line: &[u8], number: u64) -> Result<FleetShape, ScriptFault>
    ensures exact { ParsesAs (λ fleet. fleet) result
        (first_command number line.now (line_word_of (first_word line.now))) }
    ensures is_fleet { IfOk result IsFleet }
{
    let (word, words) = cut_word(line);
    match line_word_of(word) {
        None => Err(fault_at(number, Why::Command)),
        Some(LineWord::Fleet) => read_fleet(alloc, words, number),
        Some(
            LineWord::Burst
            | LineWord::Lane
            | LineWord::End
            | LineWord::Standing
            | LineWord::Tell
            | LineWord::Command(_),
        ) => Err(fault_at(number, Why::NoFleet)),
    }
}

fn read_fleet(alloc: Global, words: &[u8], number: u64) -> Result<FleetShape, ScriptFault>
    ensures exact { ParsesAs (λ fleet. fleet) result (or_words number (fleet_of (words_of words.now))) }
    ensures is_fleet { IfOk result IsFleet }
{
    let Some(sizes) = sizes_of(words) else {
        return Err(fault_at(number, Why::Words));
    };
    match tables(alloc, sizes.names)? {
        Some(names) => Ok(FleetShape {
            machines: sizes.machines,
            per_machine: sizes.per_machine,
            names,
        }),
        None => Err(fault_at(number, Why::Words)),
    }
}

/// The numbers of machines and of leaves of each, and the words after them. None if a number is out of its range.
fn sizes_of(words: &[u8]) -> Option<FleetSizes>
    ensures some { IfSome result (λ sizes. fleet_of (words_of words.now)
        ≡ (if are_tables (words_of sizes.names.now) then Some
        (record { machines = sizes.machines; per_machine = sizes.per_machine; names = words_of sizes.names.now }) else
        None)) }
    ensures are_leaves { IfSome result (λ sizes. AreLeaves sizes.machines sizes.per_machine) }
    ensures none { result ≡ None → fleet_of (words_of words.now) ≡ None }
{
    let (machines, rest) = next_word(words)?;
    let (per_machine, names) = next_word(rest)?;
    let machines = number_of(machines)?;
    let per_machine = number_of(per_machine)?;
    if !leaves_in_range(machines, per_machine) {
        return None;
    }
    Some(FleetSizes {
        machines: machines as u32,
        per_machine: per_machine as u32,
        names,
    })
}

/// Whether a fleet may have this number of machines, with this number of leaves each.
fn leaves_in_range(machines: u64, per_machine: u64) -> bool
    ensures { result ≡ leaves_in_range machines per_machine }
{
    match machines.checked_mul(per_machine) {
        Some(leaves) => machines > 0 && per_machine > 0 && leaves <= MAX_LEAVES,
        None => false,
    }
}

/// The words as names of tables. None if they are not 1 to 16 distinct names.
fn tables(alloc: Global, words: &[u8]) -> Result<Option<Names>, AllocError>
    ensures exact { IfOk result (λ found. found
        ≡ (if are_tables (words_of words.now) then Some (words_of words.now) else None)) }
    ensures are_tables { IfOk result (λ found. IfSome found AreTables) }
{
    let mut tables: Vec<Text> = Vec::new(alloc);
    let mut rest = words;
    while let Some((word, after)) = next_word(rest) {
        if !may_follow(tables.as_slice(), word) {
            return Ok(None);
        }
        tables.push(text_of(alloc, word)?)?;
        rest = after;
    }
    if tables.is_empty() {
        return Ok(None);
    }
    Ok(Some(Names::of(tables)))
}

/// Whether a word may be the name of another table.
fn may_follow(tables: &[Text], word: &[u8]) -> bool
    ensures { result ≡ may_follow tables.now word.now }
{
    tables.len() < MAX_TABLES && is_table_name(word) && is_new(tables, word)
}

fn is_new(tables: &[Text], word: &[u8]) -> bool
    requires { length tables.now < 2 ^ 32 }
    ensures { result ≡ not (is_among tables.now word.now) }
{
    place_of(tables, word).is_none()
}

/// A table's name as a text.
pub fn text_of(alloc: Global, name: &[u8]) -> Result<Text, AllocError>
    requires { is_table_name name.now ≡ true }
    ensures { IfOk result (λ text. text ≡ name.now) }
{
    match std::str::from_utf8(name) {
        Ok(name) => Ok(Text::of(String::from_str(alloc, name)?)),
        Err(_) => unreachable!(),
    }
}
