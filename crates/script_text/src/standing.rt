// Standing queries: declared once, and told from then on.
ghost use Rattle.std.specs.Prelude.{◌≡◌, ◌<◌, ◌≤◌, IfOk, option_map, if◌then◌else◌, nat_lt, None};
ghost use Rattle.query_text.specs.Grammar.{IsQuery};
ghost use Rattle.script_text.specs.Words.{first_word, words_of};
ghost use Rattle.text_lines.specs.Numbers.{capped, number_of};
ghost use Rattle.script_text.specs.Commands.{IsFleet, leaf_count, one_number, standing_at, standing_leaf, standing_of, tell_of};
ghost use Rattle.script_text.specs.Fits.{IsAlone, TellsDeclared, declared_by};
ghost use Rattle.script_text.specs.declared.item.Item.TheVariants.{One};
ghost use Rattle.script_text.specs.Script.{ParsesAs};

use crate::command::Command;
use crate::fleet::FleetShape;
use crate::later::one_number;
use crate::query::read_query;
use crate::target::leaf_in;
use crate::words::{cut_word, number_of, place_of, trimmed};
use leaf_model::Query;
use row_model::{ScriptFault, Why, fault_at};
use std::alloc::Global;

/// The most standing queries of a script.
const MAX_STANDINGS: u32 = 16;

/// Reads the words `L TEXT` of a standing query on line `number`. `declared` were declared before it.
pub fn standing(
    alloc: Global,
    fleet: &FleetShape,
    declared: u32,
    words: &[u8],
    number: u64,
) -> Result<Command, ScriptFault>
    requires { IsFleet fleet.now }
    ensures exact { ParsesAs (λ c. c) result (standing_of number fleet.now declared words.now) }
    ensures alone { IfOk result (IsAlone (leaf_count fleet.now) fleet.now.names) }
    ensures one { IfOk result (λ c. declared_by (One c) ≡ 1) }
    ensures few { IfOk result (λ _. declared < 16) }
{
    let (leaf, text) = cut_word(words);
    let Some(leaf) = standing_leaf(declared, leaf) else {
        return Err(fault_at(number, Why::Words));
    };
    let query = read_query(alloc, trimmed(text), number)?;
    standing_at(fleet, leaf, query, number)
}

/// The number of the leaf that a word gives. None if no further standing query may be declared.
fn standing_leaf(declared: u32, word: &[u8]) -> Option<u64>
    ensures { result ≡ option_map capped (if nat_lt declared 16 then number_of word.now else None) }
{
    if declared < MAX_STANDINGS {
        number_of(word)
    } else {
        None
    }
}

/// The standing query of this leaf. The fleet has to have the leaf and the query's table.
fn standing_at(
    fleet: &FleetShape,
    leaf: u64,
    query: Query,
    number: u64,
) -> Result<Command, ScriptFault>
    requires fleet { IsFleet fleet.now }
    requires query { IsQuery query }
    ensures exact { ParsesAs (λ c. c) result (standing_at number fleet.now leaf query) }
    ensures alone { IfOk result (IsAlone (leaf_count fleet.now) fleet.now.names) }
    ensures one { IfOk result (λ c. declared_by (One c) ≡ 1) }
{
    let leaf = leaf_in(fleet, leaf, number)?;
    match place_of(fleet.names.as_slice(), query.table.as_str().as_bytes()) {
        Some(_place) => Ok(Command::Standing { leaf, query }),
        None => Err(fault_at(number, Why::Table)),
    }
}

/// Reads the word `S` of a tell on line `number`. `declared` standing queries were declared before it.
pub fn tell(declared: u32, words: &[u8], number: u64) -> Result<Command, ScriptFault>
    ensures exact { ParsesAs (λ c. c) result (tell_of number declared (one_number (words_of words.now))) }
    ensures told { IfOk result (λ c. TellsDeclared declared (One c)) }
    ensures none { IfOk result (λ c. declared_by (One c) ≡ 0) }
    ensures alone { (leaves : _) (tables : _) → IfOk result (IsAlone leaves tables) }
{
    match one_number(words) {
        Some(standing) if standing < declared as u64 => Ok(Command::Tell(standing as u32)),
        _ => Err(fault_at(number, Why::Words)),
    }
}
