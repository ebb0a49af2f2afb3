// A query from its text.
ghost use Rattle.std.specs.Prelude.{◌≡◌, IfOk};
ghost use Rattle.query_text.specs.Grammar.{IsQuery};
ghost use Rattle.query_text.specs.Reading.{query_of};
ghost use Rattle.row_model.specs.declared.script_fault.Why.TheVariants as why;
ghost use Rattle.script_text.specs.Commands.{IsFleet, leaf_count, on_line, query_command, row_count};
ghost use Rattle.script_text.specs.Fits.{IsCommand};
ghost use Rattle.script_text.specs.Script.{ParsesAs};

use crate::command::Command;
use crate::fleet::FleetShape;
use crate::words::place_of;
use leaf_model::{Query, QueryFault};
use query_text::parse;
use row_model::{ScriptFault, Why, fault_at};
use std::alloc::Global;

/// Reads the text of a query on line `number`. Its table has to be one of the fleet's.
pub fn query(
    alloc: Global,
    fleet: &FleetShape,
    text: &[u8],
    number: u64,
) -> Result<Command, ScriptFault>
    requires { IsFleet fleet.now }
    ensures exact { ParsesAs (λ c. c) result (query_command number fleet.now (query_of text.now)) }
    ensures is_command { IfOk result (IsCommand (leaf_count fleet.now) fleet.now.names) }
    ensures no_rows { IfOk result (λ c. row_count c ≡ 0) }
{
    let query = read_query(alloc, text, number)?;
    match place_of(fleet.names.as_slice(), query.table.as_str().as_bytes()) {
        Some(_place) => Ok(Command::Query(query)),
        None => Err(fault_at(number, Why::Table)),
    }
}

/// Reads the text of a query on line `number`, whatever its table is.
pub fn read_query(alloc: Global, text: &[u8], number: u64) -> Result<Query, ScriptFault>
    ensures exact { ParsesAs (λ query. query) result (on_line number why.Query (query_of text.now)) }
    ensures is_query { IfOk result IsQuery }
{
    match parse(alloc, text) {
        Ok(query) => Ok(query),
        Err(fault) => match fault {
            QueryFault::NoMemory => Err(ScriptFault::NoMemory),
            fault => Err(fault_at(number, Why::Query(fault))),
        },
    }
}
