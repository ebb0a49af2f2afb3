// An expiry.
ghost use Rattle.std.specs.Prelude.{◌≡◌, IfOk};
ghost use Rattle.script_text.specs.Words.{words_of};
ghost use Rattle.script_text.specs.Commands.{IsFleet, expire_of, leaf_count, row_count, target_words};
ghost use Rattle.script_text.specs.Fits.{IsCommand};
ghost use Rattle.script_text.specs.Script.{ParsesAs};

use crate::command::Command;
use crate::fleet::FleetShape;
use crate::target::{target_in, target_words};
use crate::words::time_of;
use row_model::{ScriptFault, Why, fault_at};

/// Reads the words `L T H` of an expiry on line `number`.
pub fn expire(fleet: &FleetShape, words: &[u8], number: u64) -> Result<Command, ScriptFault>
    requires { IsFleet fleet.now }
    ensures exact { ParsesAs (λ c. c) result (expire_of number fleet.now (target_words (words_of words.now))) }
    ensures is_command { IfOk result (IsCommand (leaf_count fleet.now) fleet.now.names) }
    ensures no_rows { IfOk result (λ c. row_count c ≡ 0) }
{
    let Some(words) = target_words(words) else {
        return Err(fault_at(number, Why::Words));
    };
    let Some(horizon) = time_of(words.last) else {
        return Err(fault_at(number, Why::Words));
    };
    let target = target_in(fleet, words.leaf, words.table, number)?;
    Ok(Command::Expire {
        leaf: target.leaf,
        table: target.table,
        horizon,
    })
}
