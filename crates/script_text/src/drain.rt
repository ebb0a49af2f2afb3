// A drain.
ghost use Rattle.std.specs.Prelude.{◌≡◌, ◌≤◌, IfOk, IfSome, option_map};
ghost use Rattle.script_text.specs.Words.{words_of};
ghost use Rattle.text_lines.specs.Numbers.{capped};
ghost use Rattle.script_text.specs.Commands.{DrainForm, IsFleet, drain_of, drain_words, leaf_count, row_count};
ghost use Rattle.script_text.specs.Fits.{IsCommand};
ghost use Rattle.script_text.specs.Script.{ParsesAs};

use crate::command::Command;
use crate::fleet::FleetShape;
use crate::line_word::is_word;
use crate::target::leaf_in;
use crate::words::{next_word, number_of};
use row_model::{ScriptFault, Why, fault_at};

/// The most steps after which a drain is stopped.
const MAX_STEPS: u64 = 1_000_000;

/// The words of a drain. The leaf's number saturates at the greatest `u64`.
#[derive(Clone, Copy)]
struct DrainWords {
    leaf: u64,
    stop: Option<u32>,
}

/// Reads the words of a drain on line `number`.
pub fn drain(fleet: &FleetShape, words: &[u8], number: u64) -> Result<Command, ScriptFault>
    requires { IsFleet fleet.now }
    ensures exact { ParsesAs (λ c. c) result (drain_of number fleet.now (drain_words (words_of words.now))) }
    ensures is_command { IfOk result (IsCommand (leaf_count fleet.now) fleet.now.names) }
    ensures no_rows { IfOk result (λ c. row_count c ≡ 0) }
{
    let Some(drain) = drain_words(words) else {
        return Err(fault_at(number, Why::Words));
    };
    let leaf = leaf_in(fleet, drain.leaf, number)?;
    Ok(Command::Drain {
        leaf,
        stop: drain.stop,
    })
}

/// The words of `drain L` or of `drain L stop N`.
fn drain_words(words: &[u8]) -> Option<DrainWords>
    ensures exact { option_map {U = DrainForm} (λ drain. record { leaf = drain.leaf; stop = drain.stop }) result
        ≡ option_map {U = DrainForm} (λ (drain : DrainForm). record { leaf = capped drain.leaf; stop = drain.stop })
        (drain_words (words_of words.now)) }
    ensures few { IfSome result (λ drain. IfSome drain.stop (λ steps. steps ≤ MAX_STEPS)) }
{
    let (leaf, rest) = next_word(words)?;
    let Some((word, rest)) = next_word(rest) else {
        let leaf = number_of(leaf)?;
        return Some(DrainWords { leaf, stop: None });
    };
    let (steps, rest) = next_word(rest)?;
    if !is_word(word, "stop") || next_word(rest).is_some() {
        return None;
    }
    let leaf = number_of(leaf)?;
    let steps = number_of(steps)?;
    if steps > MAX_STEPS {
        return None;
    }
    Some(DrainWords {
        leaf,
        stop: Some(steps as u32),
    })
}
