// A rollover.
ghost use Rattle.std.specs.Prelude.{◌≡◌, ◌<◌, ◌≤◌, ℕ, List, IfOk, IfSome, option_map};
ghost use Rattle.script_text.specs.declared.command.Command.TheVariants.{Rollover};
ghost use Rattle.script_text.specs.Words.{words_of};
ghost use Rattle.text_lines.specs.Numbers.{number_of};
ghost use Rattle.script_text.specs.Commands.{or_words, rollover_words, row_count, within};
ghost use Rattle.script_text.specs.Fits.{IsCommand};
ghost use Rattle.script_text.specs.Script.{ParsesAs};

use crate::command::Command;
use crate::words::{next_word, number_of};
use row_model::{ScriptFault, Why, fault_at};

/// The percent of the leaves that a wave has at most, if none is named.
const USUAL_PERCENT: u32 = 2;

/// Reads the words of a rollover on line `number`.
pub fn rollover(words: &[u8], number: u64) -> Result<Command, ScriptFault>
    ensures exact { ParsesAs (λ c. c) result
        (or_words number (option_map Rollover (rollover_words (words_of words.now)))) }
    ensures is_command { (leaves : ℕ) (tables : List (List ℕ)) → IfOk result (IsCommand leaves tables) }
    ensures no_rows { IfOk result (λ c. row_count c ≡ 0) }
{
    match rollover_words(words) {
        Some(percent) => Ok(Command::Rollover(percent)),
        None => Err(fault_at(number, Why::Words)),
    }
}

/// The percent that the words of `rollover` or of `rollover P` name.
fn rollover_words(words: &[u8]) -> Option<u32>
    ensures exact { result ≡ rollover_words (words_of words.now) }
    ensures some { IfSome result (λ percent. 0 < percent) }
    ensures most { IfSome result (λ percent. percent ≤ 100) }
{
    let Some((word, rest)) = next_word(words) else {
        return Some(USUAL_PERCENT);
    };
    if next_word(rest).is_some() {
        return None;
    }
    percent_of(word)
}

/// The percent that a word gives.
fn percent_of(word: &[u8]) -> Option<u32>
    ensures exact { result ≡ within 1 100 (number_of word.now) }
    ensures some { IfSome result (λ percent. 0 < percent) }
    ensures most { IfSome result (λ percent. percent ≤ 100) }
{
    let percent = number_of(word)?;
    if 0 < percent && percent <= 100 {
        Some(percent as u32)
    } else {
        None
    }
}
