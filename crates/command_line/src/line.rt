// The command line: `scuba DIR WORD..`.
ghost use Rattle.std.specs.Prelude.{◌≡◌};
ghost use Rattle.command_line.specs.declared.line.Refusal.TheVariants.{NoMemory};

use clap::error::ErrorKind;
use clap::{Arg, ArgAction, Command, Error};
use std::alloc::{AllocError, AllocFailed, Global};
use std::{env, io};

/// The command line: the folder of the leaves' files, or `mem`, and the words after it.
#[derive(Debug, Drop)]
pub struct CommandLine {
    pub folder: String,
    pub words: Vec<String>,
}

/// Why no command line was read.
#[derive(Clone, Copy, Debug, PartialEq, Eq)]
pub enum Refusal {
    /// The words have another form, or one is no text.
    Words,
    NoMemory,
}

impl From<AllocError> for Refusal {
    ghost from_gives = { λ _ e. e ≡ NoMemory };

    fn from(_e: AllocError) -> Refusal {
        Refusal::NoMemory
    }
}

impl<T: Drop> From<AllocFailed<T>> for Refusal {
    ghost from_gives = { λ _ e. e ≡ NoMemory };

    fn from(_e: AllocFailed<T>) -> Refusal {
        Refusal::NoMemory
    }
}

impl From<Error> for Refusal {
    fn from(error: Error) -> Refusal {
        if error.kind() == ErrorKind::OutOfMemory {
            Refusal::NoMemory
        } else {
            Refusal::Words
        }
    }
}

impl From<io::Error> for Refusal {
    fn from(error: io::Error) -> Refusal {
        if error.kind() == io::ErrorKind::OutOfMemory {
            Refusal::NoMemory
        } else {
            Refusal::Words
        }
    }
}

/// Splits the command line, whose first word is the program's name. It has no flag for help or version.
fn split(alloc: Global, words: &[String]) -> Result<CommandLine, Refusal> {
    let folder = Arg::new(alloc, "DIR").required(true).action(ArgAction::Set);
    let rest = Arg::new(alloc, "WORD")
        .num_args(0..)
        .action(ArgAction::Append);
    let command = Command::new(alloc, "scuba")
        .disable_help_flag(true)
        .disable_version_flag(true)
        .arg(folder)?
        .arg(rest)?;
    let matches = command.try_get_matches_from(words)?;
    let Some(folder) = matches.get_str("DIR") else {
        return Err(Refusal::Words);
    };
    let mut words = Vec::new(alloc);
    if let Some(found) = matches.get_strs("WORD") {
        for word in found {
            words.push(String::from_str(alloc, word)?)?;
        }
    }
    Ok(CommandLine {
        folder: String::from_str(alloc, folder)?,
        words,
    })
}

/// Reads the command line, without the program's name.
pub fn read_line(rt: &HostRuntime) -> Result<CommandLine, Refusal> {
    let words: Vec<String> = env::args(rt)?.collect(rt.alloc())?;
    split(rt.alloc(), words.as_slice())
}
