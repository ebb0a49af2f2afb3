// How the program ends.
ghost use Rattle.std.specs.Prelude.{◌≡◌};
ghost use Rattle.command_line.specs.Exit.{exit_number};

use crate::line::Refusal;
use run_ends::{Status, fault_text};
use std::process::ExitCode;

/// The exit code of a status. If not all was done, it says why on standard error.
pub fn ended<R: AllocGlobal + Eprint>(rt: &R, status: &Status) -> ExitCode {
    tell(rt, status);
    ExitCode::from(status_number(status))
}

/// Says on standard error why the run was not done. Without memory for that it says nothing.
fn tell<R: AllocGlobal + Eprint>(rt: &R, status: &Status) {
    if matches!(status, Status::Done) {
        return;
    }
    if let Ok(text) = fault_text(rt.alloc(), status) {
        let _ = eprintln!(rt; "scuba: {}", text.as_str());
    }
}

/// The exit number of a status.
fn status_number(status: &Status) -> u8
    ensures { result ≡ exit_number status.now }
{
    match status {
        Status::Done => 0,
        Status::Words => 2,
        Status::Script { .. } => 3,
        Status::ReadFault => 4,
        Status::WriteFault => 5,
        Status::NoMemory => 6,
    }
}

/// The status if no command line was read.
pub fn refusal_status(refusal: Refusal) -> Status {
    match refusal {
        Refusal::Words => Status::Words,
        Refusal::NoMemory => Status::NoMemory,
    }
}
