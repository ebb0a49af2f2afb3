// The line on standard error that tells a status.
ghost use Rattle.std.specs.Prelude.{◌≡◌, ◌≢◌, IfOk, string_bytes};
ghost use Rattle.row_model.specs.declared.row_fault.RowFault.TheVariants as fault;
ghost use Rattle.run_ends.specs.Faults.{at_line, cause_of, fault_text, query_cause, quoted, row_cause, with_forms};

use crate::status::Status;
use row_model::{QueryFault, RowFault, Text, Why};
use serde_json::Value;
use std::alloc::{AllocError, Global};

/// The text of a status other than Done: one line, without its line end. Err if memory runs out.
pub fn fault_text(alloc: Global, status: &Status) -> Result<Text, AllocError>
    requires { status.now ≢ Status.Done }
    ensures { IfOk result (λ text. text ≡ fault_text status.now) }
{
    let text = match status {
        Status::Done => String::from_str(alloc, ""),
        Status::Words => String::from_str(
            alloc,
            "the words are none of `scuba DIR count FROM TO`, `scuba DIR play`, `scuba DIR soak SEED ROWS` and `scuba DIR inspect L`; DIR is `mem` or a folder, FROM and TO are at most 9223372036854775807, ROWS is 8 to 800000, L is at most 255",
        ),
        Status::Script { line, why } => at_line(alloc, *line, cause_of(alloc, why)?),
        Status::ReadFault => String::from_str(alloc, "the input could not be read"),
        Status::WriteFault => String::from_str(alloc, "the output could not be written"),
        Status::NoMemory => String::from_str(alloc, "out of memory"),
    };
    Ok(Text::of(text?))
}

/// The cause, after the number of the line if there is one.
fn at_line(alloc: Global, line: u64, cause: String) -> Result<String, AllocError>
    ensures { IfOk result (λ text. string_bytes text ≡ at_line line (string_bytes cause)) }
{
    if line == 0 {
        return Ok(cause);
    }
    format!(in alloc; "line {line}: {cause}")
}

/// What is wrong with a line.
fn cause_of(alloc: Global, why: &Why) -> Result<String, AllocError>
    ensures { IfOk result (λ text. string_bytes text ≡ cause_of why.now) }
{
    match why {
        Why::TooLong => String::from_str(
            alloc,
            "the input has more than 16777216 bytes; give it in pieces",
        ),
        Why::Command => with_forms(alloc, "no such command"),
        Why::NoFleet => String::from_str(alloc, "a command before any fleet"),
        Why::Place => String::from_str(alloc, "the command is out of its place"),
        Why::Words => with_forms(alloc, "the words do not fit the command"),
        Why::Leaf => String::from_str(
            alloc,
            "the fleet has no such leaf; its leaves are numbered from 0",
        ),
        Why::Table => String::from_str(alloc, "the fleet has no such table"),
        Why::Lanes => String::from_str(alloc, "the burst has more than 16 lanes"),
        Why::TwoStewards => String::from_str(
            alloc,
            "two lanes of the burst have commands of one leaf's steward",
        ),
        Why::Short => String::from_str(alloc, "fewer rows follow than the command says"),
        Why::Row(fault) => row_cause(alloc, fault),
        Why::Query(fault) => query_cause(alloc, *fault),
        Why::NoBerth => String::from_str(alloc, "the fleet has more leaves than there are berths"),
    }
}

/// A cause, followed by the forms of all commands.
fn with_forms(alloc: Global, cause: &str) -> Result<String, AllocError>
    ensures { IfOk result (λ text. string_bytes text ≡ with_forms cause.now) }
{
    format!(in alloc;
        "{cause}; the commands are fleet M P T.., add L T N, expire L T H, keep L T N, tail K T N, query TEXT, standing L TEXT, tell S, flush L T, drain L [stop N], kill L, start L, rollover [P], burst, lane, end"
    )
}

/// What is wrong with a row.
fn row_cause(alloc: Global, fault: &RowFault) -> Result<String, AllocError>
    ensures { IfOk result (λ text. string_bytes text ≡ row_cause fault.now) }
{
    match fault {
        RowFault::Json => String::from_str(
            alloc,
            "the row is no JSON; a row is one object on a line, in UTF-8 without a byte order mark",
        ),
        RowFault::NotObject => String::from_str(
            alloc,
            "the row is no object; a row is one JSON object on a line",
        ),
        RowFault::NoTime => String::from_str(
            alloc,
            "the row has no `time` that is an integer from 0 to 9223372036854775807",
        ),
        RowFault::TooMany => String::from_str(alloc, "the row has more than 1024 cells"),
        RowFault::Name(name) => bad_name(alloc, name),
        RowFault::Value(name) => bad_value(alloc, name),
        RowFault::NoMemory => String::from_str(alloc, "out of memory"),
    }
}

/// What is wrong with a query. Bytes are counted from 0.
fn query_cause(alloc: Global, fault: QueryFault) -> Result<String, AllocError>
    ensures { IfOk result (λ text. string_bytes text ≡ query_cause fault) }
{
    match fault {
        QueryFault::Syntax(at) => format!(in alloc;
            "the query is at fault at byte {at} of its text, from 0"
        ),
        QueryFault::NoTime => String::from_str(
            alloc,
            "the query has no range `time >= A AND time <= B` after WHERE",
        ),
        QueryFault::TooLarge(at) => {
            format!(in alloc;
                "the query has an integer out of its range at byte {at} of its text, from 0"
            )
        }
        QueryFault::NoMemory => String::from_str(alloc, "out of memory"),
    }
}

fn bad_name(alloc: Global, name: &Text) -> Result<String, AllocError>
    ensures { IfOk result (λ text. string_bytes text ≡ row_cause (fault.Name name.now)) }
{
    let name = quoted(alloc, name)?;
    format!(in alloc; "no cell may have the name {name}")
}

fn bad_value(alloc: Global, name: &Text) -> Result<String, AllocError>
    ensures { IfOk result (λ text. string_bytes text ≡ row_cause (fault.Value name.now)) }
{
    let name = quoted(alloc, name)?;
    format!(in alloc;
        "{name} has no value that a cell may have; a cell is an integer of 64 bits, a text of at most 65535 bytes, or an array of at most 1024 texts"
    )
}

/// A name as a JSON string.
fn quoted(alloc: Global, name: &Text) -> Result<String, AllocError>
    ensures { IfOk result (λ text. string_bytes text ≡ quoted name.now) }
{
    Value::String(name.copy()?.into_inner()).to_string(alloc)
}
