// The lines of calls and deeds.
ghost use Rattle.std.specs.Prelude.{◌≡◌, ◌∷◌, ◌++◌, [], IfOk, OnOk};
ghost use Rattle.std.specs.Option.{option_to_list};
ghost use Rattle.printed_lines.specs.declared.line.Line.TheVariants.{Entry};
ghost use Rattle.transcript.specs.Pieces.{noted_line, said_of_note};
ghost use Rattle.player.specs.Lines.{AreEnded, AreJoined, note_lines, reply_line};

use leaf_machine::{Note, Notes, What};
use leaf_table::Reply;
use printed_lines::{Deed, Ending, Line, Said};
use std::alloc::{AllocError, Global};

/// The line of a call at that leaf's table with this reply, as a list.
pub fn call_lines(
    alloc: Global,
    leaf: u32,
    table: u32,
    reply: &Reply,
) -> Result<Vec<Line>, AllocError>
    ensures { IfOk result (λ lines. lines.items ≡ reply_line leaf table reply.now ∷ []) }
{
    let mut lines = Vec::new(alloc);
    lines.push(call_line(leaf, table, reply))?;
    Ok(lines)
}

/// The line of this reply of that leaf's table to a caller.
pub fn call_line(leaf: u32, table: u32, reply: &Reply) -> Line
    ensures { result ≡ reply_line leaf table reply.now }
{
    match reply {
        Reply::Added { number, kept, late } => entry(
            leaf,
            table,
            *number,
            Said::Added {
                kept: *kept,
                late: *late,
            },
        ),
        Reply::Removed { number, rows } => entry(leaf, table, *number, Said::Removed(*rows)),
        Reply::Groups { number, .. } => entry(leaf, table, *number, Said::Asked),
        Reply::Shut { number } => entry(leaf, table, *number, Said::RefusedShut),
        Reply::Full { number } => entry(leaf, table, *number, Said::RefusedFull),
        Reply::NoMemory { number } => entry(leaf, table, *number, Said::RefusedMemory),
        Reply::Worn => Line::Worn { leaf, table },
    }
}

/// The line of an entry.
pub fn entry(leaf: u32, table: u32, number: u64, said: Said) -> Line
    ensures { result ≡ Entry leaf table number said }
{
    Line::Entry {
        leaf,
        table,
        number,
        said,
    }
}

/// The lines of a deed: one for each note, and how it ended.
pub fn deed_lines(
    alloc: Global,
    leaf: u32,
    notes: &Notes,
    deed: Deed,
    ending: Ending,
) -> Result<Vec<Line>, AllocError>
    ensures { IfOk result (λ lines. AreEnded leaf deed notes.now ending lines.items) }
{
    let mut lines = Vec::new(alloc);
    put_notes(&mut lines, leaf, notes)?;
    lines.push(Line::Ended { deed, leaf, ending })?;
    Ok(lines)
}

/// Appends one line for each note.
fn put_notes(lines: &mut Vec<Line>, number: u32, notes: &Notes) -> Result<(), AllocError>
    ensures { OnOk result (lines.new.items ≡ lines.old.items ++ note_lines number notes.now) }
{
    for i in 0..notes.len() {
        lines.push(note_line(number, notes.get(i)))?;
    }
    Ok(())
}

fn note_line(leaf: u32, note: Note) -> Line
    ensures { result ≡ noted_line leaf note }
{
    entry(leaf, note.table, note.number, said_of_note(note.what))
}

fn said_of_note(what: What) -> Said
    ensures { result ≡ said_of_note what }
{
    match what {
        What::Opened(writes) => Said::Opened(writes),
        What::Took(writes) => Said::Took(writes),
        What::Flushed(writes) => Said::Flushed(writes),
        What::Closed(writes) => Said::Closed(writes),
        What::Handed => Said::Handed,
    }
}

/// The lines of both, with a line between them if there is one. Err if either is.
pub fn joined(
    first: Result<Vec<Line>, AllocError>,
    between: Option<Line>,
    second: Result<Vec<Line>, AllocError>,
) -> Result<Vec<Line>, AllocError>
    ensures { IfOk result (λ lines. AreJoined first (option_to_list between) second lines.items) }
{
    let mut lines = first?;
    let mut more = second?;
    if let Some(line) = between {
        lines.push(line)?;
    }
    lines.append(&mut more)?;
    Ok(lines)
}
