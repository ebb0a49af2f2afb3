// Reads the rows of an add or a tail, with several threads.
ghost use Rattle.std.specs.Prelude.{◌≡◌, ◌+◌, ◌≤◌, ◌<◌, ◌^◌, ◌++◌, IfOk, List, OnOk, ℕ, length};
ghost use Rattle.std.specs.Borrow.{Bor};
ghost use Rattle.std.specs.List.{AllByRecursion, AllZip};
ghost use Rattle.row_json.specs.Row.{row_of};
ghost use Rattle.row_model.specs.Values.{IsRow};
ghost use Rattle.row_model.specs.declared.limits.TheConstants.{MAX_ROWS};
ghost use Rattle.text_lines.specs.Lines.{lines_of};
ghost use Rattle.row_model.specs.declared.script_fault.Why.TheVariants as why;
ghost use Rattle.script_text.specs.Commands.{on_line, rows_from};
ghost use Rattle.script_text.specs.Parts.{IsPartRead, fault_behind};
ghost use Rattle.script_text.specs.Script.{IfAt, ParsesAs};

use leaf_model::{LentRow, PackedRows, Row, Rows};
use rayon::prelude::*;
use row_json::{RowFault, RowRoom, quick_row};
use row_model::{ScriptFault, Why, fault_at};
use std::alloc::{AllocError, Global};
use std::collections::VecDeque;
use std::thread::Threads;
use text_lines::{MANY_LINES, cut_line, parts_of, without_return};

/// Reads the first `count` lines of a text as rows. `number` is the number of the line before them. The first fault in
/// the order of the lines decides, whichever part is read first.
pub fn read_rows<R: Threads + Sync>(
    rt: &R,
    alloc: Global,
    text: &[u8],
    number: u64,
    count: u64,
) -> Result<Rows, ScriptFault>
    requires lines { length (lines_of text.now) ≡ count }
    requires few { count ≤ MAX_ROWS }
    requires place { number + count < 2 ^ 64 }
    ensures exact { ParsesAs (λ rows. rows) result (rows_from (number + 1) (lines_of text.now)) }
    ensures are_rows { IfOk result (AllByRecursion IsRow) }
    ensures count { IfOk result (λ rows. length rows ≡ count) }
{
    if count < MANY_LINES {
        return read_alone(alloc, text, number, count);
    }
    let parts = parts_of(alloc, text)?;
    let mut read = VecDeque::from_vec(read_each(rt, alloc, parts.as_slice())?);
    let mut rows = PackedRows::new(alloc);
    while let Some(part) = read.pop_front() {
        match part {
            Ok(part) => put_behind(&mut rows, part)?,
            Err(fault) => return Err(fault_behind(number + rows.len() as u64, fault)),
        }
    }
    Ok(Rows::of(rows))
}

/// Appends a part's rows. If there are none yet, the part's bytes are taken as they are.
#[tactic(auto, using(crate::proofs::OneMore::none_before))]
fn put_behind(rows: &mut PackedRows, part: PackedRows) -> Result<(), AllocError>
    ensures { OnOk result (rows.new ≡ rows.old ++ part) }
{
    if rows.len() == 0 {
        *rows = part;
        return Ok(());
    }
    rows.append(&part)
}

/// The same, read by one thread.
#[tactic(auto, using(crate::proofs::InParts::alone_read, crate::proofs::InParts::alone_fits, crate::proofs::InParts::alone_refused))]
fn read_alone(alloc: Global, text: &[u8], number: u64, count: u64) -> Result<Rows, ScriptFault>
    requires lines { length (lines_of text.now) ≡ count }
    requires few { count ≤ MAX_ROWS }
    requires place { number + count < 2 ^ 64 }
    ensures exact { ParsesAs (λ rows. rows) result (rows_from (number + 1) (lines_of text.now)) }
    ensures are_rows { IfOk result (AllByRecursion IsRow) }
    ensures count { IfOk result (λ rows. length rows ≡ count) }
{
    match read_part(alloc, text) {
        Ok(rows) => Ok(Rows::of(rows)),
        Err(fault) => Err(fault_behind(number, fault)),
    }
}

/// Reads each part, with as many threads as there are processors. The results are in the order of the parts.
fn read_each<R: Threads + Sync>(
    rt: &R,
    alloc: Global,
    parts: &[&[u8]],
) -> Result<Vec<Result<PackedRows, ScriptFault>>, AllocError>
    ensures { IfOk result (λ read. AllZip (λ (part : Bor (List ℕ)) rows. IsPartRead part.now rows) parts.now
        read.items) }
{
    parts
        .par_iter()
        .with_min_len(1)
        .map(
            |part: &&[u8]| -> Result<PackedRows, ScriptFault>
                ensures { IsPartRead part.now.now result }
            { read_one(alloc, part) },
        )
        .collect(rt, alloc)
}

fn read_one(alloc: Global, part: &[u8]) -> Result<PackedRows, ScriptFault>
    ensures { IsPartRead part.now result }
{
    read_part(alloc, part)
}

/// Reads the lines of a part as rows. Its first line has the number 1.
fn read_part(alloc: Global, part: &[u8]) -> Result<PackedRows, ScriptFault>
    ensures exact { ParsesAs (λ rows. rows) result (rows_from 1 (lines_of part.now)) }
    ensures are_rows { IfOk result (AllByRecursion IsRow) }
{
    let mut rows = PackedRows::new(alloc);
    let mut room = RowRoom::new(alloc);
    let mut rest = part;
    while !rest.is_empty() {
        let (line, after) = cut_line(rest);
        let number = rows.len() as u64 + 1;
        let read = row(alloc, &mut room, without_return(line), number)?;
        rows.push(&LentRow::of(&read))?;
        rest = after;
    }
    Ok(rows)
}

/// Reads line `number` as a row. A row in plain form is made at once, as its members come.
fn row(alloc: Global, room: &mut RowRoom, line: &[u8], number: u64) -> Result<Row, ScriptFault>
    ensures exact { ParsesAs (λ row. row) result (on_line number why.Row (row_of line.now)) }
    ensures is_row { IfOk result IsRow }
{
    if let Some(row) = quick_row(alloc, room, line) {
        return Ok(row);
    }
    match row_json::row(alloc, line) {
        Ok(row) => Ok(row),
        Err(fault) => match fault {
            RowFault::NoMemory => Err(ScriptFault::NoMemory),
            fault => Err(fault_at(number, Why::Row(fault))),
        },
    }
}

/// The fault of a part that follows `lines` lines, with its line counted from the first line of all.
fn fault_behind(lines: u64, fault: ScriptFault) -> ScriptFault
    requires { IfAt fault (λ line _. lines + line < 2 ^ 64) }
    ensures { result ≡ fault_behind lines fault }
{
    match fault {
        ScriptFault::At { line, why } => fault_at(lines + line, why),
        ScriptFault::NoMemory => ScriptFault::NoMemory,
    }
}
