// Counts the rows of a source whose time is in a range.
ghost use Rattle.std.specs.Prelude.{◌≡◌, ◌≢◌, ◌+◌, ◌<◌, ◌≤◌, ◌^◌, ℕ, List, Option, length, drop, vec_len, Ok, Err, IfOk, IfErr, IfSome, OnOk};
ghost use Rattle.std.specs.Borrow.{Bor};
ghost use Rattle.std.specs.List.{AllZip};
ghost use Rattle.row_json.specs.Row.{row_of};
ghost use Rattle.row_model.specs.declared.rows.Cell.{Cell};
ghost use Rattle.berth_face.specs.Causes.{Rose};
ghost use Rattle.berth_face.specs.Streams.{TakesAtMost};
ghost use Rattle.text_lines.specs.Lines.{lines_of};
ghost use Rattle.row_count.specs.declared.count.CountError.TheVariants.{NoMemory};
ghost use Rattle.row_count.specs.Count.{count_of, is_in, IfFault, IsCountedBehind, IsPartCounted, error_behind};
ghost use Rattle.run_ends.specs.Outcome.{IsRefused, IfScript, UnlessCutOff, UnlessWritten, TakesText};
ghost use Rattle.row_count.specs.Outcome.{IsAtFault, IsCountOf, IsCounted, IsCutShort, CountIsStopped, count_verdict, error_status};
ghost use Rattle.run_ends.specs.Source.{longest_text, most_taken};

use berth_face::{Sink, Source};
use rayon::prelude::*;
use row_json::{RowFault, RowRoom, quick_time};
use row_model::{Row, Why};
use run_ends::{LONGEST_TEXT, Status, pass_rest, read_piece, write_all};
use std::alloc::{AllocError, Global};
use std::collections::VecDeque;
use std::thread::Threads;
use text_lines::{cut_line, is_blank, last_end, parts_of, without_return};

/// The times in `from..=to`.
#[derive(Clone, Copy)]
pub struct Range {
    pub from: i64,
    pub to: i64,
}

/// A line that is no row: its number, from 1 on, and its first fault.
#[derive(Debug, Drop)]
pub struct LineFault {
    pub line: u64,
    pub fault: RowFault,
}

#[derive(Debug, Drop)]
pub enum CountError {
    Fault(LineFault),
    NoMemory,
}

impl From<AllocError> for CountError {
    ghost from_gives = { λ _ e. e ≡ NoMemory };

    fn from(_e: AllocError) -> CountError {
        CountError::NoMemory
    }
}

/// The count of a part of a text: its lines, and its rows in the range.
#[derive(Clone, Copy)]
pub struct PartCount {
    pub lines: u64,
    pub rows: u64,
}

/// Reads a source, counts its rows in the range, and writes the line `count N`.
#[tactic(auto, using(crate::proofs::Pieces::unless_written))]
pub fn count_source<R: Threads + Sync, S: Source, K: Sink>(
    rt: &R,
    alloc: Global,
    range: Range,
    source: &mut S,
    sink: &mut K,
) -> Status
    ensures done { result ≡ Status.Done
        → IsCounted range (S.left source.old) (S.left source.new) (K.written sink.old) (K.written sink.new) }
    ensures known_words { result ≢ Status.Words }
    ensures script { IfScript result (IsRefused (count_verdict range) (S.left source.old) (S.left source.new)) }
    ensures read_fault { result ≡ Status.ReadFault → Rose (S.faults source.old) (S.faults source.new) }
    ensures write_fault { result ≡ Status.WriteFault → Rose (K.faults sink.old) (K.faults sink.new) }
    ensures exact { IfSome (S.left source.old) (λ text. UnlessCutOff result (result ≡ count_verdict range text)) }
    ensures takes { TakesAtMost (S.left source.old) (S.left source.new) most_taken }
    ensures too_long { TakesText result (S.left source.old) (S.left source.new) }
    ensures unwritten { UnlessWritten result (sink.new ≡ sink.old) }
    ensures cut_short { result ≡ Status.WriteFault
        → IsCutShort range (S.left source.old) (S.left source.new) (K.written sink.old) (K.written sink.new) }
{
    let count = match count_text(rt, alloc, range, source) {
        Ok(count) => count,
        Err(status) => return status,
    };
    let Ok(line) = format!(in alloc; "count {count}\n") else {
        return Status::NoMemory;
    };
    match write_all(line.as_bytes(), sink) {
        Ok(()) => Status::Done,
        Err(_) => Status::WriteFault,
    }
}

/// The number of rows of a source in the range. A text is counted while it is read: of each piece the whole lines, and
/// the rest at the end. The bytes that were counted make room for the next piece.
fn count_text<R: Threads + Sync, S: Source>(
    rt: &R,
    alloc: Global,
    range: Range,
    source: &mut S,
) -> Result<u64, Status>
    ensures counted { IfOk result (λ count. IsCountOf range (S.left source.old) (S.left source.new) count) }
    ensures exact { OnOk result (IfSome (S.left source.old) (λ text. Status.Done ≡ count_verdict range text)) }
    ensures takes { OnOk result (TakesAtMost (S.left source.old) (S.left source.new) longest_text) }
    ensures stopped { IfErr result (λ status. CountIsStopped range (S.left source.old) (S.left source.new) status) }
    ensures failed { IfErr result (λ status.
        status ≡ Status.ReadFault → Rose (S.faults source.old) (S.faults source.new)) }
{
    let mut text = Vec::new(alloc);
    let mut passed = 0usize;
    let mut so_far = PartCount { lines: 0, rows: 0 };
    let mut looked = 0usize;
    'pieces: loop {
        let ended = match read_piece(alloc, source, passed, &mut text) {
            Ok(ended) => ended,
            Err(error) => return Err(Status::from(error)),
        };
        if ended {
            let count = match count_behind(rt, alloc, range, so_far, text.as_slice()) {
                Ok(count) => count,
                Err(error) => return Err(status_of(error)),
            };
            return Ok(count.rows);
        }
        let end = last_end(text.as_slice(), looked);
        so_far = match count_behind(rt, alloc, range, so_far, &text.as_slice()[..end]) {
            Ok(count) => count,
            Err(error) => return Err(refusal(alloc, source, passed + text.len(), error)),
        };
        if drop_front(&mut text, end).is_err() {
            return Err(Status::NoMemory);
        }
        passed += end;
        looked = text.len();
    }
}

/// The status of a text with this fault, after `taken` bytes. It reads the source to its end, because a source that
/// fails or is too long comes before the fault.
fn refusal<S: Source>(alloc: Global, source: &mut S, taken: usize, error: CountError) -> Status
    requires { taken ≤ LONGEST_TEXT }
    ensures stopped { (range : Range) (before : Option (List ℕ))
        → IsAtFault range before (S.left source.old) taken error
        → CountIsStopped range before (S.left source.new) result }
    ensures failed { result ≡ Status.ReadFault → Rose (S.faults source.old) (S.faults source.new) }
    ensures later { S.faults source.old ≤ S.faults source.new }
{
    match pass_rest(alloc, source, taken) {
        Ok(()) => status_of(error),
        Err(error) => Status::from(error),
    }
}

fn status_of(error: CountError) -> Status
    ensures { result ≡ error_status error }
{
    match error {
        CountError::Fault(found) => Status::Script {
            line: found.line,
            why: Why::Row(found.fault),
        },
        CountError::NoMemory => Status::NoMemory,
    }
}

/// Drops the first `count` bytes. Their room stays allocated.
fn drop_front(text: &mut Vec<u8>, count: usize) -> Result<(), AllocError>
    requires { count ≤ vec_len text.old }
    ensures { OnOk result (text.new.items ≡ drop count text.old.items) }
{
    let mut rest = text.split_off(count)?;
    text.clear();
    text.append(&mut rest)
}

/// Counts a part, and adds it to the count of what is before it.
fn count_behind<R: Threads + Sync>(
    rt: &R,
    alloc: Global,
    range: Range,
    so_far: PartCount,
    text: &[u8],
) -> Result<PartCount, CountError>
    requires fits { so_far.lines + length text.now < 2 ^ 64 }
    requires few { so_far.rows ≤ so_far.lines }
    ensures { IsCountedBehind range so_far text.now result }
{
    match count_rows(rt, alloc, text, range) {
        Ok(count) => Ok(PartCount {
            lines: so_far.lines + count.lines,
            rows: so_far.rows + count.rows,
        }),
        Err(error) => Err(error_behind(so_far.lines, error)),
    }
}

/// Counts the lines of a text, and its rows in the range. Threads read its parts. The first fault in the order of the
/// lines decides, whichever part ends first.
fn count_rows<R: Threads + Sync>(
    rt: &R,
    alloc: Global,
    text: &[u8],
    range: Range,
) -> Result<PartCount, CountError>
    ensures lines { IfOk result (λ count. count.lines ≡ length (lines_of text.now)) }
    ensures rows { IfOk result (λ count. count_of range text.now ≡ Ok count.rows) }
    ensures refused { IfErr result (λ e. IfFault e (λ f. count_of range text.now ≡ Err f)) }
{
    let parts = parts_of(alloc, text)?;
    let mut counts = VecDeque::from_vec(count_each(rt, alloc, &range, parts.as_slice())?);
    let mut lines = 0u64;
    let mut rows = 0u64;
    while let Some(count) = counts.pop_front() {
        match count {
            Ok(part) => {
                lines += part.lines;
                rows += part.rows;
            }
            Err(error) => return Err(error_behind(lines, error)),
        }
    }
    Ok(PartCount { lines, rows })
}

/// The count of each part, in order. As many threads as there are processors count them.
fn count_each<R: Threads + Sync>(
    rt: &R,
    alloc: Global,
    range: &Range,
    parts: &[&[u8]],
) -> Result<Vec<Result<PartCount, CountError>>, AllocError>
    ensures { IfOk result (λ counts.
        AllZip (λ (part : Bor (List ℕ)) count. IsPartCounted range.now part.now count) parts.now counts.items) }
{
    parts
        .par_iter()
        .with_min_len(1)
        .map(
            |part: &&[u8]| -> Result<PartCount, CountError>
                ensures { IsPartCounted range.entry.now part.now.now result }
            { count_one(alloc, range, part) },
        )
        .collect(rt, alloc)
}

fn count_one(alloc: Global, range: &Range, part: &[u8]) -> Result<PartCount, CountError>
    ensures { IsPartCounted range.now part.now result }
{
    count_part(alloc, *range, part)
}

/// Counts the lines of a part, and its rows in the range. The line of a fault is counted from the first of the part,
/// which is 1.
fn count_part(alloc: Global, range: Range, part: &[u8]) -> Result<PartCount, CountError>
    ensures lines { IfOk result (λ count. count.lines ≡ length (lines_of part.now)) }
    ensures rows { IfOk result (λ count. count_of range part.now ≡ Ok count.rows) }
    ensures refused { IfErr result (λ e. IfFault e (λ f. count_of range part.now ≡ Err f)) }
{
    let mut room = RowRoom::new(alloc);
    let mut rest = part;
    let mut line_number = 0u64;
    let mut count = 0u64;
    while !rest.is_empty() {
        let (piece, after) = cut_line(rest);
        rest = after;
        line_number += 1;
        let line = without_return(piece);
        if !is_blank(line) {
            let time = match read_time(alloc, &mut room, line, line_number) {
                Ok(time) => time,
                Err(error) => return Err(error),
            };
            if is_in(&range, time) {
                count += 1;
            }
        }
    }
    Ok(PartCount {
        lines: line_number,
        rows: count,
    })
}

/// The error of a part that follows `lines` lines: the line of a fault is counted from the first of all.
fn error_behind(lines: u64, error: CountError) -> CountError
    requires { IfFault error (λ found. lines + found.line < 2 ^ 64) }
    ensures { result ≡ error_behind lines error }
{
    match error {
        CountError::Fault(found) => CountError::Fault(LineFault {
            line: lines + found.line,
            fault: found.fault,
        }),
        CountError::NoMemory => CountError::NoMemory,
    }
}

/// The time of the row on a line. Most rows are accepted without being built.
fn read_time(
    alloc: Global,
    room: &mut RowRoom,
    line: &[u8],
    line_number: u64,
) -> Result<i64, CountError>
    ensures read { IfOk result (λ time.
        (cells : List Cell) × (row_of line.now ≡ Ok (record { time = time; cells = cells }))) }
    ensures refused { IfErr result (λ e. IfFault e (λ f. row_of line.now ≡ Err f.fault)) }
    ensures place { IfErr result (λ e. IfFault e (λ f. f.line ≡ line_number)) }
{
    if let Some(time) = quick_time(room, line) {
        return Ok(time);
    }
    match read_row(alloc, line, line_number) {
        Ok(row) => Ok(row.time),
        Err(error) => Err(error),
    }
}

/// The row on a line.
fn read_row(alloc: Global, line: &[u8], line_number: u64) -> Result<Row, CountError>
    ensures read { IfOk result (λ row. row_of line.now ≡ Ok row) }
    ensures refused { IfErr result (λ e. IfFault e (λ f. row_of line.now ≡ Err f.fault)) }
    ensures place { IfErr result (λ e. IfFault e (λ f. f.line ≡ line_number)) }
{
    match row_json::row(alloc, line) {
        Ok(row) => Ok(row),
        Err(fault) => match fault {
            RowFault::NoMemory => Err(CountError::NoMemory),
            fault => Err(CountError::Fault(LineFault {
                line: line_number,
                fault,
            })),
        },
    }
}

fn is_in(range: &Range, time: i64) -> bool
    ensures { (cells : List Cell) → result ≡ is_in range.now (record { time = time; cells = cells }) }
{
    range.from <= time && time <= range.to
}
