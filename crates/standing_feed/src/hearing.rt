// The entries of a table that the lines of an item tell.
ghost use Rattle.std.specs.Prelude.{◌≡◌, ◌++◌, ℕ, IfOk, IsPermutation, List, OnOk, option_to_list};
ghost use Rattle.standing_feed.specs.Hearing.{heard, heard_by, left_by_line, named};
ghost use Rattle.standing_feed.specs.Following.{Ascend};
ghost use Rattle.standing_feed.specs.Sharing.{AreOfTable, calls_at};

use crate::calls::Calls;
use crate::heard::Heard;
use crate::meant::Meant;
use crate::place::TableAt;
use crate::table_calls::TableCalls;
use printed_lines::{Line, Said};
use std::alloc::{AllocError, Global};

/// The entries of a table that the lines of an item tell, in the order of their numbers.
pub fn hear_table(
    alloc: Global,
    table: TableCalls,
    lines: &[Line],
) -> Result<Vec<Heard>, AllocError>
    ensures { IfOk result (λ heard. AreOfTable lines.now (calls_at table) heard.items) }
{
    let all = hear_all(alloc, table.at, table.calls, lines)?;
    Ok(in_order(all)?)
}

// In the order of the lines.
fn hear_all(
    alloc: Global,
    at: TableAt,
    calls: Vec<Meant>,
    lines: &[Line],
) -> Result<Vec<Heard>, AllocError>
    ensures { IfOk result (λ all. (name : List ℕ) → all.items ≡ heard (named at name) calls.items lines.now) }
{
    let mut calls = Calls::new(calls);
    let mut all = Vec::new(alloc);
    for line in lines {
        put_heard(&mut all, hear(at, &mut calls, line))?;
    }
    Ok(all)
}

fn put_heard(all: &mut Vec<Heard>, heard: Option<Heard>) -> Result<(), AllocError>
    ensures { OnOk result (all.new.items ≡ all.old.items ++ option_to_list heard) }
{
    if let Some(heard) = heard {
        all.push(heard)?;
    }
    Ok(())
}

// The entry of the table that a line tells.
fn hear(at: TableAt, calls: &mut Calls, line: &Line) -> Option<Heard>
    ensures heard { (name : List ℕ) → result ≡ heard_by (named at name) calls.old line.now }
    ensures left { (name : List ℕ) → calls.new ≡ left_by_line (named at name) calls.old line.now }
{
    match line {
        Line::Entry {
            leaf,
            table,
            number,
            said,
        } => {
            if !at.is_at(*leaf, *table) {
                return None;
            }
            let fed = calls.hear(*said);
            Some(Heard {
                number: *number,
                fed,
            })
        }
        Line::Worn { leaf, table } => {
            if at.is_at(*leaf, *table) {
                let _ = calls.hear_call(Said::RefusedShut);
            }
            None
        }
        Line::Tailed(_) => {
            calls.end_tail();
            None
        }
        Line::Answer { .. }
        | Line::Declared(_)
        | Line::Told { .. }
        | Line::Untold { .. }
        | Line::Ended { .. }
        | Line::Lane(_)
        | Line::Wave { .. }
        | Line::Rolled { .. }
        | Line::Watch(_) => None,
    }
}

// Sorts entries by their numbers.
fn in_order(mut all: Vec<Heard>) -> Result<Vec<Heard>, AllocError>
    ensures same { IfOk result (λ sorted. IsPermutation all.items sorted.items) }
    ensures ascend { IfOk result (λ sorted. Ascend sorted.items) }
{
    all.sort_by_key(|heard| heard.number)?;
    Ok(all)
}
