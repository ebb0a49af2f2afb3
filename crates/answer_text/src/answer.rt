// The lines of an answer.
ghost use Rattle.std.specs.Prelude.{◌≡◌, IfOk, map, take};
ghost use Rattle.answer_text.specs.Answer.{answer_lines, group_line};

use crate::list::Lines;
use crate::order::in_order;
use crate::print::line;
use leaf_model::{Group, Groups, Query, Text};
use std::alloc::{AllocError, Global};

/// The lines that answer a query: one for each of its groups, at most `limit`. Groups ascend by key. If `order` is the
/// place of an aggregate other than an AVG, they descend by it first.
pub fn lines(alloc: Global, query: &Query, groups: &Groups) -> Result<Lines, AllocError>
    ensures { IfOk result (λ lines. lines ≡ answer_lines query.now groups.now) }
{
    let ordered = in_order(alloc, query, groups.as_slice())?;
    let shown = cut(&ordered, query.limit);
    Ok(Lines::of(print_all(alloc, query, shown)?))
}

/// The first `limit` groups.
fn cut<'a, 'b>(groups: &'a [&'b Group], limit: u32) -> &'a [&'b Group]
    ensures { result.now ≡ take limit groups.now }
{
    &groups[..groups.len().min(limit as usize)]
}

/// A line for each of the groups.
fn print_all(alloc: Global, query: &Query, groups: &[&Group]) -> Result<Vec<Text>, AllocError>
    ensures { IfOk result (λ lines. lines.items ≡ map (λ g. group_line query.now g.now) groups.now) }
{
    let mut lines = Vec::new(alloc);
    for group in groups {
        lines.push(line(alloc, query, group)?)?;
    }
    Ok(lines)
}
