// The lines of a burst.
ghost use Rattle.std.specs.Prelude.{IfOk};
ghost use Rattle.bursts.specs.Lanes.{IsBehind};

use printed_lines::Line;
use std::alloc::AllocError;

/// Appends the line of lane `number` and its own lines to those of the lanes before it. Err if memory for any of them
/// ran out.
pub fn behind(
    lines: Result<Vec<Line>, AllocError>,
    number: u32,
    own: Result<Vec<Line>, AllocError>,
) -> Result<Vec<Line>, AllocError>
    ensures { IfOk result (λ all. IsBehind lines number own all.items) }
{
    let mut lines = lines?;
    let mut own = own?;
    lines.push(Line::Lane(number))?;
    lines.append(&mut own)?;
    Ok(lines)
}
