// Drains and adoptions, step by step to their ends.
ghost use Rattle.std.specs.Prelude.{◌≡◌, ◌≢◌, IfOk, IfSome, IsTrue};
ghost use Rattle.std.specs.List.{AllByRecursion};
ghost use Rattle.region_layout.specs.declared.drained.DrainTable.{DrainTable};
ghost use Rattle.table_state.specs.Tables.{IsParts};
ghost use Rattle.drain_copy.specs.declared.step.Next.TheVariants as next;

use crate::tables::line_of;
use adopt::{Adopt, AdoptStep};
use berth_mem::MemBerth;
use drain_copy::{Drain, DrainStep, RegionFault};
use region_layout::DrainTables;
use std::alloc::{AllocError, Global};
use std::collections::VecDeque;
use table_state::TableState;

/// More steps than any drain or adoption of these tests has.
const MOST_STEPS: u32 = 20;

/// Makes a step, and tells whether another is left.
fn step_on(drain: &mut Drain, berth: &mut MemBerth) -> Result<(DrainStep, bool), RegionFault>
    requires more { drain.old.next ≢ next.Nothing }
    ensures more { IfOk result (λ made. IsTrue made.1 → drain.new.next ≢ next.Nothing) }
{
    let step = drain.step(berth)?;
    match step {
        DrainStep::Begun | DrainStep::Column { .. } | DrainStep::Directory => Ok((step, true)),
        DrainStep::Finished => Ok((step, false)),
    }
}

/// Drains to the end. Gives each step, with the length of the region, the bytes that are held and the number of moments
/// after it.
pub fn drain_all(
    alloc: Global,
    drain: Drain,
    berth: &mut MemBerth,
) -> Result<Vec<(DrainStep, u64, u64, u64)>, AllocError>
    requires { drain.next ≡ next.Begin }
{
    let mut drain = drain;
    let mut seen = Vec::new(alloc);
    for _ in 0..MOST_STEPS {
        let Ok((step, more)) = step_on(&mut drain, berth) else {
            break;
        };
        let region = berth.region().len() as u64;
        seen.push((step, region, drain.held(), berth.moments()))?;
        if !more {
            break;
        }
    }
    Ok(seen)
}

/// Adopts to the end. Gives the tables, and where the log ends. Appends to `seen` each step but the last, with the
/// length of the region and the bytes that are held after it.
pub fn adopt_all(
    alloc: Global,
    adopt: Adopt,
    berth: &mut MemBerth,
    seen: &mut Vec<(u64, u64)>,
) -> Result<Option<(DrainTables, u64)>, AllocError>
    ensures { IfOk result (λ found.
        IfSome found (λ back. AllByRecursion (λ (t : DrainTable). IsParts t.parts) back.0)) }
{
    let mut adopt = adopt;
    for _ in 0..MOST_STEPS {
        match adopt.step(alloc, berth) {
            Ok(AdoptStep::More(more)) => {
                seen.push((berth.region().len() as u64, more.held()))?;
                adopt = more;
            }
            Ok(AdoptStep::Finished { tables, log_end }) => return Ok(Some((tables, log_end))),
            Ok(AdoptStep::NoImage) => return Ok(None),
            Err(_) => return Ok(None),
        }
    }
    Ok(None)
}

/// The lines of the tables that are made of what came back.
pub fn lines_back(alloc: Global, tables: DrainTables) -> Result<String, AllocError>
    requires { AllByRecursion (λ (t : DrainTable). IsParts t.parts) tables }
{
    let mut rest = VecDeque::from_vec(tables.into_inner());
    let mut lines = String::new(alloc);
    while let Some(table) = rest.pop_front() {
        let name = table.name;
        let table = TableState::from_parts(table.parts);
        lines.push_str(line_of(alloc, name.as_str(), &table)?.as_str())?;
    }
    Ok(lines)
}
