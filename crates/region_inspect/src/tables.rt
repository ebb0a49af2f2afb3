// Looks at tables one after another.
ghost use Rattle.std.specs.Prelude.{◌≡◌, None, IfOk, IfSome, IsTrue, Err};
ghost use Rattle.std.specs.List.{AllByRecursion, AllZip};
ghost use Rattle.berth_face.specs.Causes.{Rose};
ghost use Rattle.region_reading.specs.declared.fault.AdoptFault.TheVariants as fault;
ghost use Rattle.region_reading.specs.Reading.{Untouched};
ghost use Rattle.region_inspect.specs.Inspecting.{HasNone, IsNone, IsSmallTable, TableIs};

use crate::blocks::inspect_blocks;
use crate::lists::put;
use crate::seen::TableLine;
use berth_face::Berth;
use region_layout::TablePlaces;
use region_reading::AdoptFault;
use std::alloc::Global;
use std::collections::VecDeque;

/// Looks at the table at these places. None if and only if it breaks a rule.
fn inspect_table<B: Berth>(
    alloc: Global,
    version: u32,
    table: TablePlaces,
    berth: &mut B,
) -> Result<Option<TableLine>, AdoptFault>
    requires { IsSmallTable table }
    ensures some { IsTrue (B.meaning berth.old).tells
        → IfOk result (λ found. IfSome found (TableIs version (B.meaning berth.old).held.region table)) }
    ensures none { IsTrue (B.meaning berth.old).tells
        → IfOk result (λ found. found ≡ None → IsNone version (B.meaning berth.old).held.region table) }
    ensures untouched { Untouched (B.meaning berth.old) (B.meaning berth.new) }
    ensures cause { result ≡ Err fault.RegionFault
        → Rose (B.meaning berth.old).region_faults (B.meaning berth.new).region_faults }
{
    let TablePlaces {
        name,
        horizon,
        writes,
        skip,
        blocks,
    } = table;
    match inspect_blocks(alloc, version, blocks.into_inner(), skip, horizon, berth)? {
        Some(counted) => Ok(Some(TableLine {
            name,
            rows: counted.rows,
            writes,
            horizon,
            blocks: counted.blocks,
        })),
        None => Ok(None),
    }
}

/// Looks at the tables at these places. None if and only if one of them breaks a rule.
pub fn inspect_tables<B: Berth>(
    alloc: Global,
    version: u32,
    tables: Vec<TablePlaces>,
    berth: &mut B,
) -> Result<Option<Vec<TableLine>>, AdoptFault>
    requires { AllByRecursion IsSmallTable tables.items }
    ensures some { IsTrue (B.meaning berth.old).tells
        → IfOk result (λ found. IfSome found (λ lines. AllZip (TableIs version (B.meaning berth.old).held.region)
        tables.items lines.items)) }
    ensures none { IsTrue (B.meaning berth.old).tells
        → IfOk result (λ found. found ≡ None → HasNone version (B.meaning berth.old).held.region tables.items) }
    ensures untouched { Untouched (B.meaning berth.old) (B.meaning berth.new) }
    ensures cause { result ≡ Err fault.RegionFault
        → Rose (B.meaning berth.old).region_faults (B.meaning berth.new).region_faults }
{
    let mut rest = VecDeque::from_vec(tables);
    let mut lines = Vec::new(alloc);
    while let Some(table) = rest.pop_front() {
        let Some(line) = inspect_table(alloc, version, table, berth)? else {
            return Ok(None);
        };
        put(line, &mut lines)?;
    }
    Ok(Some(lines))
}
