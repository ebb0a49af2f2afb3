// The tables of a fleet when a run begins, with all their seats.
ghost use Rattle.std.specs.Prelude.{◌≤◌, IfOk};
ghost use Rattle.region_layout.specs.Names.{AreNames};
ghost use Rattle.leaf_table.specs.Fleet.{IsNewFleet};
ghost use Rattle.play.specs.Runs.{table_bases};

use crate::bases::Bases;
use leaf_model::Names;
use leaf_table::{CallerSeats, FleetTables, StewardSeats};
use std::alloc::{AllocError, Global};
use std::marker::Brand;

/// The number of ids of a table's callers: all but the steward's.
const SHARE: u64 = 65_536;

/// The tables of a fleet, and the steward's and the callers' seat at each.
#[derive(Drop)]
pub struct NewTables {
    pub tables: FleetTables,
    pub stewards: StewardSeats,
    pub callers: CallerSeats,
}

/// Makes tables of these names for each leaf. If N knows the base of a leaf's berth, its tables are founded with it.
/// Err if memory runs out.
pub fn new_tables<N: Bases>(
    alloc: Global,
    leaves: u32,
    names: &Names,
) -> Result<NewTables, AllocError>
    requires leaves { leaves ≤ 256 }
    requires names { AreNames names.now }
    ensures { IfOk result (λ made. IsNewFleet (table_bases N.base names.now) leaves names.now 65536 made.tables
        made.stewards made.callers) }
{
    let (tables, stewards, callers) = FleetTables::new::<Brand>(alloc, leaves, names, SHARE)?;
    Ok(NewTables {
        tables,
        stewards,
        callers,
    })
}
