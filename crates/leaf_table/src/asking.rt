// Answers a query over a table.
ghost use Rattle.std.specs.Prelude.{◌≡◌, ◌<◌, length, IfOk};
ghost use Rattle.std.specs.List.{AllByRecursion};
ghost use Rattle.leaf_model.specs.Groups.{groups};
ghost use Rattle.group_table.specs.Joined.{IsWithin};
ghost use Rattle.table_state.specs.Tables.{IsHeld};

use crate::shared_query::SharedQuery;
use block_scan::scan;
use leaf_model::{Groups, Steps};
use std::alloc::{AllocError, Global};
use std::sync::ledger::{Blank, Ledger};
use std::thread::Threads;
use table_state::TableState;

/// The groups of the table's rows, over its blocks and its tail. Threads may fold the blocks. Err if memory runs out.
pub(crate) fn groups_of<L: Ledger, R: Threads + Sync>(
    rt: &R,
    alloc: Global,
    query: &SharedQuery,
    table: &TableState,
    blank: Blank,
) -> Result<Groups, AllocError>
    requires name { blank.name ≡ L.name }
    requires parts { blank.parts ≡ L.parts }
    requires some { 0 < blank.parts }
    ensures groups { IfOk result (λ gs. gs ≡ groups query.now table.now.contents.rows) }
    ensures held { IsHeld table.now.contents }
    ensures within { IfOk result (λ gs. AllByRecursion (IsWithin (length table.now.contents.rows)) gs) }
{
    table.stands();
    let mut steps = Steps::<L>::new(blank);
    scan(
        rt,
        alloc,
        query.as_query(),
        table.blocks(),
        &table.tail_rows(),
        table.skip(),
        table.horizon(),
        &mut steps,
    )
}
