// All the memory that a drain takes, before a column is moved.
ghost use Rattle.std.specs.Prelude.{◌≡◌, ◌+◌, ◌<◌, ◌≤◌, ◌^◌, [], length, IfOk};
ghost use Rattle.std.specs.List.{AllByRecursion};
ghost use Rattle.std.specs.VecDeque.{deque_capacity, deque_len};
ghost use Rattle.region_layout.specs.Names.{IsName};
ghost use Rattle.table_state.specs.Tables.{IsParts};
ghost use Rattle.region_layout.specs.declared.drained.DrainTable.{DrainTable};
ghost use Rattle.region_layout.specs.Written.{directory_bytes};
ghost use Rattle.drain_copy.specs.Planned.{HasRoom, planned_directory, tables_count, tables_size};

use crate::places::directory_of;
use crate::sizes::Sizes;
use region_layout::DrainTable;
use row_blocks::ColumnBytes;
use std::alloc::{AllocError, Global};
use std::collections::VecDeque;

/// The directory of an image and its place, and room for the columns.
#[derive(Drop)]
pub struct CopyPlan {
    pub directory: Vec<u8>,
    pub columns: VecDeque<ColumnBytes>,
    pub place: u64,
}

impl CopyPlan {
    #[tactic(auto, using(crate::proofs::Reckoned::image_length_is, crate::proofs::Reckoned::planned_length, crate::proofs::Reckoned::short_of, crate::proofs::Reckoned::narrow_of, crate::proofs::Fitting::may_be_written))]
    pub fn of(
        alloc: Global,
        tables: &[DrainTable],
        sizes: Sizes,
        log_end: u64,
    ) -> Result<CopyPlan, AllocError>
        requires few { length tables.now ≤ 16 }
        requires names { AllByRecursion (λ (t : DrainTable). IsName t.name) tables.now }
        requires parts { AllByRecursion (λ (t : DrainTable). IsParts t.parts) tables.now }
        requires log_end { log_end < 2 ^ 63 }
        requires room { HasRoom tables.now sizes }
        ensures bytes { IfOk result (λ plan.
            plan.directory.items ≡ directory_bytes (planned_directory tables.now log_end)) }
        ensures place { IfOk result (λ plan. plan.place ≡ 16 + tables_size tables.now) }
        ensures fits { IfOk result (λ plan. plan.place + length plan.directory.items < 2 ^ 63) }
        ensures empty { IfOk result (λ plan. plan.columns.items ≡ []) }
        ensures capacity { IfOk result (λ plan.
            deque_len plan.columns + tables_count tables.now ≤ deque_capacity plan.columns) }
    {
        let directory = directory_of(alloc, tables, log_end)?;
        Ok(CopyPlan {
            directory: directory.write(alloc)?,
            columns: VecDeque::with_capacity(alloc, sizes.columns as usize)?,
            place: 16 + sizes.bytes,
        })
    }
}
