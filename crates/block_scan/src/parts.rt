// Folds blocks, and joins their groups one after another.
ghost use Rattle.std.specs.Prelude.{◌≡◌, ◌≤◌, ◌^◌, length, IfOk};
ghost use Rattle.std.specs.List.{AllByRecursion, flat_map};
ghost use Rattle.leaf_model.specs.Groups.{groups};
ghost use Rattle.group_table.specs.Joined.{IsWithin};
ghost use Rattle.block_scan.specs.Seen.{seen_rows};

use crate::threads::fold_each;
use crate::view::BlockView;
use group_table::merge;
use leaf_model::{Groups, Query};
use std::alloc::{AllocError, Global};
use std::collections::VecDeque;
use std::thread::Threads;

/// The groups of the rows that are held of all blocks.
pub(crate) fn fold_blocks<R: Threads + Sync>(
    rt: &R,
    alloc: Global,
    query: &Query,
    views: &[BlockView],
) -> Result<Groups, AllocError>
    requires { length (flat_map seen_rows views.now) ≤ 2 ^ 40 }
    ensures groups { IfOk result (λ all. all ≡ groups query.now (flat_map seen_rows views.now)) }
    ensures within { IfOk result (λ all. AllByRecursion (IsWithin (length (flat_map seen_rows views.now))) all) }
{
    let mut rest = VecDeque::from_vec(fold_each(rt, alloc, query, views)?);
    let mut all = Groups::of(Vec::new(alloc));
    while let Some(part) = rest.pop_front() {
        let part = part?;
        all = merge(alloc, all, part)?;
    }
    Ok(all)
}
