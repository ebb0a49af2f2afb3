// Folds blocks in threads.
ghost use Rattle.std.specs.Prelude.{IfOk};
ghost use Rattle.std.specs.List.{AllZip};
ghost use Rattle.block_scan.specs.Seen.{IsFolded};

use crate::view::BlockView;
use leaf_model::{Groups, Query};
use rayon::prelude::*;
use std::alloc::{AllocError, Global};
use std::thread::Threads;

fn fold_one(alloc: Global, query: &Query, view: &BlockView) -> Result<Groups, AllocError>
    ensures { IsFolded query.now view.now result }
{
    view.fold(alloc, query)
}

/// The groups of each block, in order. As many threads as there are processors fold them.
pub(crate) fn fold_each<R: Threads + Sync>(
    rt: &R,
    alloc: Global,
    query: &Query,
    views: &[BlockView],
) -> Result<Vec<Result<Groups, AllocError>>, AllocError>
    ensures { IfOk result (λ parts. AllZip (IsFolded query.now) views.now parts.items) }
{
    views
        .par_iter()
        .with_min_len(2)
        .map(
            |view: &BlockView| -> Result<Groups, AllocError>
                ensures { IsFolded query.entry.now view.now result }
            { fold_one(alloc, query, view) },
        )
        .collect(rt, alloc)
}
