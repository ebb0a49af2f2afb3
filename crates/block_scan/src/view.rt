// A block of which the named columns were read.
ghost use Rattle.std.specs.Prelude.{◌≡◌, ◌≤◌, ◌∷◌, length, IfOk};
ghost use Rattle.std.specs.List.{AllByRecursion};
ghost use Rattle.leaf_model.specs.Groups.{groups};
ghost use Rattle.group_table.specs.Joined.{IsWithin};
ghost use Rattle.row_blocks.specs.Blocks.{AreTimes};
ghost use Rattle.block_scan.specs.Reads.{IsRead, columns_of};
ghost use Rattle.block_scan.specs.Seen.{seen, seen_rows};
ghost use Rattle.block_scan.specs.Timed.{AreBetween};

use crate::columns::fold_columns;
use crate::reading::ReadColumn;
use leaf_model::{Groups, Query};
use std::alloc::{AllocError, Global};
use std::marker::Model;

/// The columns of a block that were read, the rows that are held, and bounds on all its times. Contracts see a block of
/// these columns alone.
#[derive(Drop)]
pub struct BlockView<'a> {
    rows: u32,
    skip: u32,
    horizon: i64,
    from: i64,
    to: i64,
    times: ReadColumn<'a>,
    others: Vec<ReadColumn<'a>>,
}

impl<'a> Model for BlockView<'a> {
    ghost use Rattle.std.specs.Prelude.{◌∷◌};
    ghost use Rattle.block_scan.specs.Reads.{columns_of};
    ghost use Rattle.block_scan.specs.Seen.{SeenBlock, seen};
    ghost use Rattle.block_scan.specs.Viewed.{IsViewed};

    ghost Value = { SeenBlock };

    ghost view = { λ v. seen v.skip v.horizon
        (record { rows = v.rows; columns = v.times.column.now ∷ columns_of v.others.items }) };

    ghost invariant = { λ v. IsViewed v.rows v.skip v.horizon v.from v.to v.times v.others.items };
}

impl<'a> BlockView<'a> {
    pub(crate) fn of(
        rows: u32,
        skip: u32,
        horizon: i64,
        from: i64,
        to: i64,
        times: ReadColumn<'a>,
        others: Vec<ReadColumn<'a>>,
    ) -> BlockView<'a>
        requires few { rows ≤ 65536 }
        requires skip { skip ≤ rows }
        requires timed { AreTimes rows times.column.now }
        requires times { IsRead rows times }
        requires between { AreBetween rows times.column.now from to }
        requires others { AllByRecursion (IsRead rows) others.items }
        ensures { result ≡ seen skip horizon
            (record { rows = rows; columns = times.entry.column.now ∷ columns_of others.entry.items }) }
    {
        BlockView {
            rows,
            skip,
            horizon,
            from,
            to,
            times,
            others,
        }
    }

    /// The groups of the rows that are held. Err if memory runs out.
    pub(crate) fn fold(&self, alloc: Global, query: &Query) -> Result<Groups, AllocError>
        ensures groups { IfOk result (λ gs. gs ≡ groups query.now (seen_rows self.now)) }
        ensures within { IfOk result (λ gs. AllByRecursion (IsWithin (length (seen_rows self.now))) gs) }
    {
        fold_columns(
            alloc,
            query,
            self.rows,
            &self.times,
            self.others.as_slice(),
            self.from,
            self.to,
            self.skip,
            self.horizon,
        )
    }
}
