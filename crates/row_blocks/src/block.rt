// A sealed block.
ghost use Rattle.std.specs.Prelude.{◌≡◌, ◌<◌, ◌≤◌, true, length, option_map, IfOk, IfErr, IfSome, IsPermutation};
ghost use Rattle.std.specs.List.{find};
ghost use Rattle.row_blocks.specs.declared.column.BlockColumn.{BlockColumn};
ghost use Rattle.row_blocks.specs.declared.fault.BlockFault.TheVariants.{NoRows};
ghost use Rattle.row_blocks.specs.Blocks.{Block, IsBlock, is_column, rows_in, times_of};
ghost use Rattle.time_range.specs.Ranges.{IsRange, IsRangeOf, NeverFall};

use crate::accepting::range_of_block;
use crate::column::{BlockColumn, BlockColumns};
use crate::fault::BlockFault;
use crate::headings::{is_kind, kind_in};
use crate::in_order::{FEW_CUTS, TimeOrder, sorted_times};
use column_bytes::Kind;
use leaf_model::Text;
use std::alloc::Global;
use std::marker::Model;
use time_range::TimeRange;

/// A block of 1 to 65,536 rows as columns, with its least and greatest time and whether its times never fall. Contracts
/// see the number of rows and the columns.
#[derive(Debug, Drop)]
pub struct RowBlock {
    rows: u32,
    range: TimeRange,
    columns: BlockColumns,
    order: TimeOrder,
}

impl Model for RowBlock {
    ghost use Rattle.row_blocks.specs.Blocks.{Block, IsBlock, rows_in, times_of};
    ghost use Rattle.row_blocks.specs.Ordered.{AreSorted};
    ghost use Rattle.time_range.specs.Ranges.{IsRangeOf};

    ghost Value = { Block };

    ghost view = { λ b. record { rows = b.rows; columns = b.columns } };

    ghost invariant = { λ b. IsBlock (record { rows = b.rows; columns = b.columns })
        × IsRangeOf (times_of (rows_in (record { rows = b.rows; columns = b.columns }))) b.range
        × AreSorted (times_of (rows_in (record { rows = b.rows; columns = b.columns }))) b.order.sorted };
}

impl RowBlock {
    /// Makes a block of columns that are known to be one; `range` is the range of their times.
    pub(crate) fn of(rows: u32, range: TimeRange, columns: BlockColumns) -> RowBlock
        requires block { IsBlock (record { rows = rows; columns = columns }) }
        requires range { IsRangeOf (times_of (rows_in (record { rows = rows; columns = columns }))) range }
        ensures { result ≡ record { rows = rows; columns = columns } }
    {
        RowBlock {
            rows,
            range,
            columns,
            order: TimeOrder::new(),
        }
    }

    /// The number of rows.
    pub fn rows(&self) -> u32
        ensures { result ≡ self.now.rows }
    {
        self.rows
    }

    /// No-op; states the invariant of a block.
    pub fn is_block(&self)
        ensures { IsBlock self.now }
    {
        let _ = &self.rows;
    }

    /// The least and the greatest time, cut rows included.
    pub fn range(&self) -> (i64, i64)
        ensures { IsRange (times_of (rows_in self.now)) result.0 result.1 }
    {
        (self.range.from, self.range.to)
    }

    /// Whether the times are known never to fall from one row to the next.
    pub(crate) fn in_order(&self) -> bool
        ensures { result ≡ true → NeverFall (times_of (rows_in self.now)) }
    {
        self.range.in_order
    }

    /// All times in ascending order. None unless they were sorted.
    pub(crate) fn sorted(&self) -> Option<&[i64]>
        ensures { IfSome result (λ sorted.
            IsPermutation (times_of (rows_in self.now)) sorted.now × NeverFall sorted.now) }
    {
        match &self.order.sorted {
            Some(sorted) => Some(sorted.as_slice()),
            None => None,
        }
    }

    /// Counts a horizon that cuts the block. After 8 of these, sorts the times of a block whose times fall, if there is
    /// memory.
    pub fn note_horizon(&mut self, alloc: Global, horizon: i64)
        ensures { self.new ≡ self.old }
    {
        if self.order.sorted.is_some() || self.range.in_order || horizon <= self.range.from {
            return;
        }
        if self.order.cuts < FEW_CUTS {
            self.order.cuts += 1;
            return;
        }
        self.order.sorted = sorted_times(alloc, self);
    }

    /// The columns; that of the times comes first.
    pub fn columns(&self) -> &[BlockColumn]
        ensures { result.now ≡ self.now.columns }
    {
        self.columns.as_slice()
    }

    /// The bytes of the column of that name and kind. None if there is none.
    pub fn column(&self, name: &Text, kind: Kind) -> Option<&[u8]>
        ensures { option_map (λ b. b.now) result
            ≡ option_map (λ (c : BlockColumn). c.bytes) (find (is_column name.now kind) self.now.columns) }
    {
        column_named(self.columns.as_slice(), name, kind)
    }

    /// Takes the columns out, in their order, without memory.
    pub fn into_columns(self) -> BlockColumns
        ensures columns { result ≡ self.columns }
        ensures block { IsBlock self }
    {
        self.columns
    }

    /// Makes a block of these columns, whatever their bytes are. NoRows exactly if they break a rule of a block.
    pub fn from_columns(
        alloc: Global,
        rows: u32,
        columns: BlockColumns,
    ) -> Result<RowBlock, BlockFault>
        ensures accepted { IfOk result (λ block. block ≡ record { rows = rows; columns = columns }) }
        ensures block { IfOk result IsBlock }
        ensures refused { IfErr result (λ e. e ≡ NoRows → IsBlock (record { rows = rows; columns = columns }) → ⊥) }
    {
        match range_of_block(alloc, rows, columns.as_slice()) {
            Ok(range) => Ok(RowBlock::of(rows, range, columns)),
            Err(fault) => Err(fault),
        }
    }
}

fn is_column(column: &BlockColumn, name: &Text, kind: Kind) -> bool
    ensures { result ≡ is_column name.now kind column.now }
{
    column.name.as_str() == name.as_str() && is_kind(kind_in(column.bytes.as_slice()), kind)
}

fn column_named<'a>(columns: &'a [BlockColumn], name: &Text, kind: Kind) -> Option<&'a [u8]>
    ensures { option_map (λ b. b.now) result
        ≡ option_map (λ (c : BlockColumn). c.bytes) (find (is_column name.now kind) columns.now) }
{
    for column in columns {
        if is_column(column, name, kind) {
            return Some(column.bytes.as_slice());
        }
    }
    None
}
