// Counts and finds the rows of a block that are at or after a horizon, without memory.
ghost use Rattle.std.specs.Prelude.{◌≡◌, ◌-◌, ◌<◌, ◌≤◌, length, drop, int_le};
ghost use Rattle.row_blocks.specs.Blocks.{rows_in, times_of};
ghost use Rattle.row_blocks.specs.Held.{live_rows};
ghost use Rattle.row_blocks.specs.Live.{AreTimesOf, has_live, time_at};
ghost use Rattle.row_blocks.specs.Ordered.{IsFirstLive};
ghost use Rattle.time_range.specs.Ranges.{NeverFall};

use crate::block::RowBlock;
use crate::in_order::first_from;
use crate::reading::view_of;
use column_bytes::{ColumnView, ValueRef};

/// The column of the times, read.
pub(crate) fn times_view(block: &RowBlock) -> ColumnView<'_>
    ensures { AreTimesOf result block.now }
{
    block.is_block();
    match block.columns() {
        [] => unreachable!(),
        [times, ..] => match view_of(times.bytes.as_slice()) {
            Some(view) => view,
            None => unreachable!(),
        },
    }
}

/// The time of row `place`.
pub(crate) fn time_at(block: &RowBlock, times: &ColumnView, place: u32) -> i64
    requires times { AreTimesOf times.now block.now }
    requires place { place < block.now.rows }
    ensures { result ≡ time_at block.now place }
{
    match times.cell(place) {
        Some(ValueRef::Int(time)) => time,
        Some(ValueRef::Text(_)) | Some(ValueRef::Set(_)) | None => unreachable!(),
    }
}

fn is_live(block: &RowBlock, times: &ColumnView, place: u32, horizon: i64) -> bool
    requires times { AreTimesOf times.now block.now }
    requires place { place < block.now.rows }
    ensures { result ≡ int_le horizon (time_at block.now place) }
{
    horizon <= time_at(block, times, place)
}

/// The time of row `place` on a walk from `skip` on, given the time of the row before. The first is decoded alone, each
/// other one from the one before.
#[inline(always)]
pub(crate) fn walked_time(
    block: &RowBlock,
    times: &ColumnView,
    skip: u32,
    place: u32,
    before: i64,
) -> i64
    requires times { AreTimesOf times.now block.now }
    requires behind { skip ≤ place }
    requires place { place < block.now.rows }
    requires before { skip < place → before ≡ time_at block.now (place - 1) }
    ensures { result ≡ time_at block.now place }
{
    if place == skip {
        time_at(block, times, place)
    } else {
        times.next_integer(place, before)
    }
}

fn count_from(block: &RowBlock, times: &ColumnView, skip: u32, horizon: i64) -> u32
    requires times { AreTimesOf times.now block.now }
    requires skip { skip ≤ block.now.rows }
    ensures { result ≡ length (live_rows skip horizon block.now) }
{
    let mut live = 0;
    let mut time = 0;
    for place in skip..block.rows() {
        time = walked_time(block, times, skip, place, time);
        live += u32::from(horizon <= time);
    }
    live
}

/// The same. It looks into the sorted times, if there are any and no row is cut off.
fn count_out_of_order(block: &RowBlock, skip: u32, horizon: i64) -> u32
    requires skip { skip ≤ block.now.rows }
    ensures { result ≡ length (live_rows skip horizon block.now) }
{
    block.is_block();
    if skip == 0 {
        if let Some(sorted) = block.sorted() {
            return (sorted.len() - first_from(sorted, horizon)) as u32;
        }
    }
    count_from(block, &times_view(block), skip, horizon)
}

fn place_from(block: &RowBlock, times: &ColumnView, skip: u32, horizon: i64, n: u32) -> u32
    requires times { AreTimesOf times.now block.now }
    requires few { n < length (live_rows skip horizon block.now) }
    ensures place { result < block.now.rows }
    ensures left { live_rows result horizon block.now ≡ drop n (live_rows skip horizon block.now) }
{
    let mut left = n;
    let mut time = 0;
    for place in skip..block.rows() {
        if left == 0 {
            return place;
        }
        time = walked_time(block, times, skip, place, time);
        left -= u32::from(horizon <= time);
    }
    unreachable!()
}

/// The first place from `skip` on whose row is at or after the horizon. If there is none, the number of rows. It is a
/// binary search, so the times must never fall.
fn first_live(block: &RowBlock, times: &ColumnView, skip: u32, horizon: i64) -> u32
    requires times { AreTimesOf times.now block.now }
    requires skip { skip ≤ block.now.rows }
    requires order { NeverFall (times_of (rows_in block.now)) }
    ensures { IsFirstLive skip result horizon block.now }
{
    let mut first = skip;
    let mut end = block.rows();
    while first < end {
        let middle = first + (end - first) / 2;
        if is_live(block, times, middle, horizon) {
            end = middle;
        } else {
            first = middle + 1;
        }
    }
    first
}

impl RowBlock {
    /// Whether some row of the block is at or after the horizon, cut rows included.
    pub fn has_live(&self, horizon: i64) -> bool
        ensures { result ≡ has_live horizon self.now }
    {
        horizon <= self.range().1
    }

    /// The number of rows from place `skip` on that are at or after the horizon. Takes no memory.
    pub fn count_live(&self, skip: u32, horizon: i64) -> u32
        requires { skip ≤ self.now.rows }
        ensures { result ≡ length (live_rows skip horizon self.now) }
    {
        if horizon <= self.range().0 {
            self.rows() - skip
        } else if self.in_order() {
            self.rows() - first_live(self, &times_view(self), skip, horizon)
        } else {
            count_out_of_order(self, skip, horizon)
        }
    }

    /// The place after the first n rows that stand from `skip` on and are at or after the horizon. It takes no memory.
    pub fn place_behind(&self, skip: u32, horizon: i64, n: u32) -> u32
        requires { n < length (live_rows skip horizon self.now) }
        ensures place { result < self.now.rows }
        ensures left { live_rows result horizon self.now ≡ drop n (live_rows skip horizon self.now) }
    {
        self.is_block();
        if horizon <= self.range().0 {
            skip + n
        } else if self.in_order() {
            first_live(self, &times_view(self), skip, horizon) + n
        } else {
            place_from(self, &times_view(self), skip, horizon, n)
        }
    }
}
