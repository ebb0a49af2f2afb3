// The blocks of a table: counts their live rows, and removes rows from the front.
ghost use Rattle.std.specs.Prelude.{◌≡◌, ◌<◌, ◌≤◌, ℕ, drop, length};
ghost use Rattle.std.specs.List.{AllByRecursion};
ghost use Rattle.row_blocks.specs.Blocks.{IsBlock};
ghost use Rattle.row_blocks.specs.Held.{IsSkip, columns_count};
ghost use Rattle.table_state.specs.Stored.{AreAhead, IsCut, sealed_rows, skip_left};
ghost use Rattle.table_state.specs.Tables.{most_rows};

use row_blocks::{Blocks, RowBlock};

/// The first `skip` rows of the first block are cut off, and at least `ahead` of its others are live: a keep that
/// removes fewer rows need not count them.
#[derive(Clone, Copy)]
pub struct Cut {
    pub skip: u32,
    pub ahead: u32,
}

/// The number of blocks to remove from the start, and the cut of the next one.
#[derive(Clone, Copy)]
struct FrontCut {
    blocks: usize,
    skip: u32,
    ahead: u32,
}

/// The number of live rows of the blocks. It takes no memory.
pub fn count_live(blocks: &[RowBlock], skip: u32, horizon: i64) -> u64
    requires cut { IsCut skip blocks.now }
    requires few { length (sealed_rows blocks.now skip horizon) ≤ most_rows }
    ensures { result ≡ length (sealed_rows blocks.now skip horizon) }
{
    let mut live = 0;
    let mut cut = skip;
    for block in blocks {
        live += u64::from(block.count_live(cut, horizon));
        cut = 0;
    }
    live
}

/// The number of live rows of the blocks, and a lower bound of those of the first block.
#[derive(Clone, Copy)]
pub struct Live {
    pub all: u64,
    pub ahead: u32,
}

/// Counts the live rows of the blocks, unless they were counted for the same horizon: `counted` is the count for `old`.
pub fn recount(blocks: &[RowBlock], skip: u32, horizon: i64, old: i64, counted: Live) -> Live
    requires cut { IsCut skip blocks.now }
    requires few { length (sealed_rows blocks.now skip horizon) ≤ most_rows }
    requires same { old ≡ horizon → (counted.all ≡ length (sealed_rows blocks.now skip horizon))
        × AreAhead counted.ahead blocks.now skip horizon }
    ensures all { result.all ≡ length (sealed_rows blocks.now skip horizon) }
    ensures ahead { AreAhead result.ahead blocks.now skip horizon }
{
    if old == horizon {
        return counted;
    }
    Live {
        all: count_live(blocks, skip, horizon),
        ahead: 0,
    }
}

fn skip_left(blocks: &[RowBlock], skip: u32, horizon: i64) -> u32
    ensures { result ≡ skip_left skip horizon blocks.now }
{
    match blocks {
        [] => 0,
        [first, ..] => { if first.has_live(horizon) { skip } else { 0 } }
    }
}

/// Removes the blocks that have no row at or after the horizon. Gives the cut of the block that is then the first. It
/// needs no memory: a block that horizons cut often sorts its times only if there is some.
pub fn leave_live(blocks: &mut Blocks, skip: u32, horizon: i64) -> u32
    requires cut { IsSkip skip blocks.old }
    requires sealed { AllByRecursion IsBlock blocks.old }
    ensures cut { IsSkip result blocks.new }
    ensures sealed { AllByRecursion IsBlock blocks.new }
    ensures rows { sealed_rows blocks.new result horizon ≡ sealed_rows blocks.old skip horizon }
    ensures ahead { (n : ℕ) → AreAhead n blocks.old skip horizon → AreAhead n blocks.new result horizon }
    ensures columns { columns_count blocks.new ≤ columns_count blocks.old }
{
    let left = skip_left(blocks.as_slice(), skip, horizon);
    blocks.retain_live(horizon);
    blocks.note_horizon(horizon);
    left
}

/// The place after the first `gone` live rows.
fn front_of(blocks: &[RowBlock], skip: u32, horizon: i64, gone: u64) -> FrontCut
    requires cut { IsCut skip blocks.now }
    requires few { gone ≤ length (sealed_rows blocks.now skip horizon) }
    ensures blocks { result.blocks ≤ length blocks.now }
    ensures cut { IsSkip result.skip (drop result.blocks blocks.now) }
    ensures rows { sealed_rows (drop result.blocks blocks.now) result.skip horizon
        ≡ drop gone (sealed_rows blocks.now skip horizon) }
    ensures ahead { AreAhead result.ahead (drop result.blocks blocks.now) result.skip horizon }
{
    let mut left = gone;
    let mut cut = skip;
    for i in 0..blocks.len() {
        let live = blocks[i].count_live(cut, horizon);
        if left < u64::from(live) {
            let skip = blocks[i].place_behind(cut, horizon, left as u32);
            let ahead = live - left as u32;
            return FrontCut {
                blocks: i,
                skip,
                ahead,
            };
        }
        left -= u64::from(live);
        cut = 0;
    }
    FrontCut {
        blocks: blocks.len(),
        skip: 0,
        ahead: 0,
    }
}

/// The cut after the first `gone` live rows, which all stand in the first block. It walks over these rows alone.
fn cut_first(blocks: &[RowBlock], cut: Cut, horizon: i64, gone: u32) -> Cut
    requires cut { IsSkip cut.skip blocks.now }
    requires ahead { AreAhead cut.ahead blocks.now cut.skip horizon }
    requires few { gone < cut.ahead }
    ensures cut { IsSkip result.skip blocks.now }
    ensures rows { sealed_rows blocks.now result.skip horizon ≡ drop gone (sealed_rows blocks.now cut.skip horizon) }
    ensures ahead { AreAhead result.ahead blocks.now result.skip horizon }
{
    match blocks {
        [] => unreachable!(),
        [first, ..] => Cut {
            skip: first.place_behind(cut.skip, horizon, gone),
            ahead: cut.ahead - gone,
        },
    }
}

/// Removes the first `gone` live rows, and each block that has no row left. Gives the cut of the block that is then the
/// first.
pub fn cut_front(blocks: &mut Blocks, cut: Cut, horizon: i64, gone: u64) -> Cut
    requires cut { IsSkip cut.skip blocks.old }
    requires ahead { AreAhead cut.ahead blocks.old cut.skip horizon }
    requires sealed { AllByRecursion IsBlock blocks.old }
    requires few { gone ≤ length (sealed_rows blocks.old cut.skip horizon) }
    ensures cut { IsSkip result.skip blocks.new }
    ensures sealed { AllByRecursion IsBlock blocks.new }
    ensures rows { sealed_rows blocks.new result.skip horizon ≡ drop gone (sealed_rows blocks.old cut.skip horizon) }
    ensures ahead { AreAhead result.ahead blocks.new result.skip horizon }
    ensures columns { columns_count blocks.new ≤ columns_count blocks.old }
{
    if gone < u64::from(cut.ahead) {
        return cut_first(blocks.as_slice(), cut, horizon, gone as u32);
    }
    let front = front_of(blocks.as_slice(), cut.skip, horizon, gone);
    blocks.drop_first(front.blocks);
    Cut {
        skip: front.skip,
        ahead: front.ahead,
    }
}
