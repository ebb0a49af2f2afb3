// Tables of sealed blocks and a tail, with ample memory: how their rows stand, and tables that are handed over in
// parts.
ghost use Rattle.std.specs.Prelude.{◌≡◌, ◌≤◌, ◌<◌, ◌+◌, [], IfOk, OnOk};

use crate::rows::{LATER, TIMES, alike, three_rows};
use leaf_model::{Text, Write};
use std::alloc::{AllocError, Global};
use std::test::Fail;
use table_state::{Added, TableState};

/// The number of blocks, of rows that are cut off the first, of rows in the tail, and of all rows.
pub fn standing(table: &TableState) -> (u64, u32, u32, u64) {
    (table.sealed(), table.skip(), table.tail(), table.rows())
}

/// Adds three rows and seals them as a block.
pub fn seal_three(alloc: Global, table: &mut TableState, bytes: &[u8]) -> Result<(), AllocError>
    requires { table.old.writes < 1000 }
    ensures writes { table.new.writes ≤ table.old.writes + 1 }
    ensures pending { table.new.pending ≡ table.old.pending }
    ensures tail { OnOk result (table.new.store.tail ≡ []) }
{
    let rows = three_rows(alloc, bytes)?;
    let _added = table.replay(Write::Add(rows)).is_ok();
    table.seal_tail()
}

#[test]
fn a_run_of_rows_is_sealed_and_one_row_more_is_the_tail(rt: HostRuntime) -> Result<(), Fail> {
    let alloc = rt.alloc();
    let name = Text::of(String::from_str(alloc, "t")?);
    let mut table = TableState::new(alloc);
    let added = table.add(&name, alike(alloc, 65537)?);
    assert!(rt;
        matches!(
            added,
            Ok(Added {
                kept: 65537,
                late: 0
            })
        )
    );
    assert_eq!(rt; standing(&table), (1, 0, 1, 65537));
    Ok(())
}

/// The place of the rows of two blocks of three rows after a keep and an expiry.
fn cut_and_expired(
    alloc: Global,
    keep: u64,
    expire: u32,
) -> Result<[(u64, u32, u32, u64); 2], AllocError> {
    let mut table = TableState::new(alloc);
    seal_three(alloc, &mut table, TIMES)?;
    seal_three(alloc, &mut table, LATER)?;
    let _kept = table.replay(Write::Keep(keep)).is_ok();
    let kept = standing(&table);
    let _expired = table.replay(Write::Expire(i64::from(expire))).is_ok();
    Ok([kept, standing(&table)])
}

#[test]
fn a_dead_block_goes_with_its_cut(rt: HostRuntime) -> Result<(), Fail> {
    let alloc = rt.alloc();
    // The last row of the first block has the time 20, and the second block has the times 31, 50 and 40.
    assert_eq!(rt;
        cut_and_expired(alloc, 4, 20)?,
        [(2, 2, 0, 4), (2, 2, 0, 4)]
    );
    assert_eq!(rt;
        cut_and_expired(alloc, 4, 31)?,
        [(2, 2, 0, 4), (1, 0, 0, 3)]
    );
    assert_eq!(rt;
        cut_and_expired(alloc, 2, 40)?,
        [(1, 1, 0, 2), (1, 1, 0, 2)]
    );
    assert_eq!(rt;
        cut_and_expired(alloc, 3, 51)?,
        [(1, 0, 0, 3), (0, 0, 0, 0)]
    );
    Ok(())
}

#[test]
fn a_sealed_tail_is_handed_over_and_back(rt: HostRuntime) -> Result<(), Fail> {
    let alloc = rt.alloc();
    let mut table = TableState::new(alloc);
    seal_three(alloc, &mut table, TIMES)?;
    let table = TableState::from_parts(table.into_parts());
    assert_eq!(rt; standing(&table), (1, 0, 0, 3));
    let block = table.blocks().as_slice().first().expect(&rt, "a block");
    assert_eq!(rt; block.range(), (10, 30));
    Ok(())
}
