// Tables whose adds fill whole blocks of 65,536 rows, with ample memory.
ghost use Rattle.std.specs.Prelude.{◌+◌, ◌<◌, ◌≤◌};
ghost use Rattle.std.specs.List.{AllByRecursion};
ghost use Rattle.row_model.specs.Values.{IsRow};
ghost use Rattle.table_state.specs.Tables.{MayWrite};

use crate::rows::{alike, in_order};
use crate::scans::{count_and_least, counting};
use crate::tables::standing;
use leaf_model::{Rows, Text};
use std::alloc::{AllocError, Global};
use std::test::Fail;
use table_state::TableState;

/// Adds rows, and answers how many were kept.
fn add(table: &mut TableState, name: &Text, rows: Rows) -> Result<u64, AllocError>
    requires may { MayWrite name.now table.old }
    requires few { table.old.writes < 1000 }
    requires rows { AllByRecursion IsRow rows }
    ensures may { MayWrite name.now table.new }
    ensures writes { table.new.writes ≤ table.old.writes + 1 }
{
    match table.add(name, rows) {
        Ok(added) => Ok(added.kept),
        Err(_) => Err(AllocError),
    }
}

#[test]
fn a_whole_run_leaves_no_tail_and_one_row_more_is_the_tail(rt: HostRuntime) -> Result<(), Fail> {
    let alloc = rt.alloc();
    let name = Text::of(String::from_str(alloc, "t")?);
    let mut table = TableState::new(alloc);
    let kept = add(&mut table, &name, alike(alloc, 65536)?)?;
    assert_eq!(rt; kept, 65536);
    assert_eq!(rt; standing(&table), (1, 0, 0, 65536));
    let kept = add(&mut table, &name, alike(alloc, 1)?)?;
    assert_eq!(rt; kept, 1);
    assert_eq!(rt; standing(&table), (1, 0, 1, 65537));
    Ok(())
}

/// The last rows, as many as are kept, of two runs with the times 0 to 131,071; and the number of rows that went.
fn last_of_two_runs(alloc: Global, n: u64) -> Result<(TableState, u64), AllocError> {
    let name = Text::of(String::from_str(alloc, "t")?);
    let mut table = TableState::new(alloc);
    add(&mut table, &name, in_order(alloc, 0, 65536)?)?;
    add(&mut table, &name, in_order(alloc, 65536, 65536)?)?;
    let removed = table.keep(&name, n)?;
    Ok((table, removed))
}

#[test]
fn a_keep_cuts_a_block_off_and_into_the_next(rt: HostRuntime) -> Result<(), Fail> {
    let alloc = rt.alloc();
    let (table, removed) = last_of_two_runs(alloc, 65530)?;
    assert_eq!(rt; removed, 65542);
    assert_eq!(rt; standing(&table), (1, 6, 0, 65530));
    let query = counting(alloc, 0, 131071)?;
    let told = count_and_least(&rt, alloc, &query, &table)?;
    assert_eq!(rt; told, (65530, Some(65542)));
    Ok(())
}
