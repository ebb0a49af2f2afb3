// Rows that are sealed into a block, and a block that its own columns are taken for, with ample memory.
ghost use Rattle.std.specs.Prelude.{◌≡◌, ◌<◌};

use crate::rows::{CODED, TIMES, three_rows};
use column_bytes::{ColumnView, Kind, NoColumn, ValueRef};
use leaf_model::{Steps, Text};
use row_blocks::{BlockFault, RowBlock, seal};
use std::alloc::{AllocError, Global};
use std::marker::Brand;
use std::sync::ledger::{Blank, Ledger};
use std::test::Fail;

// The block of three rows.
fn sealed(alloc: Global, bytes: &[u8]) -> Result<Option<RowBlock>, AllocError> {
    let rows = three_rows(alloc, bytes)?;
    let rows = rows.lend();
    if rows.len() == 0 || rows.len() > 65536 {
        return Ok(None);
    }
    let block = seal(alloc, &rows)?;
    Ok(Some(block))
}

#[test]
fn a_block_has_the_least_and_the_greatest_time(rt: HostRuntime) -> Result<(), Fail> {
    let Some(block) = sealed(rt.alloc(), TIMES)? else {
        panic!(rt; "no block");
    };
    let (from, to) = block.range();
    assert_eq!(rt; from, 10);
    assert_eq!(rt; to, 30);
    assert_eq!(rt; block.rows(), 3);
    assert_eq!(rt; block.columns().len(), 1);
    Ok(())
}

#[test]
fn a_block_is_taken_again_for_as_many_rows_alone(rt: HostRuntime) -> Result<(), Fail> {
    let alloc = rt.alloc();
    let Some(block) = sealed(alloc, TIMES)? else {
        panic!(rt; "no block");
    };
    match RowBlock::from_columns(alloc, 3, block.into_columns()) {
        Ok(again) => assert_eq!(rt; again.rows(), 3),
        Err(fault) => panic!(rt; "{fault:?}"),
    }
    let Some(block) = sealed(alloc, TIMES)? else {
        panic!(rt; "no block");
    };
    match RowBlock::from_columns(alloc, 4, block.into_columns()) {
        Ok(_) => panic!(rt; "a block of four rows"),
        Err(fault) => assert_eq!(rt; fault, BlockFault::NoRows),
    }
    Ok(())
}

// Whether these cells are the integers.
fn are_integers(view: &ColumnView, integers: &[i64]) -> bool {
    let mut same = view.len() as usize == integers.len();
    for i in 0..view.len() {
        let cell = view.cell(i);
        same = same
            && matches!(cell, Some(ValueRef::Int(n)) if integers.get(i as usize) == Some(&n));
    }
    same
}

fn are_integers_counted<L: Ledger>(bytes: &[u8], integers: &[i64], blank: Blank) -> bool
    requires name { blank.name ≡ L.name }
    requires parts { blank.parts ≡ L.parts }
    requires some { 0 < blank.parts }
{
    let mut steps: Steps<L> = Steps::new(blank);
    match ColumnView::read(bytes, &mut steps) {
        Ok(view) => are_integers(&view, integers),
        Err(NoColumn) => false,
    }
}

// Whether the block has a column of that name and kind, with these integers.
fn has_integers(block: &RowBlock, name: &Text, integers: &[i64]) -> bool {
    match block.column(name, Kind::Ints) {
        Some(bytes) => are_integers_counted::<Brand>(bytes, integers, Blank::new(1)),
        None => false,
    }
}

#[test]
fn a_column_is_found_by_its_name_and_its_kind(rt: HostRuntime) -> Result<(), Fail> {
    let alloc = rt.alloc();
    let Some(block) = sealed(alloc, CODED)? else {
        panic!(rt; "no block");
    };
    for (name, integers) in [("time", [1, 2, 3]), ("code", [1, 0, 3])] {
        let name = Text::of(String::from_str(alloc, name)?);
        assert!(rt; has_integers(&block, &name, &integers));
        assert!(rt; block.column(&name, Kind::Texts).is_none());
    }
    let other = Text::of(String::from_str(alloc, "codes")?);
    assert!(rt; block.column(&other, Kind::Ints).is_none());
    Ok(())
}
