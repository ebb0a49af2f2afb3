// Moves the columns out of their tables. There is room for them, so nothing can fail.
ghost use Rattle.std.specs.Prelude.{◌≡◌, ◌+◌, ◌≤◌, ◌++◌, length};
ghost use Rattle.std.specs.VecDeque.{deque_capacity, deque_len};
ghost use Rattle.row_blocks.specs.Held.{columns_count};
ghost use Rattle.region_layout.specs.Drained.{all_columns};
ghost use Rattle.drain_copy.specs.Planned.{blocks_bytes, columns_bytes, tables_count};

use region_layout::DrainTable;
use row_blocks::{BlockColumn, ColumnBytes, RowBlock};
use std::collections::VecDeque;

pub fn move_tables(tables: Vec<DrainTable>, out: &mut VecDeque<ColumnBytes>)
    requires { deque_len out.old + tables_count tables.items ≤ deque_capacity out.old }
    ensures { out.new.items ≡ out.old.items ++ all_columns tables.items }
{
    let mut rest = VecDeque::from_vec(tables);
    while let Some(table) = rest.pop_front() {
        move_blocks(table.parts.blocks.into_inner(), out);
    }
}

fn move_blocks(blocks: Vec<RowBlock>, out: &mut VecDeque<ColumnBytes>)
    requires { deque_len out.old + columns_count blocks.items ≤ deque_capacity out.old }
    ensures items { out.new.items ≡ out.old.items ++ blocks_bytes blocks.items }
    ensures len { deque_len out.new ≡ deque_len out.old + columns_count blocks.items }
    ensures capacity { deque_capacity out.new ≡ deque_capacity out.old }
{
    let mut rest = VecDeque::from_vec(blocks);
    while let Some(block) = rest.pop_front() {
        move_columns(block.into_columns().into_inner(), out);
    }
}

fn move_columns(columns: Vec<BlockColumn>, out: &mut VecDeque<ColumnBytes>)
    requires { deque_len out.old + length columns.items ≤ deque_capacity out.old }
    ensures items { out.new.items ≡ out.old.items ++ columns_bytes columns.items }
    ensures len { deque_len out.new ≡ deque_len out.old + length columns.items }
    ensures capacity { deque_capacity out.new ≡ deque_capacity out.old }
{
    let mut rest = VecDeque::from_vec(columns);
    while let Some(column) = rest.pop_front() {
        out.push_back_reserved(column.bytes);
    }
}
