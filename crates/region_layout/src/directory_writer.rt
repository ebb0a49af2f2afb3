// Appends a directory to what was written before.
ghost use Rattle.std.specs.Prelude.{◌≡◌, ◌≤◌, ◌++◌, length, OnOk};
ghost use Rattle.std.specs.List.{flat_map, AllByRecursion};
ghost use Rattle.leaf_model.specs.Bytes.{name_bytes, i64_bytes, u32_bytes, u64_bytes};
ghost use Rattle.region_layout.specs.Written.{place_bytes, block_bytes, table_bytes, directory_bytes, PlaceFits, BlockFits, TableFits, MayBeWritten};

use crate::directory::{BlockPlaces, Directory, Place, TablePlaces};
use std::alloc::AllocError;

fn put_u32(out: &mut Vec<u8>, number: u32) -> Result<(), AllocError>
    ensures { OnOk result (out.new.items ≡ out.old.items ++ u32_bytes number) }
{
    out.extend_from_slice(&number.to_le_bytes())
}

fn put_u64(out: &mut Vec<u8>, number: u64) -> Result<(), AllocError>
    ensures { OnOk result (out.new.items ≡ out.old.items ++ u64_bytes number) }
{
    out.extend_from_slice(&number.to_le_bytes())
}

fn put_horizon(out: &mut Vec<u8>, table: &TablePlaces) -> Result<(), AllocError>
    ensures { OnOk result (out.new.items ≡ out.old.items ++ i64_bytes table.now.horizon) }
{
    out.extend_from_slice(&table.horizon.to_le_bytes())
}

fn put_name(out: &mut Vec<u8>, name: &str) -> Result<(), AllocError>
    requires { length name.now ≤ 255 }
    ensures { OnOk result (out.new.items ≡ out.old.items ++ name_bytes name.now) }
{
    out.push(name.len() as u8)?;
    out.extend_from_slice(name.as_bytes())
}

fn put_place(out: &mut Vec<u8>, place: &Place) -> Result<(), AllocError>
    requires { PlaceFits place.now }
    ensures { OnOk result (out.new.items ≡ out.old.items ++ place_bytes place.now) }
{
    put_name(out, place.name.as_str())?;
    put_u64(out, place.place)?;
    put_u64(out, place.length)
}

fn put_places(out: &mut Vec<u8>, places: &[Place]) -> Result<(), AllocError>
    requires { AllByRecursion PlaceFits places.now }
    ensures { OnOk result (out.new.items ≡ out.old.items ++ flat_map place_bytes places.now) }
{
    for place in places {
        put_place(out, place)?;
    }
    Ok(())
}

#[tactic(auto, unfolding(crate::specs::Written::block_bytes))]
fn put_block(out: &mut Vec<u8>, block: &BlockPlaces) -> Result<(), AllocError>
    requires { BlockFits block.now }
    ensures { OnOk result (out.new.items ≡ out.old.items ++ block_bytes block.now) }
{
    let columns = block.columns.as_slice();
    put_u32(out, block.rows)?;
    put_u32(out, columns.len() as u32)?;
    put_places(out, columns)
}

fn put_blocks(out: &mut Vec<u8>, blocks: &[BlockPlaces]) -> Result<(), AllocError>
    requires { AllByRecursion BlockFits blocks.now }
    ensures { OnOk result (out.new.items ≡ out.old.items ++ flat_map block_bytes blocks.now) }
{
    for block in blocks {
        put_block(out, block)?;
    }
    Ok(())
}

/// Appends the fields of a table that come before the skip.
fn put_table_head(out: &mut Vec<u8>, table: &TablePlaces) -> Result<(), AllocError>
    requires { TableFits table.now }
    ensures { OnOk result (out.new.items ≡ out.old.items
        ++ (name_bytes table.now.name ++ (i64_bytes table.now.horizon ++ u64_bytes table.now.writes))) }
{
    put_name(out, table.name.as_str())?;
    put_horizon(out, table)?;
    put_u64(out, table.writes)
}

fn put_counted_blocks(out: &mut Vec<u8>, table: &TablePlaces) -> Result<(), AllocError>
    requires { TableFits table.now }
    ensures { OnOk result (out.new.items ≡ out.old.items
        ++ (u32_bytes table.now.skip
        ++ (u32_bytes (length table.now.blocks) ++ flat_map block_bytes table.now.blocks))) }
{
    let blocks = table.blocks.as_slice();
    put_u32(out, table.skip)?;
    put_u32(out, blocks.len() as u32)?;
    put_blocks(out, blocks)
}

#[tactic(auto, unfolding(crate::specs::Written::table_bytes))]
fn put_table(out: &mut Vec<u8>, table: &TablePlaces) -> Result<(), AllocError>
    requires { TableFits table.now }
    ensures { OnOk result (out.new.items ≡ out.old.items ++ table_bytes table.now) }
{
    put_table_head(out, table)?;
    put_counted_blocks(out, table)
}

fn put_tables(out: &mut Vec<u8>, tables: &[TablePlaces]) -> Result<(), AllocError>
    requires { AllByRecursion TableFits tables.now }
    ensures { OnOk result (out.new.items ≡ out.old.items ++ flat_map table_bytes tables.now) }
{
    for table in tables {
        put_table(out, table)?;
    }
    Ok(())
}

#[tactic(auto, unfolding(crate::specs::Written::directory_bytes))]
pub(crate) fn put_directory(out: &mut Vec<u8>, directory: &Directory) -> Result<(), AllocError>
    requires { MayBeWritten directory.now }
    ensures { OnOk result (out.new.items ≡ out.old.items ++ directory_bytes directory.now) }
{
    let tables = directory.tables.as_slice();
    put_u64(out, directory.log_end)?;
    out.push(tables.len() as u8)?;
    put_tables(out, tables)
}
