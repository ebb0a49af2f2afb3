// The text that shows a region.
ghost use Rattle.std.specs.Prelude.{◌≡◌, ◌++◌, ◌∷◌, [], codes, decimal, length, option_map, IfOk, OnOk, string_bytes};
ghost use Rattle.std.specs.Fmt.{signed_decimal};
ghost use Rattle.std.specs.List.{flat_map};
ghost use Rattle.region_inspect.specs.Lines.{block_text, blocks_text, region_text, seen_text, table_text};

use crate::seen::{BlockLine, Seen, TableLine};
use std::alloc::{AllocError, Global};

fn put_block_head(
    out: &mut Vec<u8>,
    name: &str,
    number: u64,
    block: &BlockLine,
) -> Result<(), AllocError>
    ensures { OnOk result (out.new.items ≡ out.old.items
        ++ (name.now ++ (codes " block " ++ (decimal number ++ (codes " rows " ++ decimal block.now.rows))))) }
{
    let rows = block.rows;
    let text = format!(in *out.allocator(); "{name} block {number} rows {rows}")?;
    out.extend_from_slice(text.as_bytes())
}

fn put_block_rest(out: &mut Vec<u8>, block: &BlockLine) -> Result<(), AllocError>
    ensures { OnOk result (out.new.items ≡ out.old.items
        ++ (codes " from " ++ (signed_decimal block.now.from
        ++ (codes " to " ++ (signed_decimal block.now.to ++ (codes " columns " ++ (decimal block.now.columns
        ++ (codes " bytes " ++ (decimal block.now.bytes ++ 10 ∷ []))))))))) }
{
    let BlockLine {
        rows: _,
        from,
        to,
        columns,
        bytes,
    } = *block;
    let text = format!(in *out.allocator();
        " from {from} to {to} columns {columns} bytes {bytes}\n"
    )?;
    out.extend_from_slice(text.as_bytes())
}

fn put_block(
    out: &mut Vec<u8>,
    name: &str,
    number: u64,
    block: &BlockLine,
) -> Result<(), AllocError>
    ensures { OnOk result (out.new.items ≡ out.old.items ++ block_text name.now number block.now) }
{
    put_block_head(out, name, number, block)?;
    put_block_rest(out, block)
}

fn put_blocks(out: &mut Vec<u8>, name: &str, blocks: &[BlockLine]) -> Result<(), AllocError>
    ensures { OnOk result (out.new.items ≡ out.old.items ++ blocks_text name.now 0 blocks.now) }
{
    let mut number: u64 = 0;
    for block in blocks {
        put_block(out, name, number, block)?;
        number += 1;
    }
    Ok(())
}

fn put_head(out: &mut Vec<u8>, table: &TableLine) -> Result<(), AllocError>
    ensures { OnOk result (out.new.items ≡ out.old.items
        ++ (table.now.name ++ (codes " rows " ++ (decimal table.now.rows ++ (codes " writes "
        ++ (decimal table.now.writes
        ++ (codes " horizon " ++ (signed_decimal table.now.horizon
        ++ (codes " blocks " ++ (decimal (length table.now.blocks) ++ 10 ∷ [])))))))))) }
{
    let name = table.name.as_str();
    let rows = table.rows;
    let writes = table.writes;
    let horizon = table.horizon;
    let count = table.blocks.as_slice().len();
    let text = format!(in *out.allocator();
        "{name} rows {rows} writes {writes} horizon {horizon} blocks {count}\n"
    )?;
    out.extend_from_slice(text.as_bytes())
}

fn put_table(out: &mut Vec<u8>, table: &TableLine) -> Result<(), AllocError>
    ensures { OnOk result (out.new.items ≡ out.old.items ++ table_text table.now) }
{
    put_head(out, table)?;
    put_blocks(out, table.name.as_str(), table.blocks.as_slice())
}

fn put_tables(out: &mut Vec<u8>, tables: &[TableLine]) -> Result<(), AllocError>
    ensures { OnOk result (out.new.items ≡ out.old.items ++ flat_map table_text tables.now) }
{
    for table in tables {
        put_table(out, table)?;
    }
    Ok(())
}

fn put_image(out: &mut Vec<u8>, version: u32, log_end: u64, count: usize) -> Result<(), AllocError>
    ensures { OnOk result (out.new.items ≡ out.old.items
        ++ (codes " image " ++ (decimal version
        ++ (codes " tables " ++ (decimal count ++ (codes " log " ++ (decimal log_end ++ 10 ∷ []))))))) }
{
    let text = format!(in *out.allocator(); " image {version} tables {count} log {log_end}\n")?;
    out.extend_from_slice(text.as_bytes())
}

fn put_number(out: &mut Vec<u8>, word: &str, number: u32) -> Result<(), AllocError>
    ensures { OnOk result (out.new.items ≡ out.old.items ++ word.now ++ (decimal number ++ 10 ∷ [])) }
{
    let text = format!(in *out.allocator(); "{word}{number}\n")?;
    out.extend_from_slice(text.as_bytes())
}

fn put_seen(out: &mut Vec<u8>, seen: &Seen) -> Result<(), AllocError>
    ensures { OnOk result (out.new.items ≡ out.old.items ++ seen_text seen.now) }
{
    match seen {
        Seen::NoHead => out.extend_from_slice(b" nohead\n"),
        Seen::Closed(flag) => put_number(out, " closed ", u32::from(*flag)),
        Seen::OtherVersion(version) => put_number(out, " version ", *version),
        Seen::NoImage => out.extend_from_slice(b" noimage\n"),
        Seen::Image {
            version,
            log_end,
            tables,
        } => {
            put_image(out, *version, *log_end, tables.as_slice().len())?;
            put_tables(out, tables.as_slice())
        }
    }
}

fn head_of(alloc: Global, leaf: u32) -> Result<Vec<u8>, AllocError>
    ensures { IfOk result (λ bytes. bytes.items ≡ codes "region " ++ decimal leaf) }
{
    let text = format!(in alloc; "region {leaf}")?;
    Ok(text.into_bytes())
}

/// The lines that `inspect` prints of a leaf. `None` says that its berth failed.
pub fn region_lines(alloc: Global, leaf: u32, told: Option<&Seen>) -> Result<Vec<u8>, AllocError>
    ensures { IfOk result (λ bytes. bytes.items ≡ region_text leaf (option_map (λ s. s.now) told.entry)) }
{
    let mut out = head_of(alloc, leaf)?;
    match told {
        Some(seen) => put_seen(&mut out, seen)?,
        None => out.extend_from_slice(b" fault region\n")?,
    }
    Ok(out)
}
