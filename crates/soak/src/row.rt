// Makes a row of its two words. The cells of each host are made once, and only the code is written anew.
ghost use Rattle.std.specs.Prelude.{◌≡◌, ◌++◌, ◌*◌, ◌<◌, ◌%◌, ◌∷◌, [], pos, slice_index_or, IfOk, OnOk, codes, decimal};
ghost use Rattle.row_model.specs.Values.{IsRow};
ghost use Rattle.soak.specs.Hosts.{AreHosts, coded};
ghost use Rattle.soak.specs.Soak.{code_cells, host_cell, row_with};

use crate::texts::text;
use itoa::Buffer;
use leaf_model::{Cell, LentCells, LentRow, PackedRows, Text, Value};
use std::alloc::{AllocError, Global};

/// The number of hosts.
const HOSTS: u32 = 50;

/// The number of codes.
const CODES: u32 = 600;

/// A cell `code`, with the value 0.
fn code_cell(alloc: Global) -> Result<Cell, AllocError>
    ensures { IfOk result (λ cell. cell ≡ coded (pos 0)) }
{
    Ok(Cell {
        name: text(alloc, "code")?,
        value: Value::Int(0),
    })
}

/// The cell `host` of a host.
fn host_cell(alloc: Global, host: u32) -> Result<Cell, AllocError>
    requires { host < 50 }
    ensures { IfOk result (λ cell. cell ≡ host_cell host) }
{
    Ok(Cell {
        name: text(alloc, "host")?,
        value: Value::Text(host_name(alloc, host)?),
    })
}

fn host_name(alloc: Global, number: u32) -> Result<Text, AllocError>
    ensures { IfOk result (λ text. text ≡ codes "h" ++ decimal number) }
{
    let mut name = String::from_str(alloc, "h")?;
    name.push_str(Buffer::new().format(number))?;
    Ok(Text::of(name))
}

/// For each host a cell `code`, and its cell `host`.
pub fn each_host(alloc: Global) -> Result<Vec<Cell>, AllocError>
    ensures { IfOk result (λ cells. AreHosts cells.items) }
{
    let mut cells = Vec::with_capacity(alloc, 2 * HOSTS as usize)?;
    for host in 0..HOSTS {
        cells.push(code_cell(alloc)?)?;
        cells.push(host_cell(alloc, host)?)?;
    }
    Ok(cells)
}

/// Writes the code of a word into the cell before that of the host.
fn set_code(cells: &mut [Cell], host: u32, code: u32)
    requires { AreHosts cells.old }
    ensures hosts { AreHosts cells.new }
    ensures code { slice_index_or cells.new (2 * (host % 50)) (coded (pos 0)) ≡ coded (pos (code % 600)) }
{
    cells[2 * (host % HOSTS) as usize].value = Value::Int(i64::from(code % CODES));
}

/// The cells of a row. If the word is a multiple of 4, the code is left out.
fn cells_of(cells: &[Cell], host: u32, code: u32) -> &[Cell]
    requires hosts { AreHosts cells.now }
    requires code { slice_index_or cells.now (2 * (host % 50)) (coded (pos 0)) ≡ coded (pos (code % 600)) }
    ensures { result.now ≡ code_cells code ++ host_cell host ∷ [] }
{
    let place = 2 * (host % HOSTS) as usize;
    if code % 4 == 0 {
        &cells[place + 1..place + 2]
    } else {
        &cells[place..place + 2]
    }
}

/// Appends the row with this number and these two words.
pub fn put_row(
    rows: &mut PackedRows,
    cells: &mut [Cell],
    number: u32,
    host: u32,
    code: u32,
) -> Result<(), AllocError>
    requires hosts { AreHosts cells.old }
    requires row { IsRow (row_with number host code) }
    ensures put { OnOk result (rows.new ≡ rows.old ++ row_with number host code ∷ []) }
    ensures hosts { AreHosts cells.new }
{
    set_code(cells, host, code);
    rows.push(&LentRow {
        time: i64::from(number),
        cells: LentCells::Owned(cells_of(cells, host, code)),
    })
}
