// Makes the script of a soak.
ghost use Rattle.std.specs.Prelude.{◌≡◌, ◌++◌, ◌+◌, ◌≤◌, ◌∷◌, [], IfOk, map};
ghost use Rattle.std.specs.List.{range_with_len};
ghost use Rattle.script_text.specs.Fits.{IsScript};
ghost use Rattle.soak.specs.Soak.{soak_add, first_row, fleet, soak_script};

use crate::draw::Draw;
use crate::queries::push_queries;
use crate::texts::one_name;
use script_text::{Command, Item, Items, Script};
use std::alloc::{AllocError, Global};

/// The machines of the fleet.
const MACHINES: u32 = 2;

/// The leaves of each machine.
const PER_MACHINE: u32 = 4;

/// The most leaves that restart in one wave, in percent.
const PERCENT: u32 = 50;

/// The script of a soak with this seed: an add to each of eight leaves, `rows` rows in all, and two queries before and
/// after a rollover. No command has a line of a text. Err if memory runs out.
pub fn script(alloc: Global, seed: u64, rows: u32) -> Result<Script, AllocError>
    requires some { 8 ≤ rows }
    requires few { rows ≤ 800000 }
    ensures exact { IfOk result (λ script. script ≡ soak_script seed rows) }
    ensures fits { IfOk result IsScript }
{
    let mut items = adds(alloc, seed, rows)?;
    push_queries(alloc, &mut items, rows - 1)?;
    items.push(Item::One(Command::Rollover(PERCENT)))?;
    push_queries(alloc, &mut items, rows - 1)?;
    Ok(Script {
        fleet_line: 0,
        items: Items::of(items),
        standings: 0,
    })
}

/// The fleet, and an add to each leaf.
fn adds(alloc: Global, seed: u64, rows: u32) -> Result<Vec<Item>, AllocError>
    requires { rows ≤ 800000 }
    ensures { IfOk result (λ items. items.items ≡ fleet ∷ map (soak_add seed rows) (range_with_len 0 8)) }
{
    let mut items = Vec::new(alloc);
    items.push(Item::One(Command::Fleet {
        machines: MACHINES,
        per_machine: PER_MACHINE,
        tables: one_name(alloc, "events")?,
    }))?;
    let mut draw = Draw::new(seed);
    for leaf in 0..MACHINES * PER_MACHINE {
        let rows = draw.rows(alloc, first_row(rows, leaf + 1))?;
        items.push(Item::One(Command::Add {
            leaf,
            table: 0,
            rows,
        }))?;
    }
    Ok(items)
}

/// The number of the first row of this leaf.
fn first_row(rows: u32, leaf: u32) -> u32
    requires rows { rows ≤ 800000 }
    requires leaf { leaf ≤ 8 }
    ensures { result ≡ first_row rows leaf }
{
    leaf * rows / (MACHINES * PER_MACHINE)
}
