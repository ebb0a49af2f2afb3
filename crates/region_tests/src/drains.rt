// Drains that begin, and the names of their tables.
ghost use Rattle.std.specs.Prelude.{◌≡◌, ◌≢◌, ◌≤◌, IfOk, IfSome, length};
ghost use Rattle.region_layout.specs.Names.{AreNames, IsName};
ghost use Rattle.table_state.specs.Tables.{IsParts};
ghost use Rattle.drain_copy.specs.declared.step.Next.TheVariants as next;

use drain_copy::Drain;
use leaf_model::{Names, Text};
use region_layout::{DrainTable, DrainTables};
use std::alloc::{AllocError, Global};

/// The log ends here.
pub const LOG_END: u64 = 35;

/// The drain of one table.
pub fn drain_one(alloc: Global, table: DrainTable) -> Result<Option<Drain>, AllocError>
    requires name { IsName table.name }
    requires parts { IsParts table.parts }
    ensures begins { IfOk result (λ found. IfSome found (λ drain. drain.next ≡ next.Begin)) }
{
    let mut tables = Vec::new(alloc);
    tables.push(table)?;
    match Drain::plan(alloc, DrainTables::of(tables), LOG_END) {
        Ok(drain) => Ok(Some(drain)),
        Err(_) => Ok(None),
    }
}

/// The drain of two tables.
pub fn drain_two(
    alloc: Global,
    first: DrainTable,
    second: DrainTable,
) -> Result<Option<Drain>, AllocError>
    requires names { IsName first.name × IsName second.name }
    requires distinct { second.name ≢ first.name }
    requires parts { IsParts first.parts × IsParts second.parts }
    ensures begins { IfOk result (λ found. IfSome found (λ drain. drain.next ≡ next.Begin)) }
{
    let mut tables = Vec::new(alloc);
    tables.push(first)?;
    tables.push(second)?;
    match Drain::plan(alloc, DrainTables::of(tables), LOG_END) {
        Ok(drain) => Ok(Some(drain)),
        Err(_) => Ok(None),
    }
}

/// One name.
pub fn one_name(alloc: Global, name: &str) -> Result<Names, AllocError>
    requires { length name.now ≤ 255 }
    ensures { IfOk result AreNames }
{
    let mut names = Vec::new(alloc);
    names.push(Text::of(String::from_str(alloc, name)?))?;
    Ok(Names::of(names))
}

/// Two names.
pub fn two_names(alloc: Global, first: &str, second: &str) -> Result<Names, AllocError>
    requires short { (length first.now ≤ 255) × (length second.now ≤ 255) }
    requires distinct { second.now ≢ first.now }
    ensures { IfOk result AreNames }
{
    let mut names = Vec::new(alloc);
    names.push(Text::of(String::from_str(alloc, first)?))?;
    names.push(Text::of(String::from_str(alloc, second)?))?;
    Ok(Names::of(names))
}
