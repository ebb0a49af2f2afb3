// What a table begins with. Only contracts see it.
ghost use Rattle.std.specs.Prelude.{◌≡◌, IfOk};

use crate::founding::{Founding, Pick};
use leaf_model::{Text, Writes};
use std::alloc::{AllocError, Global};
use std::marker::{Brand, PhantomData};
use std::snapshot::Snapshot;

/// The base of a founded table: the writes in its berth's log, how many of them every crash leaves, and how many spare
/// columns an image in its region may have: those beyond one for each row and each cell that the writes add.
/// Specification only, never constructed.
pub struct TableBase {
    pub writes: Writes,
    pub flushed: u64,
    pub spare: u64,
}

/// The base of each table of each leaf, or none, by the indices of leaf and table. Whoever makes a table picks it.
pub trait Founds {
    ghost use Rattle.std.specs.Prelude.{Option, ℕ};
    ghost use Rattle.leaf_table.specs.declared.base.TableBase.{TableBase};

    ghost base: { ℕ → ℕ → Option TableBase };
}

impl Founds for Brand {
    ghost use Rattle.std.specs.Prelude.{None};

    ghost base = { λ leaf table. None };
}

/// What is fixed when a table is made: its name and its base.
#[derive(Drop)]
pub struct Origin {
    pub name: Snapshot<Text>,
    pub base: Founding<TableBase>,
}

/// The base of the table with the indices in the call.
pub(crate) trait HasTableBase {
    ghost use Rattle.std.specs.Prelude.{Option};
    ghost use Rattle.leaf_table.specs.declared.base.TableBase.{TableBase};

    ghost base: { Option TableBase };
}

impl HasTableBase for Brand {
    ghost use Rattle.std.specs.Prelude.{None};

    ghost base = { None };
}

pub(crate) struct At<P> {
    of: PhantomData<P>,
}

impl<P: HasTableBase> Pick<TableBase> for At<P> {
    ghost value = { P.base };
}

// The base that P picks.
fn pick_base<P: HasTableBase>(
    alloc: Global,
    _leaf: u32,
    _table: u32,
) -> Result<Founding<TableBase>, AllocError>
    ensures { IfOk result (λ f. f ≡ P.base) }
{
    Founding::<TableBase>::pick::<At<P>>(alloc)
}

// The base of this table, by N.
fn base_of<N: Founds>(
    alloc: Global,
    leaf: u32,
    table: u32,
) -> Result<Founding<TableBase>, AllocError>
    ensures { IfOk result (λ f. f ≡ N.base leaf table) }
{
    pick_base::<Brand>(alloc, leaf, table)
}

// The name and the base of this table.
pub(crate) fn origin_of<N: Founds>(
    alloc: Global,
    leaf: u32,
    table: u32,
    name: &Text,
) -> Result<Origin, AllocError>
    ensures named { IfOk result (λ o. o.name.value ≡ name.now) }
    ensures base { IfOk result (λ o. o.base ≡ N.base leaf table) }
{
    let base = base_of::<N>(alloc, leaf, table)?;
    let name = Snapshot::of(name);
    Ok(Origin { name, base })
}
