// The tables of a leaf out of those of an image.
ghost use Rattle.std.specs.Prelude.{◌≡◌, IfOk};
ghost use Rattle.std.specs.List.{AllByRecursion, position};
ghost use Rattle.row_model.specs.Names.{AreDistinct};
ghost use Rattle.row_blocks.specs.Held.{columns_count};
ghost use Rattle.table_state.specs.Tables.{bare, columns_most};
ghost use Rattle.region_layout.specs.Images.{held_of, table_named, table_of};
ghost use Rattle.region_layout.specs.Region.{image_of_parts};
ghost use Rattle.region_layout.specs.Drained.{images_of};
ghost use Rattle.adopt.specs.Finishing.{IsMade};
ghost use Rattle.adopt.specs.Tables.{has_name, without};

use leaf_model::Text;
use region_layout::DrainTable;
use std::alloc::{AllocError, Global};
use table_state::{TableState, Tables};

/// The table for each name, in their order. It is empty if the image has none of that name.
pub fn arranged(
    alloc: Global,
    names: &[Text],
    mut drained: Vec<DrainTable>,
) -> Result<Tables, AllocError>
    requires distinct { AreDistinct names.now }
    requires each { AllByRecursion IsMade drained.items }
    ensures { IfOk result (λ arranged. arranged ≡ held_of names.now (images_of drained.items)) }
{
    let mut tables = Vec::with_capacity(alloc, names.len())?;
    for name in names {
        tables.push(take_named(alloc, name.as_str(), &mut drained))?;
    }
    Ok(Tables::of(tables))
}

/// Takes the table of this name, or an empty one if there is none.
fn take_named(alloc: Global, name: &str, drained: &mut Vec<DrainTable>) -> TableState
    requires { AllByRecursion IsMade drained.old.items }
    ensures taken { bare result ≡ table_of (table_named (images_of drained.old.items) name.now) }
    ensures columns { columns_most result.store ≡ (table_named (images_of drained.old.items) name.now).columns }
    ensures left { drained.new.items ≡ without name.now drained.old.items }
{
    match place_of(name, drained) {
        Some(place) => made_table(drained.remove(place)),
        None => TableState::new(alloc),
    }
}

fn place_of(name: &str, drained: &[DrainTable]) -> Option<usize>
    ensures { result ≡ position (has_name name.now) drained.now }
{
    drained.iter().position(|table| table.name.as_str() == name)
}

#[tactic(auto, using(crate::proofs::Arranging::made_of, crate::proofs::Arranging::made_columns))]
fn made_table(table: DrainTable) -> TableState
    requires { IsMade table }
    ensures made { bare result ≡ table_of (image_of_parts table.name table.parts) }
    ensures columns { columns_most result.store ≡ columns_count table.parts.blocks }
{
    TableState::from_parts(table.parts)
}
