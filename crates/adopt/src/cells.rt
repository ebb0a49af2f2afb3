// Tests whether bytes mean cells of a kind that a version allows.
ghost use Rattle.std.specs.Prelude.{◌≡◌, ◌↔◌, ◌<◌, ℕ, List, length, Option, IfSome, IsSome, IsTrue};
ghost use Rattle.row_model.specs.declared.rows.Value.{Value};
ghost use Rattle.column_bytes.specs.Column.{HasCells};
ghost use Rattle.region_layout.specs.Region.{MeanIn};
ghost use Rattle.adopt.specs.Cells.{TellsCells};

use column_bytes::{ColumnView, Kind};
use leaf_model::Steps;
use region_layout::allows;
use std::marker::Brand;
use std::sync::ledger::{Blank, Ledger};

// The number of cells that the bytes mean, and their kind; None if they are no column. It counts no steps.
fn tell_read<L: Ledger>(bytes: &[u8], blank: Blank) -> Option<(u32, Kind)>
    requires name { blank.name ≡ L.name }
    requires parts { blank.parts ≡ L.parts }
    requires some { 0 < blank.parts }
    ensures { TellsCells bytes.now result }
{
    let mut steps = Steps::<L>::new(blank);
    match ColumnView::read(bytes, &mut steps) {
        Ok(view) => Some((view.len(), view.kind())),
        Err(_) => None,
    }
}

fn tell_cells(bytes: &[u8]) -> Option<(u32, Kind)>
    ensures { TellsCells bytes.now result }
{
    tell_read::<Brand>(bytes, Blank::new(1))
}

/// Whether the bytes are a column of `rows` cells that an image of this version may have.
#[tactic(auto, using(crate::proofs::Counts::one_number))]
pub fn mean_cells(version: u32, bytes: &[u8], rows: u32) -> bool
    ensures { IsTrue result ↔ MeanIn version bytes.now rows }
{
    match tell_cells(bytes) {
        Some((count, kind)) => count == rows && allows(version, kind),
        None => false,
    }
}
