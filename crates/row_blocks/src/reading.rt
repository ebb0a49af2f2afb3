// Reads a column for a caller that counts no steps.
ghost use Rattle.std.specs.Prelude.{◌≡◌, ◌<◌, ℕ, List, length, Option, IfSome, IsSome, option_map};
ghost use Rattle.row_model.specs.declared.rows.Value.{Value};
ghost use Rattle.column_bytes.specs.Cells.{cells_of, kind_of_book};
ghost use Rattle.column_bytes.specs.Column.{HasCells, kind_in};
ghost use Rattle.row_blocks.specs.Columns.{IsSeen, MeanCells};

use column_bytes::ColumnView;
use leaf_model::Steps;
use std::marker::Brand;
use std::sync::ledger::{Blank, Ledger};

fn view_counted<L: Ledger>(bytes: &[u8], blank: Blank) -> Option<ColumnView<'_>>
    requires name { blank.name ≡ L.name }
    requires parts { blank.parts ≡ L.parts }
    requires some { 0 < blank.parts }
    ensures cells { IfSome result (λ view. HasCells bytes.now (length view.codes) (cells_of view)) }
    ensures kind { IfSome result (λ view. kind_of_book view.book ≡ kind_in bytes.now) }
    ensures exact { (n : ℕ) (cells : List (Option Value)) → HasCells bytes.now n cells → IsSome result }
{
    let mut steps = Steps::<L>::new(blank);
    match ColumnView::read(bytes, &mut steps) {
        Ok(view) => Some(view),
        Err(_) => None,
    }
}

/// Reads the bytes as a column. None exactly if they mean none.
pub(crate) fn view_of(bytes: &[u8]) -> Option<ColumnView<'_>>
    ensures seen { IfSome result (λ view. IsSeen view bytes.now) }
    ensures exact { (n : ℕ) → MeanCells bytes.now n → IsSome result }
{
    view_counted::<Brand>(bytes, Blank::new(1))
}
