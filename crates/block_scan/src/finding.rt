// Finds the column of a name.
ghost use Rattle.std.specs.Prelude.{◌≡◌, ℕ, true, List, ◌∷◌, bytes_eq};
ghost use Rattle.std.specs.List.{AllByRecursion};
ghost use Rattle.block_scan.specs.declared.reading.ReadColumn.{ReadColumn};
ghost use Rattle.block_scan.specs.Decoded.{IsNamed};
ghost use Rattle.block_scan.specs.Reads.{IsRead};

use crate::names::is_same;
use crate::reading::ReadColumn;
use leaf_model::Text;

/// The columns of a name. If there are two, of two kinds, a place may have its cell in either.
#[derive(Clone, Copy)]
pub enum NamedColumns<'b, 'a> {
    Nowhere,
    Once(&'b ReadColumn<'a>),
    Twice,
}

fn with_one<'b, 'a>(
    column: &'b ReadColumn<'a>,
    others: NamedColumns<'b, 'a>,
) -> NamedColumns<'b, 'a>
    ensures { (rows : ℕ) (name : List ℕ) (rest : List ReadColumn)
        → IsRead rows column.now → bytes_eq name column.now.column.now.name ≡ true
        → IsNamed rows name rest others.entry → IsNamed rows name (column.now ∷ rest) result }
{
    match others {
        NamedColumns::Nowhere => NamedColumns::Once(column),
        NamedColumns::Once(_) | NamedColumns::Twice => NamedColumns::Twice,
    }
}

/// Finds the columns of this name among those that were read.
pub(crate) fn find_named<'b, 'a>(
    rows: u32,
    name: &Text,
    read: &'b [ReadColumn<'a>],
) -> NamedColumns<'b, 'a>
    requires { AllByRecursion (IsRead rows) read.now }
    ensures { IsNamed rows name.now read.now result }
{
    match read.split_first() {
        None => NamedColumns::Nowhere,
        Some((first, rest)) => {
            let others = find_named(rows, name, rest);
            if !is_same(name, &first.column.name) {
                return others;
            }
            with_one(first, others)
        }
    }
}
