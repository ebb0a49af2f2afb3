// A heading tells a column of a block from the others: its name and kind.
ghost use Rattle.std.specs.Prelude.{◌≡◌, ◌==◌};
ghost use Rattle.column_bytes.specs.Column.{kind_in};
ghost use Rattle.leaf_model.specs.Lent.{lent_cell, lent_value};
ghost use Rattle.row_blocks.specs.Headings.{heading, heading_cmp, heading_of, kind_of, kind_place};
ghost use Rattle.std.specs.Ordering.{nat_cmp};

use crate::column::BlockColumn;
use column_bytes::Kind;
use leaf_model::{LentCell, LentValue};
use std::cmp::Ordering;

/// The kind of the column of a value.
pub(crate) fn kind_of(value: &LentValue) -> Kind
    ensures { result ≡ kind_of (lent_value value.now) }
{
    match value {
        LentValue::Int(_) => Kind::Ints,
        LentValue::Text(_) => Kind::Texts,
        LentValue::Set(_) => Kind::Sets,
    }
}

/// The kind of a column, by its bytes.
pub(crate) fn kind_in(bytes: &[u8]) -> Kind
    ensures { result ≡ kind_in bytes.now }
{
    if bytes.is_empty() {
        return Kind::Sets;
    }
    if bytes[0] == 1 {
        Kind::Ints
    } else if bytes[0] == 2 {
        Kind::Texts
    } else {
        Kind::Sets
    }
}

/// The rank of a kind among the columns of one name.
fn kind_place(kind: Kind) -> u8
    ensures { result ≡ kind_place kind }
{
    match kind {
        Kind::Ints => 0,
        Kind::Texts => 1,
        Kind::Sets => 2,
    }
}

/// Whether two kinds are equal.
pub(crate) fn is_kind(a: Kind, b: Kind) -> bool
    ensures { result ≡ (kind_place a == kind_place b) }
{
    kind_place(a) == kind_place(b)
}

fn compare_kinds(a: Kind, b: Kind) -> Ordering
    ensures { result ≡ nat_cmp (kind_place a) (kind_place b) }
{
    kind_place(a).cmp(&kind_place(b))
}

/// Compares the headings of two cells.
pub(crate) fn compare_cells(a: &LentCell, b: &LentCell) -> Ordering
    ensures { result ≡ heading_cmp (heading_of (lent_cell a.now)) (heading_of (lent_cell b.now)) }
{
    match a.name.cmp(b.name) {
        Ordering::Less => Ordering::Less,
        Ordering::Equal => compare_kinds(kind_of(&a.value), kind_of(&b.value)),
        Ordering::Greater => Ordering::Greater,
    }
}

/// Compares the headings of two columns.
pub(crate) fn compare_columns(a: &BlockColumn, b: &BlockColumn) -> Ordering
    ensures { result ≡ heading_cmp (heading a.now) (heading b.now) }
{
    match a.name.as_str().cmp(b.name.as_str()) {
        Ordering::Less => Ordering::Less,
        Ordering::Equal => compare_kinds(kind_in(a.bytes.as_slice()), kind_in(b.bytes.as_slice())),
        Ordering::Greater => Ordering::Greater,
    }
}
