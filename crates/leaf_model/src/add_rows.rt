// The rows of an add.
ghost use Rattle.std.specs.Prelude.{◌≡◌, ◌≤◌, length, IfOk};
ghost use Rattle.std.specs.List.{AllByRecursion};
ghost use Rattle.leaf_model.specs.Bytes.{rows_bytes};
ghost use Rattle.leaf_model.specs.Lent.{lent_rows};
ghost use Rattle.row_model.specs.Values.{IsRow};

use crate::lent_rows::LentRows;
use crate::packed_rows::PackedRows;
use std::alloc::AllocError;
use std::marker::Model;

/// The rows of one add, at most 100,000, packed as bytes. Contracts see them as the list.
#[derive(Drop)]
pub struct Rows {
    packed: PackedRows,
}

impl Model for Rows {
    ghost use Rattle.std.specs.Prelude.{List, ◌≤◌, length};
    ghost use Rattle.row_model.specs.declared.rows.Row.{Row};

    ghost Value = { List Row };

    ghost view = { λ rows. rows.packed };

    ghost invariant = { λ rows. length rows.packed ≤ 100000 };
}

impl Rows {
    pub fn of(packed: PackedRows) -> Rows
        requires { length packed ≤ 100000 }
        ensures { result ≡ packed }
    {
        Rows { packed }
    }

    /// The number of rows.
    pub fn len(&self) -> usize
        ensures { result ≡ length self.now }
    {
        self.packed.len()
    }

    /// No-op; states the invariant: each of them is a row.
    pub fn are_rows(&self)
        ensures { AllByRecursion IsRow self.now }
    {
        self.packed.are_rows();
    }

    /// The rows, borrowed.
    pub fn lend(&self) -> LentRows<'_>
        ensures { lent_rows result ≡ self.now }
    {
        self.packed.lend()
    }

    /// The bytes of all rows, one row after another.
    pub fn bytes(&self) -> &[u8]
        ensures { result.now ≡ rows_bytes self.now }
    {
        self.packed.bytes()
    }

    pub fn copy(&self) -> Result<Rows, AllocError>
        ensures { IfOk result (λ copy. copy ≡ self.now) }
    {
        Ok(Rows {
            packed: self.packed.copy()?,
        })
    }
}
