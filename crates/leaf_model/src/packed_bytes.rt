// Packed rows and their bytes: appends a row, appends other packed rows, reads rows from bytes.
ghost use Rattle.std.specs.Prelude.{◌≡◌, ◌+◌, ◌≤◌, ◌++◌, ◌∷◌, [], length, IfOk, OnErr, OnOk, Some};
ghost use Rattle.row_model.specs.Values.{IsRow};
ghost use Rattle.leaf_model.specs.Bytes.{rows_bytes};
ghost use Rattle.leaf_model.specs.Reading.{rows_at};
ghost use Rattle.leaf_model.specs.Lent.{lent_row};
ghost use Rattle.leaf_model.specs.Packed.{packed_rows};

use crate::lent_rows::LentRow;
use crate::live_bytes::LiveBytes;
use crate::packed_rows::{PackedRows, know};
use crate::row_writer::put_row;
use std::alloc::{AllocError, Global};

impl PackedRows {
    /// Appends a row. Err leaves the rows as they were.
    pub fn push(&mut self, row: &LentRow) -> Result<(), AllocError>
        requires { IsRow (lent_row row.now) }
        ensures put { OnOk result (self.new ≡ self.old ++ lent_row row.now ∷ []) }
        ensures kept { OnErr result (self.new ≡ self.old) }
    {
        know(self.count, self.bytes.as_slice());
        self.bytes.put(row)?;
        self.count = with_more(self.bytes.as_slice(), self.count, 1);
        Ok(())
    }

    /// Appends other packed rows. Err leaves the rows as they were.
    pub fn append(&mut self, others: &PackedRows) -> Result<(), AllocError>
        ensures put { OnOk result (self.new ≡ self.old ++ others.now) }
        ensures kept { OnErr result (self.new ≡ self.old) }
    {
        know(self.count, self.bytes.as_slice());
        know(others.count, others.bytes.as_slice());
        self.bytes.append(others.bytes.as_slice())?;
        self.count = with_more(self.bytes.as_slice(), self.count, others.count);
        Ok(())
    }

    /// The bytes of all rows, one row after another.
    pub fn bytes(&self) -> &[u8]
        ensures { result.now ≡ rows_bytes self.now }
    {
        know(self.count, self.bytes.as_slice());
        self.bytes.as_slice()
    }

    pub fn copy(&self) -> Result<PackedRows, AllocError>
        ensures { IfOk result (λ copy. copy ≡ self.now) }
    {
        let bytes = self.bytes.as_slice();
        let mut own = Vec::with_capacity(self.bytes.allocator(), bytes.len())?;
        own.extend_from_slice(bytes)?;
        Ok(PackedRows {
            bytes: LiveBytes::of(own),
            count: self.count,
        })
    }

    /// Copies the first `count` rows of the bytes; `rest` is what follows them. Err if memory runs out.
    pub fn read(
        alloc: Global,
        bytes: &[u8],
        count: usize,
        rest: &[u8],
    ) -> Result<PackedRows, AllocError>
        requires { rows_at count bytes.now ≡ Some (packed_rows count bytes.now, rest.now) }
        ensures { IfOk result (λ rows. rows ≡ packed_rows count bytes.now) }
    {
        let len = bytes.len() - rest.len();
        let mut own = Vec::with_capacity(alloc, len)?;
        own.extend_from_slice(&bytes[..len])?;
        Ok(PackedRows {
            bytes: LiveBytes::of(own),
            count,
        })
    }
}

impl LiveBytes {
    /// Appends a row's bytes. Err leaves the bytes as they were.
    #[tactic(auto, using(crate::proofs::LiveLaws::drop_more))]
    fn put(&mut self, row: &LentRow) -> Result<(), AllocError>
        requires { IsRow (lent_row row.now) }
        ensures put { OnOk result (self.new ≡ self.old ++ rows_bytes (lent_row row.now ∷ [])) }
        ensures kept { OnErr result (self.new ≡ self.old) }
    {
        put_whole(&mut self.all, row)
    }
}

/// Appends a row's bytes. Err leaves the bytes as they were.
fn put_whole(out: &mut Vec<u8>, row: &LentRow) -> Result<(), AllocError>
    requires { IsRow (lent_row row.now) }
    ensures put { OnOk result (out.new.items ≡ out.old.items ++ rows_bytes (lent_row row.now ∷ [])) }
    ensures kept { OnErr result (out.new.items ≡ out.old.items) }
{
    let len = out.len();
    let done = put_row(out, row);
    if done.is_err() {
        out.truncate(len);
    }
    done
}

/// The sum of two numbers of rows. It cannot overflow, as each row takes a byte at least.
pub(crate) fn with_more(bytes: &[u8], count: usize, more: usize) -> usize
    requires { count + more ≤ length bytes.now }
    ensures { result ≡ count + more }
{
    let _bytes = bytes;
    count + more
}
