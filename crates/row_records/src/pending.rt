ghost use Rattle.std.specs.Prelude.{◌≡◌, ◌≤◌, length, Option, Some, None, true, OnOk, OnErr, IfSome, IsSome};
ghost use Rattle.leaf_model.specs.Writes.{IsWrite};
ghost use Rattle.leaf_model.specs.Bytes.{IsBytes};
ghost use Rattle.row_records.specs.Records.{IsRecord};
ghost use Rattle.row_records.specs.Pending.{allows_sets, pending_bytes, pending_count, pending_of, with_push};

use crate::record_writer::{add_write, first_record};
use leaf_model::{Text, Write};
use std::alloc::{AllocError, Global};
use std::marker::Model;

/// The writes of a table that were not taken yet, as the bytes of one record of the log. Contracts see the record, and
/// None if no write was pushed.
#[derive(Drop)]
pub struct Pending {
    bytes: Vec<u8>,
    count: u64,
    ghost whole: { bytes.items ≡ pending_bytes (pending_of bytes.items) },
    ghost counted: { count ≡ pending_count (pending_of bytes.items) },
    ghost kind: { allows_sets (pending_of bytes.items) ≡ true },
}

impl Model for Pending {
    ghost use Rattle.std.specs.Prelude.{Option};
    ghost use Rattle.row_records.specs.Records.{LogRecord};
    ghost use Rattle.row_records.specs.Pending.{pending_of};

    ghost Value = { Option LogRecord };

    ghost view = { λ p. pending_of p.bytes.items };
}

impl Pending {
    pub fn new(alloc: Global) -> Pending
        ensures { result ≡ None }
    {
        Pending {
            bytes: Vec::new(alloc),
            count: 0,
        }
    }

    /// The number of writes that were pushed.
    pub fn count(&self) -> u64
        ensures { result ≡ pending_count self.now }
    {
        self.count
    }

    /// The bytes of the record and of a closed gate after it. There are none if no write was pushed.
    pub fn bytes(&self) -> &[u8]
        ensures bytes { result.now ≡ pending_bytes self.now }
        ensures record { IfSome self.now IsRecord }
    {
        are_bytes(self.bytes.as_slice());
        self.bytes.as_slice()
    }

    /// Adds a write to the record. Every push names the same table. After an Err the record is as it was.
    pub fn push(&mut self, table: &Text, write: &Write) -> Result<(), AllocError>
        requires short { length table.now ≤ 255 }
        requires table { IfSome self.old (λ r. r.name ≡ table.now) }
        requires write { IsWrite write.now }
        ensures pushed { OnOk result (self.new ≡ Some (with_push table.now write.now self.old)) }
        ensures kept { OnErr result (self.new ≡ self.old) }
    {
        are_bytes(self.bytes.as_slice());
        if self.count == 0 {
            self.begin(table, write)
        } else {
            self.go_on(table, write)
        }
    }

    /// Drops all writes.
    pub fn clear(&mut self)
        ensures { self.new ≡ None }
    {
        self.bytes.clear();
        self.count = 0;
    }

    fn begin(&mut self, table: &Text, write: &Write) -> Result<(), AllocError>
        requires short { length table.now ≤ 255 }
        requires none { self.old ≡ None }
        requires write { IsWrite write.now }
        ensures pushed { OnOk result (self.new ≡ Some (with_push table.now write.now None)) }
        ensures kept { OnErr result (self.new ≡ self.old) }
    {
        let alloc = *self.bytes.allocator();
        let bytes = first_record(alloc, table.as_str(), write)?;
        self.bytes = bytes;
        self.count = 1;
        Ok(())
    }

    fn go_on(&mut self, table: &Text, write: &Write) -> Result<(), AllocError>
        requires some { IsSome self.old }
        requires table { IfSome self.old (λ r. r.name ≡ table.now) }
        requires write { IsWrite write.now }
        ensures pushed { OnOk result (self.new ≡ Some (with_push table.now write.now self.old)) }
        ensures kept { OnErr result (self.new ≡ self.old) }
    {
        are_bytes(self.bytes.as_slice());
        let count = self.count + 1;
        add_write(&mut self.bytes, table.as_str().len(), count, write)?;
        self.count = count;
        Ok(())
    }
}

// What a proof knows of the bytes of a slice.
fn are_bytes(bytes: &[u8])
    ensures { IsBytes bytes.now }
{
    let _bytes = bytes;
}
