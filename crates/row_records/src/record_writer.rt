// Writes a record with its gate, and adds a write to one.
ghost use Rattle.std.specs.Prelude.{ℕ, List, ◌≡◌, ◌≤◌, ◌<◌, ◌+◌, ◌-◌, ◌++◌, ◌∷◌, [], length, take, drop, OnOk, OnErr, IfOk, Some};
ghost use Rattle.std.specs.Int.{w64, to_le_bytes};
ghost use Rattle.leaf_model.specs.Writes.{IsWrite};
ghost use Rattle.leaf_model.specs.Bytes.{u64_bytes, BeginsWith};
ghost use Rattle.row_records.specs.Bytes.{said_bytes, write_kind};
ghost use Rattle.row_records.specs.Records.{LogRecord, new_record, record_body};
ghost use Rattle.row_records.specs.Pending.{pending_bytes, with_write};

use leaf_model::{Write, put_name};
use std::alloc::{AllocError, Global};

/// The number of a write's kind.
fn kind_of(write: &Write) -> u8
    ensures { result ≡ write_kind write.now }
{
    match write {
        Write::Add(_rows) => 1,
        Write::Expire(_) => 2,
        Write::Keep(_) => 3,
    }
}

/// Appends what a write says after its kind. If that is much, it makes room for a gate too.
fn put_said(out: &mut Vec<u8>, write: &Write) -> Result<(), AllocError>
    requires { IsWrite write.now }
    ensures put { OnOk result (out.new.items ≡ out.old.items ++ said_bytes write.now) }
    ensures begins { OnErr result (BeginsWith out.old.items out.new.items) }
{
    match write {
        Write::Add(rows) => {
            let bytes = rows.bytes();
            out.reserve(bytes.len() + 5)?;
            out.extend_from_slice(&(rows.len() as u32).to_le_bytes())?;
            out.extend_from_slice(bytes)
        }
        Write::Expire(horizon) => out.extend_from_slice(&horizon.to_le_bytes()),
        Write::Keep(rows) => out.extend_from_slice(&rows.to_le_bytes()),
    }
}

/// Writes a number over the eight bytes at `at`.
fn overwrite(bytes: &mut [u8], at: usize, number: u64)
    requires { at + 8 ≤ length bytes.old }
    ensures { bytes.new ≡ take at bytes.old ++ to_le_bytes w64 number ++ drop (at + 8) bytes.old }
{
    bytes[at..at + 8].copy_from_slice(&number.to_le_bytes());
}

/// Appends the body of a record of one write.
fn put_body(out: &mut Vec<u8>, table: &str, write: &Write) -> Result<(), AllocError>
    requires short { length table.now ≤ 255 }
    requires write { IsWrite write.now }
    ensures { OnOk result (out.new.items ≡ out.old.items ++ record_body (new_record table.now (write.now ∷ []))) }
{
    out.push(2)?;
    put_name(out, table)?;
    out.extend_from_slice(&1u64.to_le_bytes())?;
    out.push(kind_of(write))?;
    put_said(out, write)
}

/// A record of one write, with a closed gate after it.
pub(crate) fn first_record(alloc: Global, table: &str, write: &Write) -> Result<Vec<u8>, AllocError>
    requires short { length table.now ≤ 255 }
    requires write { IsWrite write.now }
    ensures { IfOk result (λ bytes. bytes.items ≡ pending_bytes (Some (new_record table.now (write.now ∷ [])))) }
{
    let mut bytes = Vec::new(alloc);
    bytes.extend_from_slice(&0u64.to_le_bytes())?;
    put_body(&mut bytes, table, write)?;
    let len = bytes.len() as u64 - 8;
    overwrite(bytes.as_mut_slice(), 0, len);
    bytes.push(0)?;
    Ok(bytes)
}

/// Appends what a write says after its kind, and a closed gate.
fn lay_behind(out: &mut Vec<u8>, write: &Write) -> Result<(), AllocError>
    requires { IsWrite write.now }
    ensures put { OnOk result (out.new.items ≡ out.old.items ++ (said_bytes write.now ++ 0 ∷ [])) }
    ensures begins { OnErr result (BeginsWith out.old.items out.new.items) }
{
    put_said(out, write)?;
    out.push(0)?;
    Ok(())
}

/// The same; after an Err the bytes are as they were.
fn put_behind(out: &mut Vec<u8>, write: &Write) -> Result<(), AllocError>
    requires { IsWrite write.now }
    ensures put { OnOk result (out.new.items ≡ out.old.items ++ (said_bytes write.now ++ 0 ∷ [])) }
    ensures kept { OnErr result (out.new.items ≡ out.old.items) }
{
    let len = out.len();
    let done = lay_behind(out, write);
    if done.is_err() {
        out.truncate(len);
    }
    done
}

/// Replaces the last byte by a write and a closed gate. After an Err the bytes are as they were.
fn put_more(bytes: &mut Vec<u8>, write: &Write) -> Result<(), AllocError>
    requires gate { 0 < length bytes.old.items }
    requires write { IsWrite write.now }
    ensures put { OnOk result (bytes.new.items ≡ take
        (length bytes.old.items - 1) bytes.old.items ++ write_kind write.now ∷ (said_bytes write.now ++ 0 ∷ [])) }
    ensures kept { OnErr result (bytes.new.items ≡ bytes.old.items) }
{
    let gate = bytes.len() - 1;
    put_behind(bytes, write)?;
    bytes[gate] = kind_of(write);
    Ok(())
}

/// Writes the length of a record with its gate, and the number of its writes.
fn renumber(bytes: &mut [u8], name_len: usize, count: u64)
    requires { name_len + 18 ≤ length bytes.old }
    ensures len { length bytes.new ≡ length bytes.old }
    ensures fields { (len head number writes : List ℕ) → bytes.old ≡ len ++ (head ++ (number ++ writes))
        → length len ≡ 8 → length head ≡ name_len + 2 → length number ≡ 8
        → bytes.new ≡ u64_bytes (length bytes.old - 9) ++ (head ++ (u64_bytes count ++ writes)) }
{
    let len = bytes.len() as u64 - 9;
    overwrite(bytes, 0, len);
    overwrite(bytes, name_len + 10, count);
}

/// Appends a write to a record, in the place of its gate, and a closed gate after it.
pub(crate) fn add_write(
    bytes: &mut Vec<u8>,
    name_len: usize,
    count: u64,
    write: &Write,
) -> Result<(), AllocError>
    requires write { IsWrite write.now }
    requires room { name_len + 19 ≤ length bytes.old.items }
    ensures added { (r : LogRecord) → bytes.old.items ≡ pending_bytes (Some r) → name_len ≡ length r.name
        → count ≡ length r.writes + 1 → OnOk result (bytes.new.items ≡ pending_bytes (Some (with_write write.now r))) }
    ensures kept { OnErr result (bytes.new.items ≡ bytes.old.items) }
{
    put_more(bytes, write)?;
    renumber(bytes.as_mut_slice(), name_len, count);
    Ok(())
}
