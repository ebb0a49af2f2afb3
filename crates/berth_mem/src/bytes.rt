// What a write makes of contents, and what a write and a cut take away.
ghost use Rattle.std.specs.Prelude.{◌≡◌, ◌+◌, ◌-◌, ◌^◌, ◌<◌, ◌≤◌, ◌++◌, length, take, drop, min, true, false, IfOk, OnErr, OnOk};
ghost use Rattle.berth_face.specs.Berth.{written};

use std::alloc::{AllocError, Global};

// Overwrites the bytes from this place on.
fn overwrite(content: &mut [u8], at: usize, bytes: &[u8])
    requires { at + length bytes.now ≤ length content.old }
    ensures { content.new ≡ take at content.old ++ bytes.now ++ drop (at + length bytes.now) content.old }
{
    content[at..at + bytes.len()].copy_from_slice(bytes);
}

/// Writes bytes at this place, and fills a gap before it with zeros. It takes memory only if it reaches past the end.
/// After an Err the content is as it was.
pub fn write_at(content: &mut Vec<u8>, at: u64, bytes: &[u8]) -> Result<(), AllocError>
    requires { at + length bytes.now < 2 ^ 63 }
    ensures ok { OnOk result (content.new.items ≡ written at bytes.now content.old.items) }
    ensures err { OnErr result (content.new.items ≡ content.old.items) }
{
    let end = at as usize + bytes.len();
    if content.len() < end {
        content.resize(end, 0)?;
    }
    overwrite(content.as_mut_slice(), at as usize, bytes);
    Ok(())
}

/// The bytes that a write of `len` bytes at this place overwrites.
pub fn lost(alloc: Global, old: &[u8], at: u64, len: usize) -> Result<Vec<u8>, AllocError>
    requires { at + len < 2 ^ 63 }
    ensures { IfOk result (λ v. v.items ≡ take len (drop at old.now)) }
{
    let from = (at as usize).min(old.len());
    let to = (at as usize + len).min(old.len());
    old[from..to].to_vec(alloc)
}

/// Copies the bytes from this place on, up to the end of either, and tells how many.
pub fn copied(from: &[u8], at: u64, buf: &mut [u8]) -> usize
    ensures count { result ≡ min (length buf.old) (length from.now - at) }
    ensures bytes { take result buf.new ≡ take result (drop at from.now) }
{
    let start = if at < from.len() as u64 {
        at as usize
    } else {
        from.len()
    };
    let rest = &from[start..];
    let count = rest.len().min(buf.len());
    buf[..count].copy_from_slice(&rest[..count]);
    count
}

/// The bytes from this place on.
pub fn tail(alloc: Global, old: &[u8], from: u64) -> Result<Vec<u8>, AllocError>
    ensures { IfOk result (λ v. v.items ≡ drop from old.now) }
{
    let start = (from as usize).min(old.len());
    old[start..].to_vec(alloc)
}

/// Whether a write would pass 2^63.
pub fn is_far(at: u64, len: usize) -> bool
    ensures far { 2 ^ 63 ≤ at + len → result ≡ true }
    ensures room { at + len < 2 ^ 63 → result ≡ false }
    ensures near { result ≡ false → at + len < 2 ^ 63 }
{
    at >= 1 << 63 || len as u64 >= (1 << 63) - at
}
