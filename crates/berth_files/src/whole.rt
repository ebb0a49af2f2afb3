// Reads that are done whole, and writes within what a file can hold.
ghost use Rattle.std.specs.Prelude.{◌≡◌, ◌↔◌, ◌+◌, ◌-◌, ◌^◌, ◌<◌, ◌≤◌, length, min, take, drop, IfOk, IsErr, IsTrue};
ghost use Rattle.std.specs.Io.{ReadsAtMost};
ghost use Rattle.berth_face.specs.Berth.{Gives, Stays};
ghost use Rattle.berth_files.specs.Files.{FileWritten, FilesGoOn, file_content};

use crate::calls::FileCalls;
use crate::leaf_file::LeafFile;
use berth_face::Failed;

/// No file has so many bytes.
pub(crate) const LIMIT: u64 = 1 << 63;

/// Reads until the buffer is full or the file ends.
#[tactic(auto, using(crate::proofs::Counted::stays_none, crate::proofs::Counted::time_none))]
pub(crate) fn read_whole<F: FileCalls>(
    files: &mut F,
    file: LeafFile,
    at: u64,
    buf: &mut [u8],
) -> Result<usize, Failed>
    ensures bound { ReadsAtMost result buf.new }
    ensures told { IsTrue (F.holds files.old).tells → Gives at (file_content file (F.holds files.old)) result buf.new
        × Stays (F.holds files.old) (F.holds files.new) }
    ensures time { FilesGoOn (F.holds files.old) (F.holds files.new) }
{
    if at >= LIMIT {
        return Ok(0);
    }
    let room = room_at(at, buf.len());
    fill(files, file, at, &mut buf[..room])
}

/// The number of bytes of a buffer that a file could fill from `at` on.
fn room_at(at: u64, len: usize) -> usize
    requires { at < 2 ^ 63 }
    ensures { result ≡ min len (2 ^ 63 - 1 - at) }
{
    len.min((LIMIT - 1 - at) as usize)
}

/// Reads until the room is full or the file ends.
fn fill<F: FileCalls>(
    files: &mut F,
    file: LeafFile,
    at: u64,
    room: &mut [u8],
) -> Result<usize, Failed>
    requires { at + length room.old < 2 ^ 63 }
    ensures bound { ReadsAtMost result room.new }
    ensures told { IsTrue (F.holds files.old).tells → Gives at (file_content file (F.holds files.old)) result room.new
        × Stays (F.holds files.old) (F.holds files.new) }
    ensures time { FilesGoOn (F.holds files.old) (F.holds files.new) }
{
    let mut done = 0;
    for _ in 0..room.len() {
        if done == room.len() {
            return Ok(done);
        }
        let count = read_on(files, file, at, room, done)?;
        if count == 0 {
            return Ok(done);
        }
        done += count;
    }
    Ok(done)
}

/// Reads once, after what was read so far.
fn read_on<F: FileCalls>(
    files: &mut F,
    file: LeafFile,
    at: u64,
    room: &mut [u8],
    done: usize,
) -> Result<usize, Failed>
    requires near { at + length room.old < 2 ^ 63 }
    requires within { done ≤ length room.old }
    ensures bound { IfOk result (λ n. done + n ≤ length room.new) }
    ensures length { length room.new ≡ length room.old }
    ensures told { IsTrue (F.holds files.old).tells
        → take done room.old ≡ take done (drop at (file_content file (F.holds files.old)))
        → done ≤ length (file_content file (F.holds files.old)) - at
        → IfOk result (λ n. (done + n ≤ length (file_content file (F.holds files.old)) - at)
        × (done < length room.old → done < length (file_content file (F.holds files.old)) - at → 0 < n)
        × (take (done + n) room.new ≡ take (done + n) (drop at (file_content file (F.holds files.old))))) }
    ensures stays { IsTrue (F.holds files.old).tells → Stays (F.holds files.old) (F.holds files.new) }
    ensures time { FilesGoOn (F.holds files.old) (F.holds files.new) }
{
    files.read_some(file, at + done as u64, &mut room[done..])
}

/// Writes, unless the file would come to 2^63 bytes.
#[tactic(auto, using(crate::proofs::Counted::time_none))]
pub(crate) fn write_near<F: FileCalls>(
    files: &mut F,
    file: LeafFile,
    at: u64,
    bytes: &[u8],
) -> Result<(), Failed>
    ensures too_far { 2 ^ 63 ≤ at + length bytes.now → IsErr result }
    ensures told { IsTrue (F.holds files.old).tells
        → FileWritten file at bytes.now result (F.holds files.old) (F.holds files.new) }
    ensures time { FilesGoOn (F.holds files.old) (F.holds files.new) }
{
    if is_far(at, bytes.len()) {
        return Err(Failed);
    }
    write_here(files, file, at, bytes)
}

/// Writes a piece, of no bytes too.
#[tactic(auto, using(crate::proofs::Counted::lengthened))]
fn write_here<F: FileCalls>(
    files: &mut F,
    file: LeafFile,
    at: u64,
    bytes: &[u8],
) -> Result<(), Failed>
    requires { at + length bytes.now < 2 ^ 63 }
    ensures told { IsTrue (F.holds files.old).tells
        → FileWritten file at bytes.now result (F.holds files.old) (F.holds files.new) }
    ensures time { FilesGoOn (F.holds files.old) (F.holds files.new) }
{
    if bytes.is_empty() {
        // The system takes a piece of no bytes for no write at all.
        files.lengthen(file, at)
    } else {
        files.write_all(file, at, bytes)
    }
}

/// Whether `len` bytes from `at` on reach 2^63.
fn is_far(at: u64, len: usize) -> bool
    ensures { IsTrue result ↔ 2 ^ 63 ≤ at + len }
{
    at >= LIMIT || len as u64 >= LIMIT - at
}
