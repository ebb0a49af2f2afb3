// The six calls on the two files of a leaf, and what each keeps.
ghost use Rattle.std.specs.Prelude.{◌≡◌, ◌⊎◌, ◌↔◌, ◌+◌, ◌^◌, ◌<◌, ℕ, List, [], length, IfOk, IsTrue};
ghost use Rattle.std.specs.Io.{ReadsAtMost};
ghost use Rattle.berth_face.specs.Berth.{Pair, Meaning, IsClosed, Stays, RegionCut, DiskSynced};
ghost use Rattle.berth_files.specs.Files.{GivesSome, FileWritten, FilesGoOn, file_content};

use crate::leaf_file::LeafFile;
use berth_face::Failed;

/// The two files of a leaf, by six calls. Each clause says what a call gives and keeps, if the files tell what they
/// hold. We trust that the system's files keep these clauses. All clauses of a `FileBerth` are proved over every pair
/// of files that keeps them.
///
/// Linux keeps them if the program ends, however it ends. If the machine goes down, it keeps them for a disk on a
/// device; the region may be on a device too, or in memory, where it is lost. A disk in memory does not keep
/// `sync_disk` then.
///
/// We ask of a device that it has what it said is synced, and that a write changes no byte beside its own. One case is
/// left out: a sync fails while a flag is closed, and the machine goes down before a later call on the region succeeds.
/// The device may then have that flag open. Nothing was written to the disk in between, because the leaf did not come
/// up.
pub trait FileCalls {
    /// What the files hold, and what a crash at each moment may leave of them. It claims nothing of its counts of
    /// faults and of reads.
    ghost holds: { Self → Meaning };

    /// The number of bytes of the file; 0 if it is not there.
    fn len(&mut self, file: LeafFile) -> Result<u64, Failed>
        ensures bound { IfOk result (λ n. n < 2 ^ 63) }
        ensures told { IsTrue (holds self.old).tells
            → IfOk result (λ n. n ≡ length (file_content file (holds self.old)))
            × Stays (holds self.old) (holds self.new) }
        ensures time { FilesGoOn (holds self.old) (holds self.new) };

    /// Reads bytes from `at` on into the buffer, and tells how many. They may be fewer than there are, but at least one
    /// if there is one and room for it.
    fn read_some(&mut self, file: LeafFile, at: u64, buf: &mut [u8]) -> Result<usize, Failed>
        requires { at + length buf.old < 2 ^ 63 }
        ensures bound { ReadsAtMost result buf.new }
        ensures told { IsTrue (holds self.old).tells
            → IfOk result (λ n. GivesSome at (file_content file (holds self.old)) buf.new n)
            × Stays (holds self.old) (holds self.new) }
        ensures time { FilesGoOn (holds self.old) (holds self.new) };

    /// Writes all of a piece, which is not empty, and fills a gap before it with zeros. It makes a file that is not
    /// there.
    fn write_all(&mut self, file: LeafFile, at: u64, bytes: &[u8]) -> Result<(), Failed>
        requires some { 0 < length bytes.now }
        requires near { at + length bytes.now < 2 ^ 63 }
        ensures told { IsTrue (holds self.old).tells
            → FileWritten file at bytes.now result (holds self.old) (holds self.new) }
        ensures time { FilesGoOn (holds self.old) (holds self.new) };

    /// Lengthens the file with zeros, as a write of no bytes at `len` does. A file that is at least as long stays as it
    /// is. It makes a file that is not there.
    fn lengthen(&mut self, file: LeafFile, len: u64) -> Result<(), Failed>
        requires { len < 2 ^ 63 }
        ensures told { IsTrue (holds self.old).tells
            → FileWritten file len [] result (holds self.old) (holds self.new) }
        ensures time { FilesGoOn (holds self.old) (holds self.new) };

    /// Cuts the region's file to `len` bytes. One that is no longer stays as it is.
    fn shorten_region(&mut self, len: u64) -> Result<(), Failed>
        ensures told { IsTrue (holds self.old).tells → RegionCut len result (holds self.old) (holds self.new) }
        ensures time { FilesGoOn (holds self.old) (holds self.new) };

    /// Syncs the disk's file and its entry in the folder to the device. After it, a crash leaves the disk that a read
    /// gives. It does not sync the folder's own entry in its parent: whoever made the folder does that.
    fn sync_disk(&mut self) -> Result<(), Failed>
        ensures told { IsTrue (holds self.old).tells → DiskSynced result (holds self.old) (holds self.new) }
        ensures time { FilesGoOn (holds self.old) (holds self.new) };

    /// A crash now may leave what reads give.
    ghost stands: { (f : Self) → IsTrue (holds f).tells → (holds f).leaves (holds f).clock (holds f).held };

    /// A crash now leaves the region that reads give. If the machine goes down, it may leave any closed region instead:
    /// nothing of a region in memory, and on a device any bytes after a closed flag.
    ghost keeps_region: { (f : Self) (p : Pair) → IsTrue (holds f).tells → (holds f).leaves (holds f).clock p
        → (p.region ≡ (holds f).held.region) ⊎ IsClosed p.region };

    /// The region now is what reads give.
    ghost region_now: { (f : Self) (region : List ℕ) → IsTrue (holds f).tells → (holds f).regions (holds f).clock region
        ↔ (region ≡ (holds f).held.region) };

    /// A file is shorter than 2^63 bytes.
    ghost short: { (f : Self) → IsTrue (holds f).tells → (length (holds f).held.region < 2 ^ 63)
        × (length (holds f).held.disk < 2 ^ 63) };
}
