// A leaf's region of shared memory and its disk.
ghost use Rattle.std.specs.Prelude.{◌≡◌, ◌⊎◌, ◌↔◌, ◌+◌, ◌^◌, ◌<◌, ◌≤◌, ℕ, List, length, IfOk, IsErr, IsTrue};
ghost use Rattle.std.specs.Io.{ReadsAtMost};
ghost use Rattle.berth_face.specs.Causes.{Rose, HasCause};
ghost use Rattle.berth_face.specs.Berth.{Pair, Meaning, IsClosed, Passes, Stays, Gives, RegionWritten, RegionCut, DiskWritten, DiskSynced};

use crate::Failed;

/// A leaf's region of shared memory and its disk.
pub trait Berth: Send {
    ghost meaning: { Self → Meaning };

    fn region_len(&mut self) -> Result<u64, Failed>
        ensures bound { IfOk result (λ n. n < 2 ^ 63) }
        ensures told { IsTrue (meaning self.old).tells → IfOk result (λ n. n ≡ length (meaning self.old).held.region)
            × Stays (meaning self.old) (meaning self.new) }
        ensures time { Passes (meaning self.old) (meaning self.new) }
        ensures cause { HasCause (meaning self.old).region_faults (meaning self.new).region_faults result }
        ensures reads { (meaning self.new).disk_reads ≡ (meaning self.old).disk_reads };

    /// Reads bytes from `at` on into the buffer, and tells how many: fewer than asked only if the region ends there.
    fn region_read(&mut self, at: u64, buf: &mut [u8]) -> Result<usize, Failed>
        ensures bound { ReadsAtMost result buf.new }
        ensures told { IsTrue (meaning self.old).tells → Gives at (meaning self.old).held.region result buf.new
            × Stays (meaning self.old) (meaning self.new) }
        ensures time { Passes (meaning self.old) (meaning self.new) }
        ensures cause { HasCause (meaning self.old).region_faults (meaning self.new).region_faults result }
        ensures reads { (meaning self.new).disk_reads ≡ (meaning self.old).disk_reads };

    /// Writes the bytes at `at`, over what is there and past the end. A gap before `at` is filled with zeros.
    fn region_write(&mut self, at: u64, bytes: &[u8]) -> Result<(), Failed>
        ensures too_far { 2 ^ 63 ≤ at + length bytes.now → IsErr result }
        ensures told { IsTrue (meaning self.old).tells
            → RegionWritten at bytes.now result (meaning self.old) (meaning self.new) }
        ensures time { Passes (meaning self.old) (meaning self.new) }
        ensures cause { HasCause (meaning self.old).region_faults (meaning self.new).region_faults result }
        ensures reads { (meaning self.new).disk_reads ≡ (meaning self.old).disk_reads };

    /// Cuts the region to `len` bytes. A `len` not below the present length changes nothing.
    fn region_cut(&mut self, len: u64) -> Result<(), Failed>
        ensures told { IsTrue (meaning self.old).tells → RegionCut len result (meaning self.old) (meaning self.new) }
        ensures time { Passes (meaning self.old) (meaning self.new) }
        ensures cause { HasCause (meaning self.old).region_faults (meaning self.new).region_faults result }
        ensures reads { (meaning self.new).disk_reads ≡ (meaning self.old).disk_reads };

    fn disk_len(&mut self) -> Result<u64, Failed>
        ensures bound { IfOk result (λ n. n < 2 ^ 63) }
        ensures told { IsTrue (meaning self.old).tells → IfOk result (λ n. n ≡ length (meaning self.old).held.disk)
            × Stays (meaning self.old) (meaning self.new) }
        ensures time { Passes (meaning self.old) (meaning self.new) }
        ensures cause { HasCause (meaning self.old).disk_faults (meaning self.new).disk_faults result }
        ensures reads { (meaning self.new).disk_reads ≡ (meaning self.old).disk_reads };

    /// Reads bytes from `at` on into the buffer, and tells how many: fewer than asked only if the disk ends there.
    fn disk_read(&mut self, at: u64, buf: &mut [u8]) -> Result<usize, Failed>
        ensures bound { ReadsAtMost result buf.new }
        ensures told { IsTrue (meaning self.old).tells → Gives at (meaning self.old).held.disk result buf.new
            × Stays (meaning self.old) (meaning self.new) }
        ensures time { Passes (meaning self.old) (meaning self.new) }
        ensures cause { HasCause (meaning self.old).disk_faults (meaning self.new).disk_faults result }
        ensures reads { Rose (meaning self.old).disk_reads (meaning self.new).disk_reads };

    /// Writes the bytes at `at`, over what is there and past the end. Until a sync, a crash may leave any bytes in the
    /// range.
    fn disk_write(&mut self, at: u64, bytes: &[u8]) -> Result<(), Failed>
        ensures too_far { 2 ^ 63 ≤ at + length bytes.now → IsErr result }
        ensures told { IsTrue (meaning self.old).tells
            → DiskWritten at bytes.now result (meaning self.old) (meaning self.new) }
        ensures time { Passes (meaning self.old) (meaning self.new) }
        ensures cause { HasCause (meaning self.old).disk_faults (meaning self.new).disk_faults result }
        ensures reads { (meaning self.new).disk_reads ≡ (meaning self.old).disk_reads };

    /// After it, a crash leaves the disk that a read gives.
    fn disk_sync(&mut self) -> Result<(), Failed>
        ensures told { IsTrue (meaning self.old).tells → DiskSynced result (meaning self.old) (meaning self.new) }
        ensures time { Passes (meaning self.old) (meaning self.new) }
        ensures cause { HasCause (meaning self.old).disk_faults (meaning self.new).disk_faults result }
        ensures reads { (meaning self.new).disk_reads ≡ (meaning self.old).disk_reads };

    /// A crash now may leave what reads give.
    ghost stands: { (b : Self) → IsTrue (meaning b).tells → (meaning b).leaves (meaning b).clock (meaning b).held };

    /// A crash now leaves the region that reads give. If the machine goes down, it may leave any closed region instead.
    /// Nothing of a closed region is used.
    ghost keeps_region: { (b : Self) (p : Pair) → IsTrue (meaning b).tells → (meaning b).leaves (meaning b).clock p
        → (p.region ≡ (meaning b).held.region) ⊎ IsClosed p.region };

    /// The region now is what reads give.
    ghost region_now: { (b : Self) (region : List ℕ) → IsTrue (meaning b).tells
        → (meaning b).regions (meaning b).clock region ↔ (region ≡ (meaning b).held.region) };

    /// Contents are shorter than 2^63 bytes.
    ghost short: { (b : Self) → IsTrue (meaning b).tells → (length (meaning b).held.region < 2 ^ 63)
        × (length (meaning b).held.disk < 2 ^ 63) };
}
